ghost use Rattle.std.specs.Prelude.{◌≤◌, length};

use domain::Width;

mod calls;

// Goes over a text of report lines: `place` is the first byte that is not read yet, and `lines` counts the lines
// before it.
#[derive(Drop)]
pub struct Reader<'a> {
    text: &'a [u8],
    place: usize,
    lines: usize,
    width: Width,
    ghost within: { place ≤ length text.now },
    ghost counted: { lines ≤ place },
}
