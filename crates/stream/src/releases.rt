// The parts of a cluster go out.
ghost use Rattle.std.specs.Prelude.{◌≡◌, ℕ, ◌+◌, ◌≤◌, List, length};
ghost use Rattle.domain.specs.Meaning.{Meaning};
ghost use Rattle.release.specs.declared.Settings.{Settings};
ghost use Rattle.ledger.specs.Ledgers.{ledger_boxes, window_of, KeptWell};
ghost use Rattle.rules.specs.declared.Entry.{Entry};
ghost use Rattle.rules.specs.Split as split;
ghost use Rattle.split.specs.Parted.{Parted};
ghost use Rattle.stream.specs.Releases.{PartsOut};

use crate::lines::write_part;
use ledger::Ledger;
use release::Line;
use split::{Member, Part};

// Each part in order of making gets the next box number, and its records are written. The lines begin the list; the
// answer tells how many.
pub(crate) fn release_parts(
    ledger: &mut Ledger,
    parts: &[Part],
    members: &[Member],
    list: &mut [Line],
) -> usize
    ensures window { window_of ledger.new ≡ window_of ledger.old }
    ensures out { (m : Meaning) (g : Settings) (k : ℕ) (es : List Entry) → 1 ≤ k → Parted m k es members.now parts.now → g.mu ≡ window_of ledger.old → KeptWell m g.rho ledger.old → (ledger_boxes ledger.old).made + length parts.now ≤ 4294967295 → length es ≤ length list.old → PartsOut m g (split.parts m k es) ledger.old ledger.new list.old list.new result }
    ensures fits { result ≤ length list.old }
{
    let mut n = 0;
    for (j, part) in parts.iter().enumerate() {
        let number = ledger.enter(&part.bounds, part.loss);
        n += write_part(&mut list[n..], members, j, number, &part.bounds);
    }
    n
}
