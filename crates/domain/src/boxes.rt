// A box has a range for each of six attributes, of which those that the domain knows count.
ghost use Rattle.std.specs.Prelude.{◌≡◌, ℕ, ◌*◌, ◌<◌, ◌≤◌, map, sum};
ghost use Rattle.domain.specs.BoxLaws.{Allowed, Admitted, LeastBox, LeastCover, LeastWider, CoversBoth, LosesLeast, BoxSemilattice};
ghost use Rattle.domain.specs.Boxes as boxes;
ghost use Rattle.domain.specs.Boxes.{attributes, known_count, point_box, join_boxes, box_loss};
ghost use Rattle.domain.specs.declared.range.Range.{Range};
ghost use Rattle.domain.specs.Examples.{BoxExamples};
ghost use Rattle.domain.specs.Meaning.{full_loss, loss_of};

use crate::{Domain, PLACES, Range};
use std::array;

// The least box that covers one record's values.
pub fn point_box<D: Domain>(d: &D, values: &[u32; PLACES]) -> [Range; PLACES]
    ensures value { result ≡ point_box (D.meaning d.now) values.now }
    ensures least { Admitted (D.meaning d.now) values.now → LeastCover (D.meaning d.now) values.now result }
{
    let known = d.width();
    array::from_fn(|i| Range::point(if i < known { values[i] } else { 0 }))
}

// The least box that contains both.
pub fn join_boxes<D: Domain>(d: &D, a: &[Range; PLACES], b: &[Range; PLACES]) -> [Range; PLACES]
    ensures value { result ≡ join_boxes (D.meaning d.now) a.now b.now }
    ensures least { Allowed (D.meaning d.now) a.now → Allowed (D.meaning d.now) b.now → LeastBox (D.meaning d.now) a.now b.now result }
    ensures covering { Allowed (D.meaning d.now) a.now → Allowed (D.meaning d.now) b.now → CoversBoth (D.meaning d.now) a.now b.now result }
    ensures laws { BoxSemilattice (D.meaning d.now) }
    ensures examples { BoxExamples }
{
    array::from_fn(|i| d.join(i, a[i], b[i]))
}

// Makes the box the least one that contains it and covers the values.
pub fn widen<D: Domain>(d: &D, bounds: &mut [Range; PLACES], values: &[u32; PLACES])
    ensures value { bounds.new ≡ join_boxes (D.meaning d.now) bounds.old (point_box (D.meaning d.now) values.now) }
    ensures least { Allowed (D.meaning d.now) bounds.old → Admitted (D.meaning d.now) values.now → LeastWider (D.meaning d.now) bounds.old values.now bounds.new }
{
    // In place and by index: a second box for each record was slower.
    for i in 0..d.width().min(PLACES) {
        bounds[i] = d.join(i, bounds[i], Range::point(values[i]));
    }
}

// The sum of the losses of its ranges.
pub fn box_loss<D: Domain>(d: &D, bounds: &[Range; PLACES]) -> u32
    ensures value { result ≡ box_loss (D.meaning d.now) bounds.now }
    ensures bound { result ≤ full_loss * known_count (D.meaning d.now) }
    ensures least { Allowed (D.meaning d.now) bounds.now → LosesLeast (D.meaning d.now) bounds.now result }
{
    let mut sum = 0;
    // By index, since a chain's sum does not show that it fits.
    for i in 0..d.width().min(PLACES) {
        sum += d.loss(i, bounds[i]);
    }
    sum
}

// Whether the box covers the values of the known attributes.
pub fn covers<D: Domain>(d: &D, bounds: &[Range; PLACES], values: &[u32; PLACES]) -> bool
    ensures { result ≡ boxes.covers (D.meaning d.now) bounds.now values.now }
{
    (0..d.width().min(PLACES)).all(|i| bounds[i].covers(values[i]))
}
