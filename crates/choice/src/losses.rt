ghost use Rattle.std.specs.Prelude.{◌≡◌, ℕ, ◌<◌};
ghost use Rattle.domain.specs.BoxLaws.{Allowed, Admitted};
ghost use Rattle.domain.specs.Boxes.{box_loss};
ghost use Rattle.domain.specs.Meaning.{places};
ghost use Rattle.domain.specs.declared.range.Range as ranges;
ghost use Rattle.choice.specs.Losses.{joined_losses, loss_beside, loss_read};

use domain::{Domain, PLACES, Range, covers};
use pool::Cluster;

// The loss of the box once each range is joined with the one that `other` gives for its place. No box is built.
pub(crate) fn loss_joined<D: Domain, F: Fn(usize) -> Range>(
    d: &D,
    bounds: &[Range; PLACES],
    other: F,
) -> u32
    requires { (i : ℕ) → i < places → F.pre other i }
    ensures { (h : ℕ → ranges.Range) → ((i : ℕ) (r : ranges.Range) → F.post other i r → r ≡ h i) → result ≡ joined_losses (D.meaning d.now) bounds.now h }
{
    let mut sum = 0;
    // By index, as the losses of a box are summed: one function of both would be public, and no public function asks of its
    // caller that a closure may be called.
    for i in 0..d.width().min(PLACES) {
        sum += d.loss(i, d.join(i, bounds[i], other(i)));
    }
    sum
}

// The loss that the cluster would have with one record more. A box that covers the record stays as it is,
// and then the domain is asked for no loss.
pub fn loss_with<D: Domain>(d: &D, cluster: &Cluster, values: &[u32; PLACES]) -> u32
    ensures value { result ≡ loss_read (D.meaning d.now) cluster.now values.now }
    ensures widened { Allowed (D.meaning d.now) cluster.now.bounds → Admitted (D.meaning d.now) values.now → cluster.now.loss ≡ box_loss (D.meaning d.now) cluster.now.bounds → result ≡ loss_beside (D.meaning d.now) cluster.now values.now }
{
    if covers(d, &cluster.bounds, values) {
        cluster.loss
    } else {
        loss_joined(d, &cluster.bounds, |i| Range::point(values[i]))
    }
}
