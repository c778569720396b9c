// Whose turn it is.
ghost use Rattle.std.specs.Prelude.{◌≡◌, ◌<◌, length, IfSome, filter};
ghost use Rattle.rules.specs.Choosing.{head};
ghost use Rattle.rules.specs.Facts.{ByPosition};
ghost use Rattle.rules.specs.States as states;
ghost use Rattle.rules.specs.States.{State, is_due};
ghost use Rattle.stream.specs.Places.{held_at};

use release::Settings;
use rules::{Entry, Held};

// The position whose acceptance gives the record its turn.
fn deadline(settings: &Settings, entry: &Entry) -> u64
    ensures { result ≡ states.deadline settings.now entry.now }
{
    u64::from(entry.position) + u64::from(settings.delta)
}

// The place of the held record whose deadline has come. Records stand by position, so none behind a later deadline is due.
pub(crate) fn due(held: &[Held], settings: &Settings, accepted: u32) -> Option<usize>
    ensures within { IfSome result (λ i. i < length held.now) }
    ensures first { (s : State) → s.held ≡ held.now → s.accepted ≡ accepted → ByPosition s.held → held_at s.held result ≡ head (filter (is_due settings.now s) s.held) }
{
    let accepted = u64::from(accepted);
    held.iter()
        .map(|h| deadline(settings, &h.entry))
        .take_while(|&deadline| deadline <= accepted)
        .position(|deadline| deadline == accepted)
}
