// Why a call is turned away.
ghost use Rattle.std.specs.Prelude.{◌≡◌};
ghost use Rattle.domain.specs.Ranges.{span, within};
ghost use Rattle.rules.specs.Refusals.{within_limits, open_refusal, faults, first_of};

use domain::{Domain, PLACES, Range};
use release::{Record, Settings};
use rules::OpenRefusal;

fn is_within(low: u32, high: u32, setting: u32) -> bool
    ensures { result ≡ within (span low high) setting }
{
    Range { low, high }.covers(setting)
}

fn within_limits(g: Settings) -> bool
    ensures { result ≡ within_limits g }
{
    is_within(2, 32, g.k)
        && is_within(g.k, 255, g.delta)
        && is_within(1, 64, g.beta)
        && is_within(1, 32, g.mu)
        && is_within(1, 64, g.rho)
}

// Why no stream over the domain is opened with these settings.
pub(crate) fn open_refusal<D: Domain>(d: &D, settings: Settings) -> Option<OpenRefusal>
    ensures { result ≡ open_refusal (D.meaning d.now) settings }
{
    let width = d.width();
    if width == 0 || width > PLACES {
        Some(OpenRefusal::Width)
    } else if !within_limits(settings) {
        Some(OpenRefusal::Limits)
    } else {
        None
    }
}

// The lowest column at fault: the owner's is 1, and those of the attributes follow.
pub(crate) fn unfit<D: Domain>(d: &D, fed: &Record) -> Option<u32>
    ensures { result ≡ first_of (faults (D.meaning d.now) fed.now) }
{
    if fed.owner == 0 {
        return Some(1);
    }
    // A place is below 6, so the cast loses nothing.
    (0..d.width().min(PLACES))
        .find(|&i| !d.admits(i, fed.values[i]))
        .map(|i| i as u32 + 2)
}
