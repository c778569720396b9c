use ledger::Ledger;
use pool::Pool;
use release::Settings;
use split::Splitter;

mod arrivals;
mod calls;
mod counts;
mod draining;
mod leaving;
mod releasing;
mod turns;

// A stream over a domain: what is held, what is remembered of the released boxes, and the counts. What holds of them on a run
// is no invariant here: it holds lists, and a ghost field has to be a proposition. `closed` is no type of its own, since a
// call on a closed stream is answered by a refusal.
#[derive(Drop)]
pub struct Stream<D> {
    domain: D,
    settings: Settings,
    pool: Pool,
    ledger: Ledger,
    splitter: Splitter,
    accepted: u32,
    suppressed: u32,
    closed: bool,
}
