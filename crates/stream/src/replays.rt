// Whole lists of calls.
ghost use Rattle.std.specs.Prelude.{◌≡◌, length};
ghost use Rattle.rules.specs.Runs.{History};
ghost use Rattle.stream.specs.Calls.{GoesOn};
ghost use Rattle.stream.specs.Replays.{Made, Replays, call_of};
ghost use Rattle.stream.specs.Views.{Leads};
ghost use Rattle.stream.specs.Within.{SameTerms};

use crate::faults::OpenFault;
use crate::stream::Stream;
use domain::Domain;
use release::{Line, Record, Settings};
use rules::Refusal;
use std::alloc::Global;

// A call on a stream.
#[derive(Clone, Copy, Debug)]
pub enum Call {
    Feed(Record),
    Close,
}

// What a list of calls comes to: the stream behind them, and all the lines that they wrote, in order.
#[derive(Drop)]
pub struct Replay<D> {
    pub stream: Stream<D>,
    pub lines: Vec<Line>,
}

// Makes the call.
fn answer<D: Domain>(
    stream: &mut Stream<D>,
    call: Call,
    list: &mut [Line],
) -> Result<usize, Refusal>
    ensures terms { SameTerms stream.old stream.new }
    ensures goes_on { (h : History) → Leads (D.meaning stream.old.domain) h stream.old → GoesOn (D.meaning stream.old.domain) h (call_of (length list.old) call) result list.old list.new stream.new }
{
    match call {
        Call::Feed(fed) => stream.feed(fed, list),
        Call::Close => stream.close(list),
    }
}

// Makes the call, and answers how many lines it wrote: none if it was turned away.
fn make<D: Domain>(stream: &mut Stream<D>, call: Call, list: &mut [Line]) -> usize
    ensures terms { SameTerms stream.old stream.new }
    ensures made { (h : History) → Leads (D.meaning stream.old.domain) h stream.old → Made (D.meaning stream.old.domain) h (call_of (length list.old) call) list.new result stream.new }
{
    answer(stream, call, list).unwrap_or(0)
}

// Makes the calls one after the other on a fresh stream, each with the list lent to it.
pub fn replay_calls<D: Domain + Drop>(
    heap: Global,
    domain: D,
    settings: Settings,
    calls: &[Call],
    list: &mut [Line],
) -> Result<Replay<D>, OpenFault>
    ensures { Replays (D.meaning domain) settings calls.now (length list.old) result }
{
    let mut stream = Stream::open(heap, domain, settings)?;
    let mut lines = Vec::new(heap);
    for call in calls {
        let n = make(&mut stream, *call, list);
        lines.extend_from_slice(&list[0..n])?;
    }
    Ok(Replay { stream, lines })
}
