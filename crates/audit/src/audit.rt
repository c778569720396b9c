// A run of a stream over a workload, audited from what was fed and what was written.
ghost use Rattle.std.specs.Prelude.{◌≡◌, fold, IfOk, OnOk};
ghost use Rattle.domain.specs.Meaning.{width_of};
ghost use Rattle.audit.specs.Audits as audits;
ghost use Rattle.audit.specs.Books as books;
ghost use Rattle.audit.specs.Runs as runs;

use crate::book::{Book, Moment};
use crate::wrong::{Breach, Wrong};
use anyhow::anyhow;
use domain::{Domain, PLACES, Range};
use release::{Line, Manner, Record, Settings};
use std::alloc::{AllocError, Global};
use std::fmt;
use std::fmt::Radix;
use stream::Stream;
use workload::{Checksum, Source, Workload};

// How many records a run feeds, and how long its list of lines is.
const RECORDS: u32 = 6_000;

const LINES: usize = 256;

const BLANK: Line = Line {
    position: 0,
    reading: 0,
    manner: Manner::Suppressed,
    number: 0,
    ranges: [Range { low: 0, high: 0 }; PLACES],
};

// An audit under way: what was seen, and the first thing found wrong.
#[derive(Drop)]
struct Audit {
    book: Book,
    checksum: Checksum,
    breach: Option<Breach>,
}

impl Audit {
    // Behind the first thing found wrong, lines are only summed.
    fn line(&mut self, line: &Line, moment: Moment) -> Result<(), AllocError>
        ensures { OnOk result (self.new ≡ audits.audited moment self.old line.now) }
    {
        self.checksum.line(line);
        if self.breach.is_some() {
            return Ok(());
        }
        match self.book.fault(line, moment) {
            Some(wrong) => {
                self.breach = Some(Breach {
                    position: line.position as usize,
                    wrong,
                });
            }
            None => self.book.enter(line)?,
        }
        Ok(())
    }

    // The lines that one call wrote.
    fn lines(&mut self, lines: &[Line], moment: Moment) -> Result<(), AllocError>
        ensures { OnOk result (self.new ≡ fold (audits.audited moment) self.old lines.now) }
    {
        for line in lines {
            self.line(line, moment)?;
        }
        Ok(())
    }

    // What is wrong after the last line: a record that is not written, a box without its crowd, or other counts.
    fn end(&self, accepted: u32, suppressed: u32) -> Option<Breach>
        ensures { result ≡ audits.verdict self.now accepted suppressed }
    {
        self.breach
            .or_else(|| self.book.missing())
            .or_else(|| self.book.thin())
            .or_else(|| self.miscount(accepted, suppressed))
    }

    fn miscount(&self, accepted: u32, suppressed: u32) -> Option<Breach>
        ensures { result ≡ books.miscount self.now.book accepted suppressed }
    {
        (!self.book.agrees(accepted, suppressed)).then_some(Breach {
            position: accepted as usize,
            wrong: Wrong::Count,
        })
    }
}

// What a run came to.
#[derive(Clone, Copy)]
pub(crate) struct Outcome {
    workload: Workload,
    settings: Settings,
    released: usize,
    boxes: usize,
    reused: usize,
    suppressed: usize,
    checksum: u64,
    breach: Option<Breach>,
}

impl fmt::Display for Outcome {
    fn fmt<W: fmt::Write>(&self, f: &mut fmt::Formatter<W>) -> fmt::Result {
        let Settings {
            k,
            delta,
            beta,
            mu,
            rho,
        } = self.settings;
        write!(f, "{} {k},{delta},{beta},{mu},{rho}: ", self.workload)?;
        write!(f, "{} released in {} boxes, ", self.released, self.boxes)?;
        write!(
            f,
            "{} reused, {} suppressed, ",
            self.reused, self.suppressed
        )?;
        write!(f, "{:016x}, ", self.checksum)?;
        match self.breach {
            Some(breach) => write!(f, "{breach}"),
            None => write!(f, "sound"),
        }
    }
}

// Feeds one record, and audits the lines that it lets go.
fn feed<D: Domain + Drop>(
    stream: &mut Stream<D>,
    fed: Record,
    list: &mut [Line],
    audit: &mut Audit,
) -> anyhow::Result<()>
    ensures { OnOk result (runs.IsFed fed audit.old audit.new) }
{
    let n = stream
        .feed(fed, list)
        .map_err(|_| anyhow!("a record was refused"))?;
    audit.book.accept(fed)?;
    // What the stream answers is not trusted: it may be more than the list has.
    audit.lines(&list[..n.min(list.len())], Moment::Feeding)?;
    Ok(())
}

fn feed_all<D: Domain + Drop>(
    stream: &mut Stream<D>,
    workload: Workload,
    list: &mut [Line],
    audit: &mut Audit,
) -> anyhow::Result<()>
    ensures { OnOk result (runs.IsRun workload audit.old audit.new) }
{
    let mut source = Source::new();
    for p in 0..RECORDS {
        feed(stream, source.draw(workload, p), list, audit)?;
    }
    let n = stream
        .close(list)
        .map_err(|_| anyhow!("closing was refused"))?;
    audit.lines(&list[..n.min(list.len())], Moment::Closing)?;
    Ok(())
}

// Runs a stream with these settings over the workload.
pub(crate) fn run<D: Domain + Drop>(
    heap: Global,
    domain: D,
    workload: Workload,
    settings: Settings,
) -> anyhow::Result<Outcome>
    ensures { IfOk result (runs.Tells workload settings (width_of (D.meaning domain))) }
{
    let mut audit = Audit {
        book: Book::new(heap, settings, domain.width()),
        checksum: Checksum::new(),
        breach: None,
    };
    let opened = Stream::open(heap, domain, settings);
    let mut stream = opened.map_err(|_| anyhow!("no stream was opened"))?;
    let mut list = [BLANK; LINES];
    feed_all(&mut stream, workload, &mut list, &mut audit)?;
    let breach = audit.end(stream.accepted(), stream.suppressed());
    Ok(Outcome {
        workload,
        settings,
        released: audit.book.count(Manner::Released),
        boxes: audit.book.boxes(),
        reused: audit.book.count(Manner::Reused),
        suppressed: audit.book.count(Manner::Suppressed),
        checksum: audit.checksum.value(),
        breach,
    })
}
