// Report lines, fed to a stream.
ghost use Rattle.std.specs.Prelude.{◌≡◌, false, length, is_ok, IfOk, IfErr, Some, Ok, Err};
ghost use Rattle.std.specs.Option as options;
ghost use Rattle.std.specs.Result.{result_err};
ghost use Rattle.report.specs.Lines.{told};
ghost use Rattle.report.specs.Readers.{Behind};
ghost use Rattle.rules.specs.Refusals.{feed_refusal};
ghost use Rattle.rules.specs.Runs.{History, feeding};
ghost use Rattle.stream.specs.Calls.{GoesOn};
ghost use Rattle.stream.specs.Views.{view, Leads};
ghost use Rattle.stream.specs.Within.{SameTerms};
ghost use Rattle.intake.specs.declared.faults.FeedFault.TheVariants as fault;
ghost use Rattle.intake.specs.Feeding.{record_of, at_line, without_line, told_by, reason, reason_told, is_taken, Fed};

use crate::faults::{FeedFault, FeedRefusal};
use domain::Domain;
use release::{Line, Record};
use report::{LineFault, Reader, Report};
use stream::Stream;

// Feeds the record of a report line. The lines that it lets go begin the list; the answer tells how many.
pub fn feed_report<D: Domain>(
    stream: &mut Stream<D>,
    report: &Report,
    list: &mut [Line],
) -> Result<usize, FeedRefusal>
    ensures refusal { result_err result ≡ options.option_map (at_line report.now) (feed_refusal (D.meaning stream.old.domain) (view stream.old) (record_of report.now) (length list.old)) }
    ensures unchanged { is_ok result ≡ false → (stream.new ≡ stream.old) × (list.new ≡ list.old) }
    ensures terms { SameTerms stream.old stream.new }
    ensures goes_on { (h : History) → Leads (D.meaning stream.old.domain) h stream.old → GoesOn (D.meaning stream.old.domain) h (feeding (record_of report.now) (length list.old)) (without_line result) list.old list.new stream.new }
{
    let fed = Record {
        owner: report.owner,
        values: report.values,
        reading: report.reading,
    };
    stream.feed(fed, list).map_err(|refusal| FeedRefusal {
        refusal,
        line: report.line,
        byte: report.byte,
    })
}

// Feeds the record of a line, if the reader took it. Each layer's fault is passed on whole.
fn feed_outcome<D: Domain>(
    outcome: Result<Report, LineFault>,
    stream: &mut Stream<D>,
    list: &mut [Line],
) -> Result<usize, FeedFault>
    ensures reason { reason_told result ≡ reason (D.meaning stream.old.domain) (view stream.old) (length list.old) (told outcome) }
    ensures whole { IfErr outcome (λ e. result ≡ Err (fault.Line e)) }
    ensures unchanged { is_ok result ≡ false → (stream.new ≡ stream.old) × (list.new ≡ list.old) }
    ensures terms { SameTerms stream.old stream.new }
    ensures goes_on { IfOk outcome (λ x. (h : History) → Leads (D.meaning stream.old.domain) h stream.old → Fed (D.meaning stream.old.domain) h x (Some result) list.old list.new stream.new) }
{
    let report = outcome?;
    let written = feed_report(stream, &report, list)?;
    Ok(written)
}

// Takes the next line of the reader, and feeds its record; nothing comes of it at the end of the text. The reader moves on
// also behind a line that is turned away.
pub fn feed_next<'a, D: Domain>(
    reader: &mut Reader<'a>,
    stream: &mut Stream<D>,
    list: &mut [Line],
) -> Option<Result<usize, FeedFault>>
    ensures reason { options.option_map reason_told result ≡ options.option_map (reason (D.meaning stream.old.domain) (view stream.old) (length list.old)) (told_by reader.old) }
    ensures behind { Behind reader.old reader.new }
    ensures unchanged { is_taken result ≡ false → (stream.new ≡ stream.old) × (list.new ≡ list.old) }
    ensures terms { SameTerms stream.old stream.new }
    ensures goes_on { (x : Report) → told_by reader.old ≡ Some (Ok x) → (h : History) → Leads (D.meaning stream.old.domain) h stream.old → Fed (D.meaning stream.old.domain) h x result list.old list.new stream.new }
{
    let outcome = reader.next_line()?;
    Some(feed_outcome(outcome, stream, list))
}
