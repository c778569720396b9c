// Tells of each report line on standard input what was taken from it, or why and where it was turned away.
#![tactic(auto)]

use filter::{Entry, Findings, LIMIT, survey};
use std::io::Read;
use std::process::ExitCode;

fn main(rt: HostRuntime) -> anyhow::Result<ExitCode> {
    let heap = rt.alloc();
    let mut input = Vec::new(heap);
    // One byte more than may be is enough to see that there are too many.
    rt.stdin().take(LIMIT as u64 + 1).read_to_end(&mut input)?;
    let Findings { lines, taken } = match survey(heap, &input) {
        Ok(findings) => findings,
        Err(refusal) => {
            match refusal.number() {
                Some(number) => eprintln!(rt; "castle: {number}, {refusal}")?,
                None => eprintln!(rt; "castle: {refusal}")?,
            }
            return Ok(ExitCode::FAILURE);
        }
    };
    for &outcome in &lines {
        println!(rt; "{}", Entry { outcome })?;
    }
    println!(rt;
        "{} lines: {taken} taken, {} turned away",
        lines.len(),
        lines.len() - taken
    )?;
    Ok(ExitCode::SUCCESS)
}
