// Reads texts at the edges of what a report line may be, and tells what becomes of each line.
#![tactic(auto)]

ghost use Rattle.std.specs.Prelude.{◌≡◌, ◌++◌, IfOk};
ghost use Rattle.std.specs.List.{repeat};

use filter::{Findings, LIMIT, survey};
use report::{LineFault, Reader, Report, Width};
use rfc4180::{Diagnostic, Location};
use std::alloc::{AllocError, Global};
use std::fmt;

// What became of a line.
#[derive(Clone, Copy)]
struct Told(Result<Report, LineFault>);

impl fmt::Display for Told {
    fn fmt<W: fmt::Write>(&self, f: &mut fmt::Formatter<W>) -> fmt::Result {
        match self.0 {
            Ok(report) => write!(
                f,
                "line {}, byte {}: owner {}, values {:?}, reading {}",
                report.line, report.byte, report.owner, report.values, report.reading
            ),
            Err(fault) => {
                let Diagnostic { number, layer, at } = fault.diagnostic();
                let Location { line, column, byte } = at;
                write!(
                    f,
                    "line {line}, column {column}, byte {byte}: {number} ({layer}), {fault}"
                )
            }
        }
    }
}

// A text, and the width that it is read at.
#[derive(Clone, Copy)]
struct Case {
    name: &'static str,
    width: usize,
    text: &'static [u8],
}

impl fmt::Display for Case {
    fn fmt<W: fmt::Write>(&self, f: &mut fmt::Formatter<W>) -> fmt::Result {
        write!(f, "{}", self.name)?;
        let width = match Width::new(self.width) {
            Ok(width) => width,
            Err(fault) => return write!(f, "\n  {}", fault.number()),
        };
        for outcome in Reader::begin(self.text, width) {
            write!(f, "\n  {}", Told(outcome))?;
        }
        Ok(())
    }
}

// A report line in which nothing is wrong.
const SOUND: &[u8] = b"12,40,2,-7\r\n";

// A torn line, and a hundred sound ones behind it.
fn torn(heap: Global, line: &[u8]) -> Result<Vec<u8>, AllocError>
    ensures { IfOk result (λ v. v.items ≡ line.now ++ repeat 100 SOUND.now) }
{
    let mut text = Vec::new(heap);
    text.extend_from_slice(line)?;
    text.extend_from_slice(&SOUND.repeat(heap, 100)?)?;
    Ok(text)
}

const CASES: [Case; 49] = [
    Case {
        name: "width 0",
        width: 0,
        text: b"1,2,3\r\n",
    },
    Case {
        name: "width 1",
        width: 1,
        text: b"1,2,3\r\n",
    },
    Case {
        name: "width 6",
        width: 6,
        text: b"1,2,3,4,5,6,7,8\r\n",
    },
    Case {
        name: "width 7",
        width: 7,
        text: b"1,2,3,4,5,6,7,8,9\r\n",
    },
    Case {
        name: "10 digits",
        width: 1,
        text: b"0000000012,0000000000,0000000005",
    },
    Case {
        name: "11 digits",
        width: 1,
        text: b"00000000012,0,5",
    },
    Case {
        name: "the largest number",
        width: 1,
        text: b"4294967295,4294967295,5",
    },
    Case {
        name: "one more",
        width: 1,
        text: b"1,4294967296,5",
    },
    Case {
        name: "the least reading",
        width: 1,
        text: b"1,2,-2147483648",
    },
    Case {
        name: "one less",
        width: 1,
        text: b"1,2,-2147483649",
    },
    Case {
        name: "the largest reading",
        width: 1,
        text: b"1,2,2147483647",
    },
    Case {
        name: "one more",
        width: 1,
        text: b"1,2,2147483648",
    },
    Case {
        name: "minus zero",
        width: 1,
        text: b"1,2,-0",
    },
    Case {
        name: "a minus alone",
        width: 1,
        text: b"1,2,-",
    },
    Case {
        name: "two minuses",
        width: 1,
        text: b"1,2,--1",
    },
    Case {
        name: "a minus and 10 digits",
        width: 1,
        text: b"1,2,-0000000007",
    },
    Case {
        name: "a minus and 11 digits",
        width: 1,
        text: b"1,2,-00000000007",
    },
    Case {
        name: "a minus before an owner",
        width: 1,
        text: b"-1,2,3",
    },
    Case {
        name: "a plus",
        width: 1,
        text: b"1,+2,3",
    },
    Case {
        name: "a blank",
        width: 1,
        text: b"1, 2,3",
    },
    Case {
        name: "the byte before 0 and the byte behind 9",
        width: 1,
        text: b"1,/,3\r\n1,:,3",
    },
    Case {
        name: "an empty field",
        width: 1,
        text: b"1,,3",
    },
    Case {
        name: "no text",
        width: 1,
        text: b"",
    },
    Case {
        name: "an empty line",
        width: 1,
        text: b"\r\n1,2,3\r\n",
    },
    Case {
        name: "the last line end missing",
        width: 1,
        text: b"1,2,3\r\n4,5,6",
    },
    Case {
        name: "a field missing, a field too many",
        width: 1,
        text: b"1,2\r\n1,2,3,4\r\n",
    },
    Case {
        name: "two wrong fields",
        width: 1,
        text: b"x,2,y",
    },
    Case {
        name: "wrong in number and kind",
        width: 1,
        text: b"x,y",
    },
    Case {
        name: "a lone CR",
        width: 1,
        text: b"1,2\r,3\r\n4,5,6\r\n",
    },
    Case {
        name: "a lone LF",
        width: 1,
        text: b"1,2\n4,5,6\r\n",
    },
    Case {
        name: "a CR at the end",
        width: 1,
        text: b"1,2,3\r",
    },
    Case {
        name: "CR CR LF",
        width: 1,
        text: b"1,2,3\r\r\n4,5,6",
    },
    Case {
        name: "byte 127",
        width: 1,
        text: b"1,2,3\x7f",
    },
    Case {
        name: "byte 31",
        width: 1,
        text: b"1,\x1f2,3",
    },
    Case {
        name: "bytes 32 and 126",
        width: 1,
        text: b"1, ,3\r\n1,~,3",
    },
    Case {
        name: "a byte above ASCII",
        width: 1,
        text: b"1,2,\xc3\xa9",
    },
    Case {
        name: "a quotation mark in a plain field",
        width: 1,
        text: b"1,2\",3",
    },
    Case {
        name: "quoted numbers",
        width: 1,
        text: b"\"1\",\"2\",\"-3\"\r\n4,5,\"6\"",
    },
    Case {
        name: "the text ends in a quoted field",
        width: 1,
        text: b"1,2,\"3",
    },
    Case {
        name: "the text ends behind an opening mark",
        width: 1,
        text: b"1,2,\"",
    },
    Case {
        name: "doubled marks at both ends",
        width: 1,
        text: b"1,\"\"\"2\"\"\",3",
    },
    Case {
        name: "doubled marks, and the text ends",
        width: 1,
        text: b"1,\"2\"\"",
    },
    Case {
        name: "an empty quoted field",
        width: 1,
        text: b"1,\"\",3",
    },
    Case {
        name: "a comma and a line end inside",
        width: 1,
        text: b"1,\"2,\r\n\",3\r\n4,5,6",
    },
    Case {
        name: "a digit behind the closing mark",
        width: 1,
        text: b"1,\"2\"0,3\r\n4,5,6",
    },
    Case {
        name: "a CR behind the closing mark",
        width: 1,
        text: b"1,\"2\"\r,3\r\n4,5,6",
    },
    Case {
        name: "byte 7 inside",
        width: 1,
        text: b"1,\"\x07\",3\r\n4,5,6",
    },
    Case {
        name: "a line end inside a spoilt field",
        width: 1,
        text: b"1,\"2\r\n4,5,6\r\n7\"8,9\r\n10,11,12",
    },
    Case {
        name: "a mark that is never closed",
        width: 1,
        text: b"1,\"2,3\r\n4,5,6\r\n",
    },
];

fn main(rt: HostRuntime) -> anyhow::Result<()> {
    for case in CASES {
        println!(rt; "{case}")?;
    }
    let heap = rt.alloc();
    let tears: [&[u8]; 3] = [b"12,4\r\n", b"12,\"4\r\n", b"12,4\x07\r\n"];
    for tear in tears {
        match survey(heap, &torn(heap, tear)?) {
            Ok(Findings { lines, taken }) => println!(rt;
                "torn: {} lines, {taken} taken",
                lines.len()
            )?,
            Err(_) => println!(rt; "torn: refused")?,
        }
    }
    for size in [LIMIT, LIMIT + 1] {
        match survey(heap, &vec![in heap; b'1'; size]?) {
            Ok(findings) => println!(rt; "{size} bytes: {} lines", findings.lines.len())?,
            Err(refusal) => println!(rt; "{size} bytes: {:?}", refusal.number())?,
        }
    }
    Ok(())
}
