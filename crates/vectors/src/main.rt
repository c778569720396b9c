// Reads the examples of RFC 4180, section 2, and tells the fields that came out.
#![tactic(auto)]

use rfc4180::{Field, read_line};
use std::{fmt, io};

// A field in one line of print: its kind, and its bytes, line ends by name.
#[derive(Clone, Copy)]
struct Shown<'a>(Field<'a>);

impl fmt::Display for Shown<'_> {
    fn fmt<W: fmt::Write>(&self, f: &mut fmt::Formatter<W>) -> fmt::Result {
        let kind = match self.0 {
            Field::Plain(_) => "plain",
            Field::Quoted(_) => "quoted",
        };
        write!(f, "{kind} ")?;
        for &byte in self.0.content() {
            match byte {
                b'\r' => write!(f, "<CR>")?,
                b'\n' => write!(f, "<LF>")?,
                _ => write!(f, "{}", char::from(byte))?,
            }
        }
        Ok(())
    }
}

// A text of at most eight lines of at most eight fields.
#[derive(Clone, Copy)]
struct Example<'a> {
    name: &'a str,
    text: &'a [u8],
}

impl fmt::Display for Example<'_> {
    fn fmt<W: fmt::Write>(&self, f: &mut fmt::Formatter<W>) -> fmt::Result {
        write!(f, "{}", self.name)?;
        let mut place = 0;
        // By place, since a line begins where the one before it ended.
        for number in 1..=8 {
            if place >= self.text.len() {
                break;
            }
            let mut fields = [Field::Plain(b""); 8];
            let line = match read_line(self.text, place, number, &mut fields) {
                Ok(line) => line,
                Err(fault) => return write!(f, "\n  {fault:?}"),
            };
            write!(f, "\n  line {number}")?;
            for &field in fields.iter().take(line.fields) {
                write!(f, "\n    {}", Shown(field))?;
            }
            place = line.next;
        }
        Ok(())
    }
}

fn main(rt: HostRuntime) -> io::Result<()> {
    let examples = [
        Example {
            name: "1: each record on a line, with a line break",
            text: b"aaa,bbb,ccc\r\nzzz,yyy,xxx\r\n",
        },
        Example {
            name: "2: the last record may have no line break",
            text: b"aaa,bbb,ccc\r\nzzz,yyy,xxx",
        },
        Example {
            name: "3: a header line",
            text: b"field_name,field_name,field_name\r\naaa,bbb,ccc\r\nzzz,yyy,xxx\r\n",
        },
        Example {
            name: "4: fields separated by commas",
            text: b"aaa,bbb,ccc",
        },
        Example {
            name: "5: fields in quotation marks or not",
            text: b"\"aaa\",\"bbb\",\"ccc\"\r\nzzz,yyy,xxx",
        },
        Example {
            name: "6: a line break inside quotation marks",
            text: b"\"aaa\",\"b\r\nbb\",\"ccc\"\r\nzzz,yyy,xxx",
        },
        Example {
            name: "7: a doubled quotation mark",
            text: b"\"aaa\",\"b\"\"bb\",\"ccc\"",
        },
    ];
    for example in &examples {
        println!(rt; "{example}")?;
    }
    Ok(())
}
