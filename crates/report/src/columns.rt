// The fields of a line, turned into a report.
ghost use Rattle.std.specs.Prelude.{◌≡◌, suc, ◌+◌, ◌^◌, ◌<◌, ◌≤◌, [], map, length, take, IfOk, IfErr, OnErr, slice_index_or};
ghost use Rattle.std.specs.Fn.{FnReturnsAt};
ghost use Rattle.rfc4180.specs.Grammar.{plainly, with_commas};
ghost use Rattle.rfc4180.specs.Told.{field_text, field_behind};
ghost use Rattle.report.specs.Columns.{inside_of, columns, of_columns};
ghost use Rattle.report.specs.declared.faults.LineFault.TheVariants.{FieldKind};

use crate::faults::LineFault;
use crate::numbers::{number, reading};
use domain::PLACES;
use rfc4180::{Field, Location};

// What a line reports: the values beyond the reader's width are 0. Its number and first byte tell where it came from.
#[derive(Clone, Copy, Debug, PartialEq, Eq)]
pub struct Report {
    pub line: usize,
    pub byte: usize,
    pub owner: u32,
    pub values: [u32; PLACES],
    pub reading: i32,
}

// The fields of a line, and where the line begins.
#[derive(Clone, Copy)]
pub(crate) struct Row<'a> {
    pub(crate) fields: &'a [Field<'a>],
    pub(crate) start: Location,
    ghost fits: { start.byte + length (with_commas (map field_text fields.now)) < 2 ^ 64 },
}

impl<'a> Row<'a> {
    // The fault of the field `i`, which is not of its kind.
    fn fault(&self, i: usize) -> LineFault
        requires { i < length self.now.fields.now }
        ensures { result ≡ FieldKind (field_behind self.now.start.line self.now.start.byte (take i (map field_text self.now.fields.now))) }
    {
        // A comma stands behind each field.
        let sizes: usize = self.fields[..i].iter().map(|field| field.size()).sum();
        LineFault::FieldKind(Location {
            column: i + 1,
            byte: self.start.byte + sizes + i,
            ..self.start
        })
    }

    // What `parse` makes of the field `i`.
    fn parsed<T, F: Fn(&[u8]) -> Option<T>>(&self, i: usize, parse: F) -> Result<T, LineFault>
        requires within { i < length self.now.fields.now }
        requires parses { F.IsAlwaysCallable parse }
        ensures some { IfOk result
            (λ x. FnReturnsAt F.Fn parse (inside_of (slice_index_or (map field_text self.now.fields.now) i (plainly []))) (Some x)) }
        ensures none { OnErr result
            (FnReturnsAt F.Fn parse (inside_of (slice_index_or (map field_text self.now.fields.now) i (plainly []))) None) }
        ensures fault { IfErr result
            (λ e. e ≡ FieldKind (field_behind self.now.start.line self.now.start.byte (take i (map field_text self.now.fields.now)))) }
    {
        // A match, since the proof knows too little of a closure under a type parameter.
        match parse(self.fields[i].content()) {
            Some(x) => Ok(x),
            None => Err(self.fault(i)),
        }
    }

    // The report of a line that has as many fields as it should.
    pub(crate) fn report(&self, width: usize) -> Result<Report, LineFault>
        requires count { length self.now.fields.now ≡ width + 2 }
        requires narrow { width ≤ 6 }
        ensures { result ≡ of_columns self.now.start.line self.now.start.byte (map field_text self.now.fields.now) (columns (suc width) (map field_text self.now.fields.now)) }
    {
        let owner = self.parsed(0, number)?;
        let mut values = [0; PLACES];
        for (i, value) in values[..width].iter_mut().enumerate() {
            *value = self.parsed(i + 1, number)?;
        }
        let reading = self.parsed(width + 1, reading)?;
        Ok(Report {
            line: self.start.line,
            byte: self.start.byte,
            owner,
            values,
            reading,
        })
    }
}
