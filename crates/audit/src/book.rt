// What an auditor has seen: the records that were fed, how each was written, and the boxes that were released.
ghost use Rattle.std.specs.Prelude.{◌≡◌, [], length, OnOk};
ghost use Rattle.std.specs.Option.{option_copied};
ghost use Rattle.audit.specs.Books as books;

use crate::crowd::Crowd;
use crate::lines::line_fault;
use crate::wrong::{Breach, Wrong};
use domain::{PLACES, Range};
use release::{Line, Manner, Record, Settings};
use std::alloc::{AllocError, Global};
use std::marker::Model;

// When a line is written: as a record is fed, or as the stream closes.
#[derive(Clone, Copy)]
pub(crate) enum Moment {
    Feeding,
    Closing,
}

// A record that was accepted, and the manner in which it was written, once it is.
#[derive(Clone, Copy)]
struct Entry {
    fed: Record,
    written: Option<Manner>,
}

// A box: the position of its first release line, its ranges, and the owners whose records were released with it.
#[derive(Drop)]
struct Shown {
    first: u32,
    ranges: [Range; PLACES],
    crowd: Crowd,
}

// Entries stand by position and boxes by number, both from 1.
#[derive(Drop)]
pub(crate) struct Book {
    settings: Settings,
    width: usize,
    entries: Vec<Entry>,
    boxes: Vec<Shown>,
}

impl Model for Book {
    ghost use Rattle.audit.specs.Books.{Seen};

    ghost Value = { Seen };

    ghost view = { λ b. record { settings = b.settings; width = b.width; entries = b.entries.items; boxes = b.boxes.items } };
}

// Whether a line of that position comes too late, when so many records were accepted.
fn is_late(position: u32, delta: u32, accepted: usize, moment: Moment) -> bool
    ensures { result ≡ books.is_late position delta accepted moment }
{
    let deadline = u64::from(position) + u64::from(delta);
    match moment {
        Moment::Feeding => deadline < accepted as u64,
        Moment::Closing => deadline <= accepted as u64,
    }
}

// What stands at a place that is counted from 1.
fn at_place<T>(list: &[T], place: u32) -> Option<&T>
    ensures { option_copied result ≡ books.at_place list.now place }
{
    list.get((place as usize).checked_sub(1)?)
}

impl Shown {
    // Whether fewer owners stand behind the box than a crowd has.
    fn is_thin(&self, k: u32) -> bool
        ensures { result ≡ books.is_thin k self.now }
    {
        self.crowd.size() < k as usize
    }

    // What is wrong with a line that shows the box again.
    fn fault(&self, line: &Line, k: u32) -> Option<Wrong>
        ensures { result ≡ books.again_fault k self.now line.now }
    {
        if self.ranges != line.ranges {
            Some(Wrong::Changed)
        } else if line.manner == Manner::Reused && self.is_thin(k) {
            Some(Wrong::Crowd)
        } else {
            None
        }
    }
}

impl Book {
    pub(crate) fn new(heap: Global, settings: Settings, width: usize) -> Book
        ensures { result ≡ record { settings = settings; width = width; entries = []; boxes = [] } }
    {
        Book {
            settings,
            width,
            entries: Vec::new(heap),
            boxes: Vec::new(heap),
        }
    }

    pub(crate) fn accept(&mut self, fed: Record) -> Result<(), AllocError>
        ensures { OnOk result (self.new ≡ books.accepted fed self.old) }
    {
        self.entries.push(Entry { fed, written: None })?;
        Ok(())
    }

    // Whether a release line with that number begins the next box.
    fn is_next(&self, line: &Line) -> bool
        ensures { result ≡ books.is_next self.now line.now }
    {
        line.manner == Manner::Released && line.number as usize == self.boxes.len() + 1
    }

    // What is wrong with the box that a line shows, after what was released before.
    fn box_fault(&self, line: &Line) -> Option<Wrong>
        ensures { result ≡ books.box_fault self.now line.now }
    {
        if line.manner == Manner::Suppressed {
            return (line.number != 0).then_some(Wrong::Number);
        }
        match at_place(&self.boxes, line.number) {
            Some(shown) => shown.fault(line, self.settings.k),
            None => (!self.is_next(line)).then_some(Wrong::Number),
        }
    }

    // What is wrong with a line that comes now.
    pub(crate) fn fault(&self, line: &Line, moment: Moment) -> Option<Wrong>
        ensures { result ≡ books.fault self.now moment line.now }
    {
        let Some(entry) = at_place(&self.entries, line.position) else {
            return Some(Wrong::NotAccepted);
        };
        if entry.written.is_some() {
            Some(Wrong::Twice)
        } else if is_late(
            line.position,
            self.settings.delta,
            self.entries.len(),
            moment,
        ) {
            Some(Wrong::Late)
        } else {
            line_fault(line, &entry.fed, self.width).or_else(|| self.box_fault(line))
        }
    }

    // An owner's record was released in the box.
    fn release(&mut self, line: &Line, owner: u32) -> Result<(), AllocError>
        ensures { OnOk result (self.new ≡ books.released self.old line.now owner) }
    {
        if self.is_next(line) {
            self.boxes.push(Shown {
                first: line.position,
                ranges: line.ranges,
                crowd: Crowd::new(),
            })?;
        }
        if let Some(at) = (line.number as usize).checked_sub(1)
            && let Some(shown) = self.boxes.get_mut(at)
        {
            shown.crowd.name(owner);
        }
        Ok(())
    }

    // Enters a line in which nothing is wrong.
    pub(crate) fn enter(&mut self, line: &Line) -> Result<(), AllocError>
        ensures { OnOk result (self.new ≡ books.entered self.old line.now) }
    {
        if let Some(at) = (line.position as usize).checked_sub(1)
            && let Some(entry) = self.entries.get_mut(at)
        {
            entry.written = Some(line.manner);
            let owner = entry.fed.owner;
            if line.manner == Manner::Released {
                self.release(line, owner)?;
            }
        }
        Ok(())
    }

    pub(crate) fn boxes(&self) -> usize
        ensures { result ≡ length self.now.boxes }
    {
        self.boxes.len()
    }

    // How many records were written in that manner.
    pub(crate) fn count(&self, manner: Manner) -> usize
        ensures { result ≡ books.count manner self.now }
    {
        self.entries
            .iter()
            .filter(|entry| entry.written == Some(manner))
            .count()
    }

    // Whether the stream's counts are those of the book.
    pub(crate) fn agrees(&self, accepted: u32, suppressed: u32) -> bool
        ensures { result ≡ books.agrees self.now accepted suppressed }
    {
        self.entries.len() == accepted as usize
            && self.count(Manner::Suppressed) == suppressed as usize
    }

    // The first record that was not written.
    pub(crate) fn missing(&self) -> Option<Breach>
        ensures { result ≡ books.missing self.now }
    {
        let unwritten = self
            .entries
            .iter()
            .position(|entry| entry.written.is_none());
        unwritten.map(|at| Breach {
            position: at + 1,
            wrong: Wrong::Missing,
        })
    }

    // The first box that too few owners stand behind.
    pub(crate) fn thin(&self) -> Option<Breach>
        ensures { result ≡ books.thin self.now }
    {
        let k = self.settings.k;
        let thin = self.boxes.iter().find(|shown| shown.is_thin(k));
        thin.map(|shown| Breach {
            position: shown.first as usize,
            wrong: Wrong::Crowd,
        })
    }
}
