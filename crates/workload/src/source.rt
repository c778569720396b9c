// A source of numbers that looks like chance and is the same each time, and the records drawn from it.
ghost use Rattle.std.specs.Prelude.{◌≡◌, ℕ, ◌+◌, ◌<◌, ◌≤◌, min, [], ◌∷◌, length};
ghost use Rattle.workload.specs.Draws.{seed, next, part, ahead, drawn};
ghost use Rattle.workload.specs.Records.{owner_of, reading_of, Values, Drawn, phased_place, phased_draws, Phased, Made, draws_of};

use release::Record;
use std::fmt;

// What is drawn: records of two attributes, of six, or of two that crowd at few places, with long phases of one owner.
#[derive(Clone, Copy)]
pub enum Workload {
    Even,
    Wide,
    Phased,
}

impl fmt::Display for Workload {
    fn fmt<W: fmt::Write>(&self, f: &mut fmt::Formatter<W>) -> fmt::Result {
        match self {
            Workload::Even => write!(f, "even"),
            Workload::Wide => write!(f, "wide"),
            Workload::Phased => write!(f, "phased"),
        }
    }
}

#[derive(Clone, Copy)]
pub struct Source {
    x: u64,
}

impl Source {
    pub fn new() -> Source
        ensures { result.x ≡ seed }
    {
        Source {
            x: 0x9e37_79b9_7f4a_7c15,
        }
    }

    // Moves the source on.
    fn turn(&mut self)
        ensures { self.new.x ≡ next self.old.x }
    {
        let mut x = self.x;
        x ^= x << 13;
        x ^= x >> 7;
        x ^= x << 17;
        self.x = x;
    }

    // The next number below `n`; 0 where `n` is 0.
    pub fn below(&mut self, n: u32) -> u32
        ensures value { result ≡ drawn self.old.x 1 n }
        ensures bound { 0 < n → result < n }
        ensures source { self.new.x ≡ ahead 1 self.old.x }
    {
        self.turn();
        // Below `n`, so the cast loses nothing.
        ((self.x >> 32) * u64::from(n) >> 32) as u32
    }

    fn owner(&mut self) -> u32
        ensures value { result ≡ owner_of (drawn self.old.x 1 200) }
        ensures source { self.new.x ≡ ahead 1 self.old.x }
    {
        1 + self.below(200)
    }

    fn reading(&mut self) -> i32
        ensures value { result ≡ reading_of (drawn self.old.x 1 20001) }
        ensures source { self.new.x ≡ ahead 1 self.old.x }
    {
        // At most 20,000, so the cast loses nothing.
        self.below(20_001) as i32 - 10_000
    }

    // A value below each size, in order; 0 behind them.
    fn values(&mut self, sizes: &[u32]) -> [u32; 6]
        ensures value { Values self.old.x sizes.now result }
        ensures source { self.new.x ≡ ahead (min (length sizes.now) 6) self.old.x }
    {
        let mut values = [0; 6];
        // By index, since a proof knows nothing of what is written through a zip.
        for i in 0..sizes.len().min(6) {
            values[i] = self.below(sizes[i]);
        }
        values
    }

    fn record(&mut self, sizes: &[u32]) -> Record
        ensures value { Drawn self.old.x sizes.now result }
        ensures source { self.new.x ≡ ahead (min (length sizes.now) 6 + 2) self.old.x }
    {
        let owner = self.owner();
        let values = self.values(sizes);
        let reading = self.reading();
        Record {
            owner,
            values,
            reading,
        }
    }

    // Most records stand at one of five places, and the others anywhere.
    fn place(&mut self) -> [u32; 6]
        ensures value { result ≡ phased_place self.old.x }
        ensures source { self.new.x ≡ ahead (phased_draws self.old.x) self.old.x }
    {
        if self.below(8) < 7 {
            [20 * self.below(5), 2, 0, 0, 0, 0]
        } else {
            [self.below(101), self.below(8), 0, 0, 0, 0]
        }
    }

    // The owner of every second 512 records is 1.
    fn phased(&mut self, p: u32) -> Record
        ensures value { Phased p self.old.x result }
        ensures source { self.new.x ≡ ahead (draws_of Workload.Phased self.old.x) self.old.x }
    {
        let drawn = self.owner();
        let values = self.place();
        let reading = self.reading();
        let owner = if p / 512 % 2 == 1 { 1 } else { drawn };
        Record {
            owner,
            values,
            reading,
        }
    }

    // The record of the workload behind the first `p` ones.
    pub fn draw(&mut self, workload: Workload, p: u32) -> Record
        ensures value { Made workload p self.old.x result }
        ensures source { self.new.x ≡ ahead (draws_of workload self.old.x) self.old.x }
    {
        match workload {
            Workload::Even => self.record(&[101, 8]),
            Workload::Wide => self.record(&[1001; 6]),
            Workload::Phased => self.phased(p),
        }
    }
}

impl Default for Source {
    ghost is_default = { λ s. s.x ≡ seed };

    fn default() -> Source {
        Source::new()
    }
}
