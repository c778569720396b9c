ghost use Rattle.std.specs.Prelude.{◌≡◌, fold};
ghost use Rattle.workload.specs.Checksums.{basis, mixed, ends, words};

use domain::Range;
use release::Line;

// A checksum over words of 32 bits, in their order.
#[derive(Clone, Copy)]
pub struct Checksum {
    h: u64,
}

impl Checksum {
    pub fn new() -> Checksum
        ensures { result.h ≡ basis }
    {
        Checksum {
            h: 0xcbf2_9ce4_8422_2325,
        }
    }

    pub fn word(&mut self, w: u32)
        ensures { self.new.h ≡ mixed self.old.h w }
    {
        self.h = (self.h ^ u64::from(w)).wrapping_mul(0x100_0000_01b3);
    }

    fn ranges(&mut self, ranges: &[Range])
        ensures { self.new.h ≡ fold mixed self.old.h (ends ranges.now) }
    {
        for range in ranges {
            self.word(range.low);
            self.word(range.high);
        }
    }

    // Takes in the sixteen words of a line.
    pub fn line(&mut self, line: &Line)
        ensures { self.new.h ≡ fold mixed self.old.h (words line.now) }
    {
        self.word(line.position);
        self.word(line.reading.cast_unsigned());
        self.word(line.manner.number());
        self.word(line.number);
        self.ranges(&line.ranges);
    }

    pub fn value(&self) -> u64
        ensures { result ≡ self.now.h }
    {
        self.h
    }
}

impl Default for Checksum {
    ghost is_default = { λ c. c.h ≡ basis };

    fn default() -> Checksum {
        Checksum::new()
    }
}
