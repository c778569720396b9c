// Numbers in digits, put into a text area. Backwards, since the digits of a number are known from the last on: each
// byte is written once.
ghost use Rattle.std.specs.Prelude.{◌≡◌, ◌+◌, ◌<◌, ◌≤◌, ◌∷◌, ◌++◌, length, drop, decimal};
ghost use Rattle.std.specs.Fmt.{signed_decimal};

use itoa::write_digits;

// Puts a byte so that it ends at the place `end`, and answers where it starts.
pub(crate) fn put_byte(area: &mut [u8], end: usize, b: u8) -> usize
    requires { (0 < end) × (end ≤ length area.old) }
    ensures start { result + 1 ≡ end }
    ensures written { drop result area.new ≡ b ∷ drop end area.old }
{
    area[end - 1] = b;
    end - 1
}

// The number of digits of `n`, four at a time, since a division takes longer than a few tests.
pub(crate) fn digit_count(n: u32) -> usize
    ensures value { result ≡ length (decimal n) }
    ensures bound { result ≤ 10 }
{
    match n {
        0..=9 => 1,
        10..=99 => 2,
        100..=999 => 3,
        1_000..=9_999 => 4,
        _ => digit_count(n / 10_000) + 4,
    }
}

// Puts the digits of `n`, the last one before `end`, and answers where they start.
pub(crate) fn put_number(area: &mut [u8], end: usize, n: u32) -> usize
    requires { (length (decimal n) ≤ end) × (end ≤ length area.old) }
    ensures start { result + length (decimal n) ≡ end }
    ensures written { drop result area.new ≡ decimal n ++ drop end area.old }
{
    write_digits(u64::from(n), area, end)
}

// The size of a reading: its digits, and a minus where it is below 0.
pub(crate) fn reading_size(n: i32) -> usize
    ensures value { result ≡ length (signed_decimal n) }
    ensures bound { result ≤ 11 }
{
    if n < 0 {
        digit_count(n.unsigned_abs()) + 1
    } else {
        digit_count(n.unsigned_abs())
    }
}

// Puts a reading so that it ends at `end`, and answers where it starts.
pub(crate) fn put_reading(area: &mut [u8], end: usize, n: i32) -> usize
    requires { (length (signed_decimal n) ≤ end) × (end ≤ length area.old) }
    ensures start { result + length (signed_decimal n) ≡ end }
    ensures written { drop result area.new ≡ signed_decimal n ++ drop end area.old }
{
    let digits = put_number(area, end, n.unsigned_abs());
    if n < 0 {
        return put_byte(area, digits, b'-');
    }
    digits
}
