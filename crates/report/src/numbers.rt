// The numbers of a report line.
ghost use Rattle.std.specs.Prelude.{◌≡◌};
ghost use Rattle.report.specs.Numbers.{digits_of, number_of, as_positive, reading_of};

// The number that 1 to 10 digits write.
fn digits(text: &[u8]) -> Option<i64>
    ensures { result ≡ as_positive (digits_of text.now) }
{
    if !(1..=10).contains(&text.len()) {
        return None;
    }
    // By a loop, since only the digits before it show that a number fits.
    let mut value = 0;
    for b in text {
        if !b.is_ascii_digit() {
            return None;
        }
        value = value * 10 + i64::from(*b - b'0');
    }
    Some(value)
}

// An owner or a value.
pub(crate) fn number(text: &[u8]) -> Option<u32>
    ensures { result ≡ number_of text.now }
{
    u32::try_from(digits(text)?).ok()
}

pub(crate) fn reading(text: &[u8]) -> Option<i32>
    ensures { result ≡ reading_of text.now }
{
    let n = match text {
        [b'-', tail @ ..] => -digits(tail)?,
        _ => digits(text)?,
    };
    i32::try_from(n).ok()
}
