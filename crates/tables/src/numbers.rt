// Numbers of any length, as the fields of a table write them.
ghost use Rattle.std.specs.Prelude.{◌≡◌, ℕ, ◌+◌, ◌-◌, ◌*◌, ◌<◌, ◌≤◌};
ghost use Rattle.tables.specs.Numerals.{digits as digitsFrom, numeral, capped, signed_by, Spelled};

// One past the largest number in any range: every number from it on is read as this one.
const PAST: u32 = 1_000_000_001;

// The digits as a number, or PAST if it is more.
fn digits(text: &[u8]) -> Option<u32>
    ensures { result ≡ capped (digitsFrom 0 text.now) }
{
    let mut n = 0u32;
    for b in text {
        let digit = char::from(*b).to_digit(10)?;
        n = n.saturating_mul(10).saturating_add(digit).min(PAST);
    }
    Some(n)
}

// The number that the text is the decimal digits of, without a leading zero, or PAST if it is more.
pub fn natural(text: &[u8]) -> Option<u32>
    ensures { result ≡ capped (numeral text.now) }
{
    match text {
        [] | [b'0', _, ..] => None,
        _ => digits(text),
    }
}

// The same with a minus before a number below zero.
pub fn integer(text: &[u8]) -> Option<i64>
    ensures { result ≡ signed_by (λ s. capped (numeral s)) text.now }
{
    match text {
        [b'-', rest @ ..] => natural(rest).filter(|n| *n > 0).map(|n| -i64::from(n)),
        _ => natural(text).map(i64::from),
    }
}

// A text is read as a number exactly where it is that number's decimal digits.
pub fn numerals_stand()
    ensures { Spelled }
{}
