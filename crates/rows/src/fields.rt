// What the fields of a record stand for.
ghost use Rattle.std.specs.Prelude.{◌≡◌, true};
ghost use Rattle.std.specs.Str.{bytes_eq};
ghost use Rattle.tables.specs.Laws.{meaning};
ghost use Rattle.tables.specs.Numerals.{signed_by};
ghost use Rattle.rows.specs.Fields.{clean, cap, limited, limitedℤ, marked, hold_from};

use plant::limits::{MAX_GAIN, MAX_HOURS};
use plant::records::Hold;
use tables::grammar::inner;
use tables::numbers::{integer, natural};

// Whether a field's contents are this word, which has no quote.
pub(crate) fn is(part: &[u8], word: &str) -> bool
    requires { clean word.now ≡ true }
    ensures { result ≡ bytes_eq (meaning part.now) word.now }
{
    inner(part) == word.as_bytes()
}

pub(crate) fn number(part: &[u8]) -> Option<u32>
    ensures { result ≡ cap (meaning part.now) }
{
    natural(inner(part))
}

fn signed_number(part: &[u8]) -> Option<i64>
    ensures { result ≡ signed_by cap (meaning part.now) }
{
    integer(inner(part))
}

pub(crate) fn hours_of(part: &[u8]) -> Option<u32>
    ensures { result ≡ limited 1000 (cap (meaning part.now)) }
{
    number(part).filter(|n| *n <= MAX_HOURS)
}

pub(crate) fn gain_of(part: &[u8]) -> Option<i64>
    ensures { result ≡ limitedℤ (signed_by cap (meaning part.now)) }
{
    signed_number(part).filter(|n| -MAX_GAIN <= *n && *n <= MAX_GAIN)
}

pub(crate) fn mark_of(part: &[u8]) -> Option<bool>
    ensures { result ≡ marked (cap (meaning part.now)) }
{
    match number(part) {
        Some(0) => Some(false),
        Some(1) => Some(true),
        _ => None,
    }
}

pub(crate) fn hold_of(part: &[u8]) -> Option<Hold>
    ensures { result ≡ hold_from (meaning part.now) }
{
    match inner(part) {
        b"free" => Some(Hold::Free),
        b"open" => Some(Hold::Open),
        b"shut" => Some(Hold::Shut),
        _ => None,
    }
}
