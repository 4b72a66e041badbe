// A text that is not too long to be read.
ghost use Rattle.std.specs.Prelude.{◌≡◌, ◌<◌, ◌≤◌, length, MatchOption};

use plant::limits::MAX_TEXT;

#[derive(Clone, Copy)]
pub struct Text<'a> {
    pub bytes: &'a [u8],
    pub ghost short: { length bytes.now ≤ 65535 },
}

impl<'a> Text<'a> {
    // The text of these bytes, unless they are too many.
    pub fn new(bytes: &'a [u8]) -> Option<Text<'a>>
        ensures { MatchOption result (65535 < length bytes.now) (λ t. t.bytes ≡ bytes.entry) }
    {
        if bytes.len() > MAX_TEXT {
            return None;
        }
        Some(Text { bytes })
    }
}
