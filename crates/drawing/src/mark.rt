// The characters of a tree's text.
ghost use Rattle.std.specs.Prelude.{◌≡◌};
ghost use Rattle.drawing.specs.Marks.{mark_of};

use plant::tree::Join;

#[derive(Clone, Copy, PartialEq, Eq)]
pub enum Mark {
    Open,
    Comma,
    Close,
    Semicolon,
    Digit(u8),
    Letter(Join),
}

// What a byte stands for; nothing where no tree's text has it. No `TryFrom`: its error would have nothing to say.
pub fn mark_of(b: u8) -> Option<Mark>
    ensures { result ≡ mark_of b }
{
    match b as char {
        '(' => Some(Mark::Open),
        ',' => Some(Mark::Comma),
        ')' => Some(Mark::Close),
        ';' => Some(Mark::Semicolon),
        '0'..='9' => Some(Mark::Digit(b - b'0')),
        's' => Some(Mark::Letter(Join::Series)),
        'p' => Some(Mark::Letter(Join::Parallel)),
        _ => None,
    }
}
