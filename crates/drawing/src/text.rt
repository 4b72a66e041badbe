// The tree's text, read in place.
ghost use Rattle.std.specs.Prelude.{◌≤◌, length};

use crate::mark::{Mark, mark_of};
use plant::limits::MAX_LINES;
use plant::refusal::{Part, Reason, Refusal};
use plant::tree::Join;

#[derive(Drop)]
pub struct Text<'a> {
    pub src: &'a [u8],
    pub pos: usize,
    pub ghost within: { pos ≤ length src.now },
    pub ghost short: { length src.now ≤ 65535 },
}

impl<'a> Text<'a> {
    ghost use Rattle.std.specs.Prelude.{◌≡◌, ◌+◌, ◌<◌, Ok};
    ghost use Rattle.drawing.specs.Marks.{Fair};
    ghost use Rattle.drawing.specs.Grammar.{lit, letter as letterIn, stop, number as number_in, digits as digitsIn, after_zero as zeroIn};
    ghost use Rattle.drawing.specs.Reads.{Peeked, PeekedDigit, Reads, capped};
    ghost use Rattle.plant.specs.declared.refusal.Reason.TheVariants.{TreeGrammar};
    ghost use Rattle.plant.specs.declared.refusal.Part.TheVariants as P;

    // The refusal of the next byte, or of the end.
    pub fn fault(&self) -> Refusal
        ensures { result ≡ record { reason = TreeGrammar; part = P.Tree; place = self.now.pos } }
    {
        Part::Tree.refusal(Reason::TreeGrammar, self.pos as u32)
    }

    // The next character; nothing at the end, or where the byte is no character of a tree's text.
    pub fn peek(&self) -> Option<Mark>
        ensures { Peeked self.now result }
    {
        self.src.get(self.pos).and_then(|b| mark_of(*b))
    }

    fn digit(&self) -> Option<u8>
        ensures { PeekedDigit self.now result }
    {
        match self.peek() {
            Some(Mark::Digit(d)) => Some(d),
            _ => None,
        }
    }

    // Passes a byte.
    pub fn bump(&mut self)
        requires { self.old.pos < length self.old.src.now }
        ensures src { self.new.src ≡ self.old.src }
        ensures pos { self.new.pos ≡ self.old.pos + 1 }
    {
        self.pos += 1;
    }

    // Takes the character, or refuses.
    pub fn expect(&mut self, mark: Mark) -> Result<(), Refusal>
        requires { Fair mark }
        ensures { Reads (lit mark) self.old self.new result }
    {
        if self.peek() != Some(mark) {
            return Err(self.fault());
        }
        self.pos += 1;
        Ok(())
    }

    pub fn letter(&mut self) -> Result<Join, Refusal>
        ensures { Reads letterIn self.old self.new result }
    {
        let Some(Mark::Letter(join)) = self.peek() else {
            return Err(self.fault());
        };
        self.pos += 1;
        Ok(join)
    }

    // The digits after the number so far. A number past every line is read as MAX_LINES.
    fn digits(&mut self, first: usize) -> usize
        requires { first ≤ 128 }
        ensures { Reads (λ s. capped (digitsIn first s)) self.old self.new (Ok result) }
    {
        let mut n = first;
        while let Some(d) = self.digit() {
            n = (n * 10 + d as usize).min(MAX_LINES);
            self.pos += 1;
        }
        n
    }

    // What follows a zero that begins a number: no digit.
    fn after_zero(&self) -> Result<usize, Refusal>
        ensures { Reads (λ s. capped (zeroIn s)) self.now self.now result }
    {
        match self.digit() {
            Some(_) => Err(self.fault()),
            None => Ok(0),
        }
    }

    pub fn number(&mut self) -> Result<usize, Refusal>
        ensures { Reads (λ s. capped (number_in s)) self.old self.new result }
    {
        let Some(first) = self.digit() else {
            return Err(self.fault());
        };
        self.pos += 1;
        if first == 0 {
            return self.after_zero();
        }
        Ok(self.digits(first as usize))
    }

    pub fn end(&self) -> Result<(), Refusal>
        ensures { Reads stop self.now self.now result }
    {
        if self.pos < self.src.len() {
            return Err(self.fault());
        }
        Ok(())
    }
}
