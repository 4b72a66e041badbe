// Subtrees and pairs, read and built in the order of their text.
ghost use Rattle.std.specs.Prelude.{◌≡◌, ℕ, ◌+◌, ◌-◌, ◌*◌, ◌<◌, ◌≤◌, length};
ghost use Rattle.plant.specs.Held.{room};
ghost use Rattle.drawing.specs.Grammar.{stop, leaf_line, subtree as subtreeIn, pair as pairIn};
ghost use Rattle.drawing.specs.Reads.{Peeked, Reads};
ghost use Rattle.drawing.specs.Sketches.{waiting, Blank};
ghost use Rattle.drawing.specs.Readings.{ReadsTree, ReadsWhole};

use crate::mark::Mark;
use crate::sketch::Sketch;
use crate::text::Text;
use plant::limits::MAX_BRACKETS;
use plant::refusal::{Part, Reason, Refusal};

#[derive(Drop)]
pub struct Reader<'s, 'l, 'h> {
    pub text: Text<'s>,
    pub sketch: Sketch<'l, 'h>,
}

impl<'s, 'l, 'h> Reader<'s, 'l, 'h> {
    // `self.text` is lent for reading here alone: in a method that has `&mut self`, the borrow checker has no rule for it.
    fn peek(&self) -> Option<Mark>
        ensures { Peeked self.now.text result }
    {
        self.text.peek()
    }

    fn end(&self) -> Result<(), Refusal>
        ensures { Reads stop self.now.text self.now.text result }
    {
        self.text.end()
    }

    // A leaf: the number of a line that no leaf before it has named. How many halves may wait depends on the brackets around, so the
    // type cannot say it.
    fn leaf(&mut self) -> Result<(), Refusal>
        requires room { length (waiting self.old.sketch) < room self.old.sketch.halves }
        ensures { ReadsTree (λ _ m. leaf_line m) self.old self.new result }
    {
        let start = self.text.pos;
        let line = self.text.number()?;
        self.sketch
            .leaf(line)
            .map_err(|reason| Part::Tree.refusal(reason, start as u32))
    }

    // A subtree in which at most `deep` brackets stand open at once.
    #[cycle(pair_subtree)]
    fn subtree(&mut self, deep: usize) -> Result<(), Refusal>
        requires room { length (waiting self.old.sketch) + deep < room self.old.sketch.halves }
        ensures { ReadsTree (subtreeIn deep) self.old self.new result }
    {
        match self.peek() {
            Some(Mark::Open) => {
                if deep == 0 {
                    return Err(Part::Tree.refusal(Reason::TooDeep, self.text.pos as u32));
                }
                self.text.bump();
                self.pair(deep - 1)
            }
            _ => self.leaf(),
        }
    }

    // What follows an opening bracket: two subtrees with a comma between, a closing bracket, and the letter of the join.
    #[cycle(pair_subtree)]
    fn pair(&mut self, deep: usize) -> Result<(), Refusal>
        requires room { length (waiting self.old.sketch) + deep + 1 < room self.old.sketch.halves }
        ensures { ReadsTree (pairIn deep) self.old self.new result }
    {
        self.subtree(deep)?;
        self.text.expect(Mark::Comma)?;
        self.subtree(deep)?;
        self.text.expect(Mark::Close)?;
        let at = self.text.pos;
        let join = self.text.letter()?;
        self.sketch
            .join(join)
            .map_err(|reason| Part::Tree.refusal(reason, at as u32))
    }

    // A whole text: a subtree, a semicolon and the end; and then the plant of so many stations.
    pub fn whole(&mut self, stations: usize) -> Result<(), Refusal>
        requires blank { Blank self.old.sketch }
        requires stations { stations ≤ 64 }
        ensures { ReadsWhole 127 stations self.old self.new result }
    {
        self.subtree(MAX_BRACKETS)?;
        self.text.expect(Mark::Semicolon)?;
        self.end()?;
        let end = self.text.pos;
        self.sketch
            .finish(stations)
            .map_err(|reason| Part::Tree.refusal(reason, end as u32))
    }
}
