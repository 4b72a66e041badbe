// Reads the text of a plant's tree, checks every join, and hands out the nodes in the order in which their text is completed.
#![tactic(auto)]

ghost use Rattle.std.specs.Prelude.{◌≡◌, ℕ, ◌<◌, ◌≤◌, length};
ghost use Rattle.drawing.specs.Verdict.{Joins, Answers, AcceptedWhenWritten, RefusedAtFirstFault};

mod half;
mod mark;
mod reader;
mod sketch;
mod text;

use half::Half;
use plant::limits::{MAX_NODES, STACK_ENTRIES};
use plant::records::Line;
use plant::refusal::Refusal;
use plant::stack::Stack;
use plant::table::Table;
use plant::tree::Node;
use reader::Reader;
use sketch::Sketch;
use text::Text;

// The nodes of the tree that the text draws, for a plant of so many stations and these lines. Bytes, as the reader's own type of a text
// holds the limit.
pub fn read(text: &[u8], stations: usize, lines: &[Line]) -> Result<Table<Node, MAX_NODES>, Refusal>
    requires text { length text.now ≤ 65535 }
    requires stations { stations ≤ 64 }
    requires lines { length lines.now ≤ 128 }
    requires joins { Joins stations lines.now }
    ensures { Answers stations lines.now text.now result }
{
    let mut waiting = [Half::default(); STACK_ENTRIES];
    let halves = Stack::new(&mut waiting);
    let sketch = Sketch::new(lines, halves);
    let text = Text { src: text, pos: 0 };
    let mut reader = Reader { text, sketch };
    reader.whole(stations)?;
    Ok(reader.sketch.nodes)
}

// A text is accepted exactly when it is the writing of a tree that draws the plant, and there is one such tree.
pub fn accepted_when_written()
    ensures { AcceptedWhenWritten }
{}

// A text is refused for a reason at a place exactly when its first fault is that one, with everything before it in order.
pub fn refused_at_first_fault()
    ensures { RefusedAtFirstFault }
{}

#[cfg(test)]
mod tests;
