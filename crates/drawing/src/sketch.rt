// The tree as far as its text is read: the lines named, the nodes complete, and the halves that wait.
ghost use Rattle.std.specs.Prelude.{◌≡◌, ◌+◌, ◌*◌, ◌≤◌, length};
ghost use Rattle.plant.specs.Held.{held};
ghost use Rattle.plant.specs.Tables.{listed};
ghost use Rattle.drawing.specs.Halves.{tally};

use crate::half::{Half, all_marked, two_stations, union};
use plant::limits::{MAX_LINES, MAX_NODES};
use plant::records::Line;
use plant::refusal::Reason;
use plant::stack::Stack;
use plant::table::Table;
use plant::tree::{Join, Node, Shape};

// Each line named brings a node and a half, and each join one node more for one half less.
#[derive(Drop)]
pub struct Sketch<'l, 'h> {
    pub lines: &'l [Line],
    pub named: [bool; MAX_LINES],
    pub nodes: Table<Node, MAX_NODES>,
    pub halves: Stack<'h, Half>,
    pub ghost few: { length lines.now ≤ 128 },
    pub ghost wide: { length named ≡ 128 },
    pub ghost counted: { length (listed nodes) + length (held halves) ≤ 2 * tally named },
}

impl<'l, 'h> Sketch<'l, 'h> {
    ghost use Rattle.std.specs.Prelude.{◌<◌, []};
    ghost use Rattle.plant.specs.Held.{room};
    ghost use Rattle.drawing.specs.Sketches.{done, waiting, free, Grown, Leafed, Joined, Finished, Blank};

    // Nothing is read yet.
    pub fn new(lines: &'l [Line], halves: Stack<'h, Half>) -> Sketch<'l, 'h>
        requires few { length lines.now ≤ 128 }
        requires empty { held halves ≡ [] }
        requires room { room halves ≡ 128 }
        ensures blank { Blank result }
        ensures lines { result.lines.now ≡ lines.now }
    {
        Sketch {
            lines,
            named: [false; MAX_LINES],
            nodes: Table::new(Node::default()),
            halves,
        }
    }

    // Whether the number is that of a line, and no leaf has named it yet.
    fn is_free(&self, line: usize) -> bool
        ensures { result ≡ free self.now line }
    {
        line < self.lines.len() && !self.named[line]
    }

    // Adds a node, and its half on top of those that wait. There is room for both, so neither push can fail.
    fn put(&mut self, shape: Shape, half: Half)
        requires spare { done self.old + length (waiting self.old) + 2 ≤ 2 * tally self.old.named }
        requires room { length (waiting self.old) < room self.old.halves }
        ensures { Grown shape half (waiting self.old) self.old self.new }
    {
        let node = Node {
            shape,
            left: half.left,
            right: half.right,
        };
        let _ = self.nodes.push(node);
        let _ = self.halves.push(half);
    }

    // Adds a leaf.
    pub fn leaf(&mut self, line: usize) -> Result<(), Reason>
        requires { length (waiting self.old) < room self.old.halves }
        ensures { Leafed line self.old self.new result }
    {
        if !self.is_free(line) {
            return Err(Reason::LeafNumber);
        }
        self.named[line] = true;
        let ends = self.lines[line];
        let half = Half {
            node: self.nodes.count,
            left: ends.from,
            right: ends.to,
            stations: two_stations(ends.from, ends.to),
        };
        self.put(Shape::Leaf(line), half);
        Ok(())
    }

    // Joins the two halves on top.
    pub fn join(&mut self, join: Join) -> Result<(), Reason>
        requires { 2 ≤ length (waiting self.old) }
        ensures { Joined join self.old self.new result }
    {
        let second = self.halves.pop().unwrap();
        let first = self.halves.pop().unwrap();
        if !first.meets(join, &second) {
            return Err(Reason::HalvesApart);
        }
        let half = Half {
            node: self.nodes.count,
            left: first.left,
            right: second.right,
            stations: union(&first.stations, &second.stations),
        };
        self.put(Shape::Join(join, first.node, second.node), half);
        Ok(())
    }

    // Takes the half on top: every line has to be named, and the half the piece of all the stations, from the first to the last.
    pub fn finish(&mut self, stations: usize) -> Result<(), Reason>
        requires { 1 ≤ length (waiting self.old) }
        ensures whole { Finished stations self.old result }
        ensures nodes { self.new.nodes ≡ self.old.nodes }
    {
        let root = self.halves.pop().unwrap();
        let lines = self.lines.len();
        if !all_marked(&self.named, lines) || !root.spans(stations) {
            return Err(Reason::NotThePlant);
        }
        Ok(())
    }
}
