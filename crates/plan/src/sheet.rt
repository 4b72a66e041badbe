// The printed list, and the line that tells a refusal.
ghost use Rattle.std.specs.Prelude.{length};
ghost use Rattle.plant.specs.Selections.{among};
ghost use Rattle.tables.specs.Laid.{Adds};
ghost use Rattle.plan.specs.Sheets.{figures as figures_text, row as row_text, rows as rows_text, sheet_of, refusal_line};
ghost use Rattle.plan.specs.Issues.{Printed as IsPrinted};

use crate::changes::refuse;
use crate::pick::Pick;
use plant::records::Station;
use plant::refusal::{Reason, Refusal};
use plant::selection::Selection;
use tables::write::{Printed, Writer, print_whole};

// The end of a record: hours and gain.
fn figures(to: &mut Writer, hours: u32, gain: i64)
    ensures { Adds to.old (figures_text hours gain) to.new }
{
    to.number(hours);
    to.text(",");
    to.number(gain);
    to.text("\r\n");
}

fn row(to: &mut Writer, k: usize, s: &Station)
    ensures { Adds to.old (row_text k s.now) to.new }
{
    to.number(k);
    to.text(",");
    figures(to, s.hours, s.gain);
}

fn rows(to: &mut Writer, stations: &[Station], selection: &Selection)
    ensures { Adds to.old (rows_text stations.now (among selection.now) (length stations.now)) to.new }
{
    for (k, station) in stations.iter().enumerate() {
        if selection.has(k) {
            row(to, k, station);
        }
    }
}

impl Printed for Pick<'_> {
    ghost bytes = { sheet_of };

    fn print(&self, to: &mut Writer) {
        to.text("station,hours,gain\r\n");
        rows(to, self.plan().stations(), &self.selection());
        to.text("total,");
        figures(to, self.hours(), self.gain());
    }
}

// Longer than the line of any refusal.
pub const LINE_BYTES: usize = 64;

// A refusal as it is printed: a type of this crate, which may take a trait of another.
#[derive(Clone, Copy)]
struct Told<'a>(&'a Refusal);

impl Printed for Told<'_> {
    ghost bytes = { λ t. refusal_line t.0.now };

    fn print(&self, to: &mut Writer) {
        let Told(refusal) = self;
        to.text("refused,");
        to.number(refusal.reason.number());
        to.text(",");
        to.number(refusal.part.number());
        to.text(",");
        to.number(refusal.place);
        to.text("\r\n");
    }
}

fn printed<P: Printed>(p: &P, out: &mut [u8]) -> Result<usize, Refusal>
    ensures { IsPrinted (P.Printed.bytes p.now) out.old out.new result }
{
    print_whole(p, out).map_err(|need| refuse(Reason::MemoryTooShort, need))
}

impl Pick<'_> {
    // Writes the list, and gives its length.
    pub fn sheet(&self, out: &mut [u8]) -> Result<usize, Refusal>
        ensures { IsPrinted (sheet_of self.now) out.old out.new result }
    {
        printed(self, out)
    }
}

// Writes a refusal's line, and gives its length.
pub fn refusal_line(refusal: &Refusal, out: &mut [u8]) -> Result<usize, Refusal>
    ensures { IsPrinted (refusal_line refusal.now) out.old out.new result }
{
    printed(&Told(refusal), out)
}
