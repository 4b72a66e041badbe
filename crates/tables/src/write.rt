// Text printed into lent memory.
ghost use Rattle.std.specs.Prelude.{◌≡◌, ℕ, ◌^◌, ◌<◌, ◌≤◌, List, length};
ghost use Rattle.tables.specs.Laid.{laid, Adds, Whole};

use itoa::{Buffer, Integer};

// Lays bytes into memory from a place on, as far as they fit. Past its end, as where nothing but the need is counted, there is nothing to do.
fn lay(out: &mut [u8], at: usize, bytes: &[u8])
    ensures { out.new ≡ laid out.old at bytes.now }
{
    if at >= out.len() {
        return;
    }
    let fit = bytes.len().min(out.len() - at);
    out[at..at + fit].copy_from_slice(&bytes[..fit]);
}

// Lays text into lent memory from its start on. What does not fit is not written, but counts: so a first writing into no memory tells
// how much is needed.
#[derive(Drop)]
pub struct Writer<'a> {
    out: &'a mut [u8],
    // The place after what was written.
    pub at: usize,
}

impl<'a> Writer<'a> {
    pub fn new(out: &'a mut [u8]) -> Writer<'a>
        ensures same_reference { result.out.ghost_name ≡ out.entry.ghost_name }
        ensures memory { result.out.now ≡ out.old }
        ensures place { result.at ≡ 0 }
    {
        Writer { out, at: 0 }
    }

    pub fn text(&mut self, s: &str)
        ensures { Adds self.old s.now self.new }
    {
        let bytes = s.as_bytes();
        lay(self.out, self.at, bytes);
        self.at = self.at.saturating_add(bytes.len());
    }

    // A number of any type, as `{}` prints it.
    pub fn number<I: Integer>(&mut self, n: I)
        ensures adds { Adds self.old (I.Integer.text n) self.new }
        ensures short { length (I.Integer.text n) ≤ I.Integer.MAX_STR_LEN }
    {
        let mut digits = Buffer::new();
        self.text(digits.format(n));
    }
}

// What is printed whole or not at all. No `Display`: by its contract a `write!` may fail where its writer does not.
pub trait Printed {
    ghost bytes: { Self → List ℕ };

    fn print(&self, to: &mut Writer)
        ensures adds { Adds to.old (bytes self.now) to.new }
        ensures short { length (bytes self.now) < 2 ^ 32 };
}

// Prints into memory that is long enough, and leaves what is beyond the text; else gives the length that is needed.
pub fn print_whole<P: Printed>(p: &P, out: &mut [u8]) -> Result<usize, u32>
    ensures { Whole (P.Printed.bytes p.now) out.old out.new result }
{
    let mut count = Writer::new(&mut []);
    p.print(&mut count);
    let need = count.at;
    if out.len() < need {
        return Err(need as u32);
    }
    p.print(&mut Writer::new(out));
    Ok(need)
}
