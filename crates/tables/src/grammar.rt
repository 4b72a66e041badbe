// The records of a table, one after another, with their fields as parts of the text.
ghost use Rattle.std.specs.Prelude.{◌≡◌, ℕ, ◌+◌, ◌-◌, ◌<◌, ◌≤◌, [], ◌∷◌, ◌++◌, length, take};
ghost use Rattle.tables.specs.Laws.{Complete, Sound as IsSound, Placed, Means, Reads, inner as inner_of};
ghost use Rattle.tables.specs.Fields.{held};
ghost use Rattle.tables.specs.Machine.{class as class_of, next as next_of};

use plant::table::Table;

// Where a record stands after the bytes so far.
#[derive(Clone, Copy)]
pub enum State {
    Start,
    Plain,
    Quoted,
    Closed,
    Return,
}

#[derive(Clone, Copy)]
pub enum Class {
    Comma,
    Quote,
    Return,
    Feed,
    Plain,
    Other,
}

// What a byte does to a record: it goes on with its field, or ends the field, both in a state; it ends the record, or is not allowed.
#[derive(Clone, Copy)]
pub enum Move {
    Take(State),
    End(State),
    Record,
    Fault,
}

// The position of a byte, or of the end, that the grammar does not allow.
#[derive(Clone, Copy)]
pub struct Fault {
    pub place: usize,
}

// One field more than any table has, so that a count past it is seen.
pub const MAX_FIELDS: usize = 6;

// The first six fields of a record as parts of the text, or all where they are fewer.
pub type Fields<'a> = Table<&'a [u8], MAX_FIELDS>;

// Holds a part where there is room for it.
fn push<'a>(fields: &mut Fields<'a>, part: &'a [u8])
    ensures { held fields.new ≡ take 6 (held fields.old ++ part.now ∷ []) }
{
    fields.push(part);
}

// What stands between the quotes of a quoted field, with each quote of its contents still doubled; a bare field as it is.
pub fn inner(part: &[u8]) -> &[u8]
    ensures { result.now ≡ inner_of part.now }
{
    match part {
        [b'"', contents @ .., _] => contents,
        _ => part,
    }
}

fn class_of(b: u8) -> Class
    ensures { result ≡ class_of b }
{
    match b {
        b',' => Class::Comma,
        b'"' => Class::Quote,
        b'\r' => Class::Return,
        b'\n' => Class::Feed,
        b' '..=b'~' => Class::Plain,
        _ => Class::Other,
    }
}

fn step(state: State, class: Class) -> Move
    ensures { result ≡ next_of state class }
{
    match (state, class) {
        (State::Quoted, Class::Quote) => Move::Take(State::Closed),
        (State::Quoted, Class::Other) => Move::Fault,
        (State::Quoted, _) => Move::Take(State::Quoted),
        (State::Start | State::Closed, Class::Quote) => Move::Take(State::Quoted),
        (State::Start | State::Plain, Class::Plain) => Move::Take(State::Plain),
        (State::Start | State::Plain | State::Closed, Class::Comma) => Move::End(State::Start),
        (State::Start | State::Plain | State::Closed, Class::Return) => Move::End(State::Return),
        (State::Return, Class::Feed) => Move::Record,
        _ => Move::Fault,
    }
}

// A table's text, read up to a position.
#[derive(Drop)]
pub struct Records<'a> {
    src: &'a [u8],
    pos: usize,
    pub ghost within: { pos ≤ length src.now },
}

impl<'a> Records<'a> {
    ghost use Rattle.tables.specs.Reads.{Begins, IsOver, Peeked, ReadsRecord};

    pub fn new(src: &'a [u8]) -> Records<'a>
        ensures { Begins src.entry result }
    {
        Records { src, pos: 0 }
    }

    pub fn is_over(&self) -> bool
        ensures { IsOver self.now result }
    {
        self.pos == self.src.len()
    }

    fn fault(&self) -> Fault
        ensures { result ≡ record { place = self.now.pos } }
    {
        Fault { place: self.pos }
    }

    fn peek(&self) -> Option<u8>
        ensures { Peeked self.now result }
    {
        self.src.get(self.pos).copied()
    }

    // The next record, with or without its line end where the text ends.
    pub fn next_record(&mut self) -> Result<Fields<'a>, Fault>
        ensures { ReadsRecord self.old self.new result }
    {
        let mut fields = Fields::new(&self.src[..0]);
        let mut from = self.pos;
        let mut state = State::Start;
        while let Some(b) = self.peek() {
            match step(state, class_of(b)) {
                Move::Take(next) => state = next,
                Move::End(next) => {
                    push(&mut fields, &self.src[from..self.pos]);
                    from = self.pos + 1;
                    state = next;
                }
                Move::Record => {
                    self.pos += 1;
                    return Ok(fields);
                }
                Move::Fault => return Err(self.fault()),
            }
            self.pos += 1;
        }
        match state {
            State::Quoted | State::Return => Err(self.fault()),
            State::Start | State::Plain | State::Closed => {
                push(&mut fields, &self.src[from..self.pos]);
                Ok(fields)
            }
        }
    }
}

// Reading and writing agree: what is written is read, what is read is written, and a fault stands at the first byte with which no
// table begins.
pub fn grammar_stands()
    ensures complete { Complete }
    ensures sound { IsSound }
    ensures placed { Placed }
    ensures means { Means }
    ensures reads { Reads }
{}
