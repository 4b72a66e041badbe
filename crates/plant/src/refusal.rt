// Why a call is refused.
ghost use Rattle.std.specs.Prelude.{◌≡◌};
ghost use Rattle.plant.specs.Refusals.{number as number_of, part_number as partNumber};

use std::error::Error;
use std::fmt;

// The discriminant is the number of the refusal.
#[derive(Clone, Copy, PartialEq, Eq, Debug)]
pub enum Reason {
    TextTooLong = 1,
    MemoryTooShort = 2,
    TableGrammar = 3,
    FieldCount = 4,
    FieldForm = 5,
    RowNumber = 6,
    RowCount = 7,
    LineEnds = 8,
    TreeGrammar = 9,
    TooDeep = 10,
    LeafNumber = 11,
    HalvesApart = 12,
    NotThePlant = 13,
    Blank = 14,
    NoSuchRecord = 15,
    OutOfRange = 16,
    NothingFits = 17,
    NotOpen = 18,
}

// What the place of a refusal counts in.
#[derive(Clone, Copy, PartialEq, Eq, Debug)]
pub enum Part {
    Stations = 0,
    Lines = 1,
    Tree = 2,
    Call = 3,
}

#[derive(Clone, Copy, PartialEq, Eq, Debug)]
pub struct Refusal {
    pub reason: Reason,
    pub part: Part,
    pub place: u32,
}

impl Reason {
    pub fn number(self) -> u8
        ensures { result ≡ number_of self }
    {
        self as u8
    }

    // What is wrong.
    fn fault(self) -> &'static str {
        match self {
            Reason::TextTooLong => "the text is too long",
            Reason::MemoryTooShort => "there is too little memory",
            Reason::TableGrammar => "the text does not follow RFC 4180",
            Reason::FieldCount => "the header differs, or the count of fields is wrong",
            Reason::FieldForm => "a field is not written as it should be, or is out of range",
            Reason::RowNumber => "the first field is not the row's number",
            Reason::RowCount => "there are too few rows, or too many",
            Reason::LineEnds => "an end names no station, or both ends are one",
            Reason::TreeGrammar => "this is not how a tree is written",
            Reason::TooDeep => "more than 127 brackets stand open",
            Reason::LeafNumber => "the number names no line, or a line that was named before",
            Reason::HalvesApart => "the halves do not meet as the join asks",
            Reason::NotThePlant => "a line or a station is missing, or the ends are wrong",
            Reason::Blank => "the plan is blank",
            Reason::NoSuchRecord => "there is no such station or line",
            Reason::OutOfRange => "a value is out of range",
            Reason::NothingFits => "no list fits the hours and the holds",
            Reason::NotOpen => "the station is not on the list, or is ticked already",
        }
    }

    // What the place counts, where it says anything.
    fn unit(self) -> Option<&'static str> {
        match self {
            Reason::TextTooLong | Reason::Blank | Reason::NothingFits => None,
            Reason::MemoryTooShort => Some("needed"),
            Reason::FieldCount | Reason::FieldForm | Reason::RowNumber | Reason::LineEnds => Some(
                "record",
            ),
            Reason::RowCount => Some("record or count"),
            Reason::NoSuchRecord => Some("number"),
            Reason::OutOfRange => Some("value"),
            Reason::NotOpen => Some("station"),
            Reason::TableGrammar
            | Reason::TreeGrammar
            | Reason::TooDeep
            | Reason::LeafNumber
            | Reason::HalvesApart
            | Reason::NotThePlant => Some("byte"),
        }
    }
}

impl Part {
    pub fn number(self) -> u8
        ensures { result ≡ partNumber self }
    {
        self as u8
    }

    // The refusal of this part, for the reason, at the place.
    pub fn refusal(self, reason: Reason, place: u32) -> Refusal
        ensures { result ≡ record { reason = reason; part = self; place = place } }
    {
        Refusal {
            reason,
            part: self,
            place,
        }
    }
}

impl fmt::Display for Part {
    fn fmt<W: fmt::Write>(&self, f: &mut fmt::Formatter<W>) -> fmt::Result {
        f.write_str(match self {
            Part::Stations => "stations",
            Part::Lines => "lines",
            Part::Tree => "tree",
            Part::Call => "call",
        })
    }
}

// In plain words.
impl fmt::Display for Refusal {
    fn fmt<W: fmt::Write>(&self, f: &mut fmt::Formatter<W>) -> fmt::Result {
        let Refusal {
            reason,
            part,
            place,
        } = *self;
        let fault = reason.fault();
        match reason.unit() {
            Some(unit) => write!(f, "{part}: {fault} ({unit} {place})"),
            None => write!(f, "{part}: {fault}"),
        }
    }
}

impl Error for Refusal {}
