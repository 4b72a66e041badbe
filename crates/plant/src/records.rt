// The records of a plant.
ghost use Rattle.plant.specs.Records.{GivesHold};

// What a station's list must do: nothing, open it, or leave it shut.
#[derive(Clone, Copy, PartialEq, Eq, Debug, Default)]
pub enum Hold {
    #[default]
    Free,
    Open,
    Shut,
}

// A hold by its number; one that is none is handed back.
impl TryFrom<u32> for Hold {
    type Error = u32;

    ghost try_from_gives = { GivesHold };

    fn try_from(number: u32) -> Result<Hold, u32> {
        match number {
            0 => Ok(Hold::Free),
            1 => Ok(Hold::Open),
            2 => Ok(Hold::Shut),
            _ => Err(number),
        }
    }
}

#[derive(Clone, Copy, PartialEq, Eq, Debug, Default)]
pub struct Station {
    pub hours: u32,
    pub gain: i64,
    pub urgent: bool,
    pub hold: Hold,
}

// The gain of a line comes on top of the gains of its two stations, where both are opened. It is not the gain of the pair.
#[derive(Clone, Copy, PartialEq, Eq, Debug, Default)]
pub struct Line {
    pub from: usize,
    pub to: usize,
    pub gain: i64,
}
