// A figure that is ranked by the count of urgent stations first.
ghost use Rattle.std.specs.Prelude.{◌≡◌, ◌+◌, ◌≤◌};
ghost use Rattle.yardsticks.specs.Laws.{limit};
ghost use Rattle.yardsticks.specs.Models.{urgent_plus, urgent_size};

use std::ops::Add;

#[derive(Clone, Copy, PartialEq, Eq, PartialOrd, Ord, Debug, Default)]
pub struct UrgentGain {
    pub urgent: u64,
    pub gain: i64,
}

impl Add for UrgentGain {
    type Output = UrgentGain;

    ghost can_add = { λ a b. urgent_size a + urgent_size b ≤ limit };

    ghost add_gives = { λ a b r. r ≡ urgent_plus a b };

    fn add(self, other: UrgentGain) -> UrgentGain {
        UrgentGain {
            urgent: self.urgent + other.urgent,
            gain: self.gain + other.gain,
        }
    }
}
