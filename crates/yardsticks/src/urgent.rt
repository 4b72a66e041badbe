// The count of urgent stations first, and of equal counts the gain.
ghost use Rattle.yardsticks.specs.Models.{urgent_station, urgent_line, urgent_zero, urgent_plus, urgent_above, urgent_size};
ghost use Rattle.std.proofs.Common.{arith};
ghost use Rattle.yardsticks.specs.Urgents.{urgent_ops};

use crate::figures::UrgentGain;
use crate::yardstick::Yardstick;
use plant::records::{Line, Station};

#[derive(Clone, Copy)]
pub struct UrgentFirst;

impl Yardstick for UrgentFirst {
    type Figure = UrgentGain;

    ghost station = { urgent_station };

    ghost line = { urgent_line };

    ghost nil = { urgent_zero };

    ghost plus = { urgent_plus };

    ghost above = { urgent_above };

    ghost size = { urgent_size };

    ghost lawful = { record {
      ops = urgent_ops;
      size_station = λ s h. Prim.grind arith;
      size_line = λ l h. Prim.grind arith;
    } };

    fn of_station(&self, s: &Station) -> UrgentGain {
        UrgentGain {
            urgent: u64::from(s.urgent),
            gain: s.gain,
        }
    }

    // A line is not urgent.
    fn of_line(&self, l: &Line) -> UrgentGain {
        UrgentGain {
            urgent: 0,
            gain: l.gain,
        }
    }

    fn zero(&self) -> UrgentGain {
        UrgentGain::default()
    }

    fn sum(&self, a: UrgentGain, b: UrgentGain) -> UrgentGain {
        a + b
    }

    fn is_above(&self, a: UrgentGain, b: UrgentGain) -> bool {
        a > b
    }
}
