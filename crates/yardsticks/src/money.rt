// The gain, in cents.
ghost use Rattle.yardsticks.specs.Models.{money_station, money_line, money_zero, money_plus, money_above, money_size};
ghost use Rattle.yardsticks.specs.Cents.{cents_ops};

use crate::yardstick::Yardstick;
use plant::records::{Line, Station};

#[derive(Clone, Copy)]
pub struct Money;

impl Yardstick for Money {
    type Figure = i64;

    ghost station = { money_station };

    ghost line = { money_line };

    ghost nil = { money_zero };

    ghost plus = { money_plus };

    ghost above = { money_above };

    ghost size = { money_size };

    ghost lawful = { record {
      ops = cents_ops;
      size_station = λ s h. h.1;
      size_line = λ l h. h;
    } };

    fn of_station(&self, s: &Station) -> i64 {
        s.gain
    }

    fn of_line(&self, l: &Line) -> i64 {
        l.gain
    }

    fn zero(&self) -> i64 {
        0
    }

    fn sum(&self, a: i64, b: i64) -> i64 {
        a + b
    }

    fn is_above(&self, a: i64, b: i64) -> bool {
        a > b
    }
}
