// A yardstick that no plan asks for: the lines with both ends open, less the stations that are opened.
ghost use Rattle.std.specs.Prelude.{pos, negsuc};
ghost use Rattle.std.proofs.Common.{arith};
ghost use Rattle.yardsticks.specs.Models.{money_zero, money_plus, money_above, money_size};
ghost use Rattle.yardsticks.specs.Cents.{cents_ops};

use plant::records::{Line, Station};
use yardsticks::yardstick::Yardstick;

#[derive(Clone, Copy)]
pub struct Links;

// As Money in three methods of a line, which a type between the two would not make plainer.
impl Yardstick for Links {
    type Figure = i64;

    ghost station = { λ _. negsuc 0 };

    ghost line = { λ _. pos 1 };

    ghost nil = { money_zero };

    ghost plus = { money_plus };

    ghost above = { money_above };

    ghost size = { money_size };

    ghost lawful = { record {
      ops = cents_ops;
      size_station = λ s h. omega arith;
      size_line = λ l h. omega arith;
    } };

    fn of_station(&self, _s: &Station) -> i64 {
        -1
    }

    fn of_line(&self, _l: &Line) -> i64 {
        1
    }

    fn zero(&self) -> i64 {
        0
    }

    fn sum(&self, a: i64, b: i64) -> i64 {
        a + b
    }

    fn is_above(&self, a: i64, b: i64) -> bool {
        b < a
    }
}
