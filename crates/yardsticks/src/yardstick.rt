// A yardstick gives each record a figure, adds figures up and compares them.
ghost use Rattle.std.specs.Prelude.{◌≡◌, ℕ, ◌+◌, ◌≤◌, Bool};
ghost use Rattle.plant.specs.declared.records.Station.{Station};
ghost use Rattle.plant.specs.declared.records.Line.{Line};
ghost use Rattle.plant.specs.Records.{StationInRange, LineInRange};
ghost use Rattle.yardsticks.specs.Laws.{Laws, limit};

use plant::records::{Line, Station};

pub trait Yardstick {
    type Figure: Copy;

    ghost station: { Station → Self.Figure };

    ghost line: { Line → Self.Figure };

    ghost nil: { Self.Figure };

    ghost plus: { Self.Figure → Self.Figure → Self.Figure };

    ghost above: { Self.Figure → Self.Figure → Bool };

    ghost size: { Self.Figure → ℕ };

    fn of_station(&self, s: &Station) -> Self::Figure
        requires { StationInRange s.now }
        ensures { result ≡ station s.now };

    fn of_line(&self, l: &Line) -> Self::Figure
        requires { LineInRange l.now }
        ensures { result ≡ line l.now };

    fn zero(&self) -> Self::Figure
        ensures { result ≡ nil };

    fn sum(&self, a: Self::Figure, b: Self::Figure) -> Self::Figure
        requires { size a + size b ≤ limit }
        ensures { result ≡ plus a b };

    fn is_above(&self, a: Self::Figure, b: Self::Figure) -> bool
        ensures { result ≡ above a b };

    ghost lawful: { Laws station line nil plus above size };
}
