// What the verdicts on the tables' texts say of their writing.
ghost use Rattle.std.specs.Prelude.{ℕ};
ghost use Rattle.rows.specs.Laws.{AcceptedWhenWritten, RefusedAtFirstFault};
ghost use Rattle.rows.specs.Lines.{lines as lineRules};
ghost use Rattle.rows.specs.Stations.{stations as stationRules};
ghost use Rattle.rows.specs.Written.{station_form as stationForm, line_form as lineForm};

// A text is accepted with rows exactly when it is the writing of those rows, and they are the only ones.
pub fn accepted_when_written()
    ensures stations { AcceptedWhenWritten stationRules stationForm }
    ensures lines { (n : ℕ) → AcceptedWhenWritten (lineRules n) (lineForm n) }
{}

// A text is refused for a reason at a place exactly when its first fault is that one, with everything before it in order.
pub fn refused_at_first_fault()
    ensures stations { RefusedAtFirstFault stationRules stationForm }
    ensures lines { (n : ℕ) → RefusedAtFirstFault (lineRules n) (lineForm n) }
{}
