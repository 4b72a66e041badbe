// What the verdict on three texts says of their writing.
ghost use Rattle.texts.specs.Laws.{AcceptedWhenWritten, RefusedAtFirstFault, OneAnswer, LongBeforeAll};

// Three texts are accepted with a plant exactly when they are the writing of that plant, and it is the only one.
pub fn accepted_when_written()
    ensures { AcceptedWhenWritten }
{}

// Three texts are refused exactly for their first fault, with everything before it in order.
pub fn refused_at_first_fault()
    ensures { RefusedAtFirstFault }
{}

// Three texts are the writing of a plant, or they have a first fault, and never both.
pub fn one_answer()
    ensures { OneAnswer }
{}

// A text that is too long is told before anything is read: the stations' text first, then the lines', then the tree.
pub fn long_before_all()
    ensures { LongBeforeAll }
{}
