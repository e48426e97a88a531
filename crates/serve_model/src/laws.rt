//! What the clauses of parts, calls and sessions imply together, as contracts of calls that do nothing.
ghost use Rattle.std.specs.Prelude.{ℕ, List};
ghost use Rattle.serve_model.specs.Copied.{CopiedIsNone};
ghost use Rattle.serve_model.specs.Cuts.{CutsAgree};
ghost use Rattle.serve_model.specs.Mixed.{MixedIsNone, SmallIsNone, EmptyIsNone};
ghost use Rattle.serve_model.specs.One.{OneRan};
ghost use Rattle.serve_model.specs.Rows.{AreRows};
ghost use Rattle.serve_model.specs.Seats.{JoinsAdd, OneSeat, AnyOrder, IdleStarts};
ghost use Rattle.serve_model.specs.Stages.{NoStageRefused};
ghost use Rattle.serve_model.specs.Steps.{CallsAdd, FirstCalls, GoingStarts, GoingRests, GoingOn, GoingEnds};
ghost use Rattle.serve_model.specs.Steps.{GoingBreaks, WithStage, SessionRan};
ghost use Rattle.serve_model.specs.Whole.{ServedTogether, InputsServed, WholeRun, NoneMissing};
ghost use Rattle.serve_model.specs.Worked.{WorkedRun};

/// The inputs of any number of sessions were served: the journal has one order and one history, and its histories give
/// the texts of their replies.
pub fn served()
    ensures { InputsServed }
{}

/// And the end of the pool shows by the journal what is held, what was claimed, why parts have no entry, and that
/// values were pinned.
pub fn ran()
    ensures { WholeRun }
{}

/// Sessions that ran each for itself were served together.
pub fn all_served()
    ensures { ServedTogether }
{}

/// The only session of a book, with the text that the journal gives.
pub fn one_ran()
    ensures { OneRan }
{}

/// Where the pool has the demand in both classes no write is missing.
pub fn complete()
    ensures { NoneMissing }
{}

/// With 128 small buffers for each stage none is refused.
pub fn no_stage_refused()
    ensures { NoStageRefused }
{}

/// The calls of a session, one more.
pub fn calls_add()
    ensures { CallsAdd }
{}

/// What was said of a session's first commands stands when more are known.
pub fn first_calls()
    ensures { FirstCalls }
{}

/// A session before its first call.
pub fn going_starts()
    ensures { GoingStarts }
{}

/// A session that makes one call more.
pub fn going_on()
    ensures { GoingOn }
{}

/// A session that gives frames back between its calls.
pub fn going_rests()
    ensures { GoingRests }
{}

/// A session that stops between two calls.
pub fn going_ends()
    ensures { GoingEnds }
{}

/// A session that memory stops in a call.
pub fn going_breaks()
    ensures { GoingBreaks }
{}

/// What a session claimed, with its stage.
pub fn with_stage()
    ensures { WithStage }
{}

/// A session's end, with its seat given back.
pub fn session_ran()
    ensures { SessionRan }
{}

/// The joined seat has what its parts have.
pub fn joins_add()
    ensures { JoinsAdd }
{}

/// A seat has what it has.
pub fn one_seat()
    ensures { OneSeat }
{}

/// And the order of the parts doesn't matter.
pub fn any_order()
    ensures { AnyOrder }
{}

/// A seat that never claimed is as none.
pub fn idle_starts()
    ensures { IdleStarts }
{}

/// The fragments of the model are those of the values in buffers.
pub fn cuts_agree()
    ensures { CutsAgree }
{}

/// The demand of some commands, as worked by hand.
pub fn worked_rows()
    ensures { AreRows }
{}

/// Writes that need large buffers and writes that need small ones don't miss the same one.
pub fn not_mixed()
    ensures { (given : List ℕ) (taken : ℕ) → MixedIsNone given taken }
{}

/// A write that needs a large buffer alone doesn't miss a small one.
pub fn not_small()
    ensures { (given : List ℕ) (taken : ℕ) → SmallIsNone given taken }
{}

/// A write that needs no buffer isn't missing.
pub fn not_empty()
    ensures { (given : List ℕ) (taken : ℕ) → EmptyIsNone given taken }
{}

/// Answers whose pieces have the threshold's bytes aren't copied.
pub fn not_copied()
    ensures { (given : List ℕ) (taken : ℕ) → CopiedIsNone given taken }
{}

/// A worked run meets all that the layers hand up, so the laws are about something.
pub fn worked()
    ensures { WorkedRun }
{}
