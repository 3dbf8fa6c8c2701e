//! What follows for every world with trips. These calls do nothing and cost nothing: a caller cites their
//! contracts.
ghost use Rattle.std.specs.Prelude.{Bool, List};
ghost use Rattle.trip_core.specs.Trips.{TripScene};
ghost use Rattle.trip_core.specs.Start.{IsTripStart};
ghost use Rattle.trip_core.specs.Facts.{TripFacts, AnswersTrip, WordsTrip, GrantsTrip};

use central_rules::Judge;

/// All facts hold of a world to which nothing has happened.
pub fn trip_facts_hold_at_the_start<J: Judge>(judge: &J)
    ensures { (start : List Bool) (s : TripScene) → let m = J.meaning judge.now in
        IsTripStart m.diagram start s → TripFacts m s }
{}

/// Where the facts hold, an Answer whose round is under way comes of a bay that is locked for it, and allows what
/// is true there, but for breakers that may have tripped; words that are off or on are true, but for those of
/// breakers that have tripped since, and unless an operation of the switch is granted; and each granted operation
/// is backed by Answers.
pub fn trip_facts_speak_of_the_truth<J: Judge>(judge: &J)
    ensures answers { (s : TripScene) → TripFacts (J.meaning judge.now) s → AnswersTrip (J.meaning judge.now) s }
    ensures words { (s : TripScene) → TripFacts (J.meaning judge.now) s → WordsTrip (J.meaning judge.now) s }
    ensures grants { (s : TripScene) → TripFacts (J.meaning judge.now) s → GrantsTrip (J.meaning judge.now) s }
{}
