//! What follows for every log with trips. These calls do nothing and cost nothing: a caller cites their contracts.
ghost use Rattle.std.specs.Prelude.{ℕ, Bool, List};
ghost use Rattle.ilk_base.specs.declared.words.InputRefusal.{InputRefusal};
ghost use Rattle.trip_core.specs.Trips.{TripScene};
ghost use Rattle.trip_core.specs.TripLines.{TripLine};
ghost use Rattle.trip_core.specs.TripRuns.{TripRun, TripHeadline};
ghost use Rattle.trip_replay.specs.declared.event.TripLogEvent.{TripLogEvent};
ghost use Rattle.trip_replay.specs.TripLogs.{IsTripLog, IsTripLogFault};

use central_rules::Judge;
use station_graph::Station;

/// Trips leave the first two rules whole: in every run with trips every decision is exact, every movement was
/// granted and obeys the first two rules on the true positions throughout, and the third at each line up to which no breaker has tripped
/// since the word of it was read that the grant used; and a sound start stays sound.
pub fn trip_headline_holds<J: Judge>(judge: &J)
    ensures { (start : List Bool) (lines : List TripLine) (s : TripScene) → let m = J.meaning judge.now in
        TripRun m start lines s → TripHeadline m.diagram start lines }
{
    judge.diagram_is_station();
}

/// No text is a log with trips and refused as one.
pub fn trip_log_is_not_refused(station: &Station)
    ensures { (bytes : List ℕ) (events : List TripLogEvent) (refusal : InputRefusal)
        → IsTripLog station.now bytes events → ¬ IsTripLogFault station.now bytes refusal }
{
    station.is_station();
}
