//! What follows of stops. These calls do nothing and cost nothing: a caller cites their contracts.
ghost use Rattle.std.specs.Prelude.{Bool, List};
ghost use Rattle.reservation_core.specs.Scene.{Scene};
ghost use Rattle.reservation_core.specs.Lines.{Line};
ghost use Rattle.reservation_core.specs.Runs.{Run};
ghost use Rattle.reservation_core.specs.Headline.{Headline};
ghost use Rattle.stopped_puts.specs.Stops.{StoppedRun};

use central_rules::Judge;
use log_replay::headline_holds;
use node_store::stop_is_restart;

/// A stop inside a put is a restart: a run of bays whose programs may stop at any byte of any put of their records is
/// one of lines in which those bays restart, and over these lines the headline holds.
pub fn logs_with_stops_are_logs<J: Judge>(judge: &J)
    ensures run { (start : List Bool) (lines : List Line) (w : Scene) → let m = J.meaning judge.now in
        StoppedRun m start lines w → Run m start lines w }
    ensures headline { (start : List Bool) (lines : List Line) (w : Scene) → let m = J.meaning judge.now in
        StoppedRun m start lines w → Headline m.diagram start lines }
{
    judge.diagram_is_station();
    stop_is_restart();
    headline_holds(judge);
}
