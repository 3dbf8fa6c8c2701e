//! What follows for every log. These calls do nothing and cost nothing: a caller cites their contracts.
ghost use Rattle.std.specs.Prelude.{◌≡◌, ◌≤◌, ℕ, Bool, List, length, All};
ghost use Rattle.reservation_core.specs.Scene.{Scene};
ghost use Rattle.reservation_core.specs.Happens.{Happens, InRange};
ghost use Rattle.reservation_core.specs.declared.values.WorldEvent.{WorldEvent as Event};
ghost use Rattle.reservation_core.specs.declared.values.WorldOutcome.{WorldOutcome as Outcome};
ghost use Rattle.reservation_core.specs.Lines.{Line};
ghost use Rattle.reservation_core.specs.Runs.{Run, PremiseExact};
ghost use Rattle.log_replay.specs.Replay.{Replayed, report_text};
ghost use Rattle.log_replay.specs.Telling.{PathsAreLines, IsShowable, IsWholeReport, TellSame};
ghost use Rattle.log_replay.specs.declared.limits.TheConstants.{MOST_RECORDS};
ghost use Rattle.reservation_core.specs.Headline.{Headline};

use central_rules::Judge;
use station_graph::Station;

/// The lines of every run meet the headline, whatever is lost, repeated, reordered or restarted: every
/// decision is exact, every movement was granted and obeys the rules on the true positions throughout, a
/// sound start stays sound, and two rounds at once hear nothing of each other.
pub fn headline_holds<J: Judge>(judge: &J)
    ensures { (start : List Bool) (lines : List Line) (w : Scene) → let m = J.meaning judge.now in
        Run m start lines w → Headline m.diagram start lines }
{
    judge.diagram_is_station();
}

/// After a run, an event breaks a premise exactly where the lines say so.
pub fn premises_are_exact<J: Judge>(judge: &J)
    ensures { (start : List Bool) (before : List Line) (old new : Scene) (event : Event) (outcome : Outcome) →
        let m = J.meaning judge.now in
        Run m start before old → InRange m.diagram event → Happens m old event new outcome →
        PremiseExact m.diagram start before event outcome }
{
    judge.diagram_is_station();
}

/// The text of a report tells all that was shown: where two reports of a station have one text, each line shows the
/// same outcome of the same bay and the same messages, and both logs were replayed to their ends, or neither was.
pub fn reports_tell_all(station: &Station)
    ensures { (r t : Replayed) → let d = station.now in
        PathsAreLines d → All (IsShowable d) r.out → All (IsShowable d) t.out
        → length r.out ≤ MOST_RECORDS → length t.out ≤ MOST_RECORDS → r.count ≤ MOST_RECORDS → t.count ≤ MOST_RECORDS
        → report_text d r ≡ report_text d t → TellSame r t }
{
    station.is_station();
}

/// The text of a report and its end decide the report: where two reports of logs with so many records have one text,
/// and the same premise is broken at the same line of both, or none is, they are one. So what holds of the report that
/// was made holds of whatever is read out of its text.
pub fn text_decides_report(station: &Station)
    ensures { (count : ℕ) (r t : Replayed) → let d = station.now in
        PathsAreLines d → IsWholeReport d count r → IsWholeReport d count t → r.broken ≡ t.broken
        → report_text d r ≡ report_text d t → r ≡ t }
{
    station.is_station();
}
