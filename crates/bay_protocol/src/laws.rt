//! What follows for every node.
ghost use Rattle.std.specs.Prelude.{◌≡◌, ◌<◌, ℕ, List, length};
ghost use Rattle.std.specs.List.{All};
ghost use Rattle.station_graph.specs.Diagram.{Diagram};
ghost use Rattle.station_graph.specs.declared.limits.TheConstants.{BAYS};
ghost use Rattle.central_rules.specs.Meaning.{IsBay};
ghost use Rattle.bay_frames.specs.Row.{IsLawful};
ghost use Rattle.bay_protocol.specs.declared.values.Kept.{Kept as Record};
ghost use Rattle.bay_protocol.specs.declared.values.NodeEvent.{NodeEvent as Event};
ghost use Rattle.bay_protocol.specs.State.{State, kept_of, resumed, restarts};
ghost use Rattle.bay_protocol.specs.Fits.{KeptFits, IsNode, FitsHeard, EventFits};
ghost use Rattle.bay_protocol.specs.Step.{Turn, Step};
ghost use Rattle.bay_protocol.specs.OutcomeLines.{OutcomeFits};

use central_rules::Judge;

/// A node that is made of a record is the node that a restart leaves: the highest round, the lock and the
/// granted operation stay, all words are lost, and no round is collected. Like the other laws it does
/// nothing and costs nothing: a caller cites its contract.
pub fn restart_is_resume()
    ensures { (d : Diagram) (s : State) → IsNode d s → restarts s ≡ resumed d s.bay (kept_of s) }
{}

/// A record that fits a bay makes a node of it, and what that node has heard, which is nothing, fits by every
/// judge.
pub fn resumed_is_node<J: Judge>(judge: &J)
    ensures node { (d : Diagram) (b : ℕ) (k : Record) → IsBay d b → KeptFits d b k → IsNode d (resumed d b k) }
    ensures fits { (d : Diagram) (b : ℕ) (k : Record) → FitsHeard (J.meaning judge.now) (resumed d b k) }
{}

/// Each step keeps what holds of a node: it stays one of the station and of its bay, so that its record fits
/// its bay, and what it has heard in the round that it collects fits by the judge of the step.
pub fn step_keeps<J: Judge>(judge: &J)
    ensures node { (d : Diagram) (old : State) (event : Event) (turn : Turn)
        → IsNode d old → FitsHeard (J.meaning judge.now) old → EventFits d old.bay event
        → Step (J.meaning judge.now) d old event turn → IsNode d turn.new }
    ensures fits { (d : Diagram) (old : State) (event : Event) (turn : Turn)
        → IsNode d old → FitsHeard (J.meaning judge.now) old → EventFits d old.bay event
        → Step (J.meaning judge.now) d old event turn → FitsHeard (J.meaning judge.now) turn.new }
    ensures bay { (d : Diagram) (old : State) (event : Event) (turn : Turn)
        → IsNode d old → FitsHeard (J.meaning judge.now) old → EventFits d old.bay event
        → Step (J.meaning judge.now) d old event turn → turn.new.bay ≡ old.bay }
{}

/// Each frame that a step of a node sends is lawful, there are fewer than a station may have bays, and what
/// the outcome names is of the station.
pub fn step_gives<J: Judge>(judge: &J)
    ensures lawful { (old : State) (event : Event) (turn : Turn) → let d = (J.meaning judge.now).diagram in
        IsNode d old → EventFits d old.bay event → Step (J.meaning judge.now) d old event turn →
        All IsLawful turn.frames }
    ensures few { (old : State) (event : Event) (turn : Turn) → let d = (J.meaning judge.now).diagram in
        IsNode d old → EventFits d old.bay event → Step (J.meaning judge.now) d old event turn →
        length turn.frames < BAYS }
    ensures outcome { (old : State) (event : Event) (turn : Turn) → let d = (J.meaning judge.now).diagram in
        IsNode d old → EventFits d old.bay event → Step (J.meaning judge.now) d old event turn →
        OutcomeFits d turn.outcome }
{
    judge.diagram_is_station();
}
