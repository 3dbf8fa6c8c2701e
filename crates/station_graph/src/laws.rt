//! Laws of the rules.
ghost use Rattle.std.specs.Prelude.{◌≡◌, ◌≢◌, ◌↔◌, ℕ, Bool, List, length, Option, Some, None, slice_get, slice_set};
ghost use Rattle.ilk_base.specs.declared.words.Direction.TheVariants.{ToOn};
ghost use Rattle.ilk_base.specs.declared.words.Op.{Op};
ghost use Rattle.ilk_base.specs.declared.words.Rule.{Rule};
ghost use Rattle.ilk_base.specs.declared.words.Rule.TheVariants.{R3};
ghost use Rattle.station_graph.specs.Diagram.{Diagram, IsStation};
ghost use Rattle.station_graph.specs.Connection.{SameButBreakers};
ghost use Rattle.station_graph.specs.Sharing.{OfPart};
ghost use Rattle.station_graph.specs.Supply.{Apart};
ghost use Rattle.station_graph.specs.CentralRules.{before, after, carried_out, IsOperation, Breaks, GapBreaks};
ghost use Rattle.station_graph.specs.CentralRules.{LoadBreaks};
ghost use Rattle.station_graph.specs.Alike.{IsVector, SamePositions, DifferInPart};

/// An operation has one answer in a vector, and in a vector of its station it has some answer.
pub fn one_answer()
    ensures one { (d : Diagram) (v : List Bool) (op : Op) (a b : Option Rule)
        → Breaks d v op a → Breaks d v op b → a ≡ b }
    ensures some { (d : Diagram) (v : List Bool) (op : Op)
        → IsStation d → IsVector d v → IsOperation d op → (answer : Option Rule) × Breaks d v op answer }
{}

/// The answer does not look at the position of the moved switch itself.
pub fn moved_switch_is_passed_over()
    ensures any_position { (d : Diagram) (v : List Bool) (op : Op) (closed : Bool) (answer : Option Rule)
        → Breaks d v op answer ↔ Breaks d (slice_set v op.switch.0 closed) op answer }
    ensures elsewhere { (d : Diagram) (v w : List Bool) (op : Op) (answer : Option Rule)
        → length v ≡ length w → ((i : ℕ) → i ≢ op.switch.0 → slice_get v i ≡ slice_get w i)
        → Breaks d v op answer ↔ Breaks d w op answer }
{}

/// The answer is that of the first two rules, and where they give none, the third rule where it applies.
/// What the first two give does not look at breakers.
pub fn gap_and_load()
    ensures none { (d : Diagram) (v : List Bool) (op : Op)
        → Breaks d v op None ↔ (GapBreaks d v op None × ¬ LoadBreaks d v op) }
    ensures gap { (d : Diagram) (v : List Bool) (op : Op) (rule : Rule)
        → GapBreaks d v op (Some rule) ↔ (Breaks d v op (Some rule) × (rule ≢ R3)) }
    ensures load { (d : Diagram) (v : List Bool) (op : Op)
        → Breaks d v op (Some R3) ↔ (GapBreaks d v op None × LoadBreaks d v op) }
    ensures breakers { (d : Diagram) (v w : List Bool) (op : Op) (answer : Option Rule)
        → length v ≡ length w → SameButBreakers d v w → GapBreaks d v op answer ↔ GapBreaks d w op answer }
{}

/// Soundness: what may be live stays apart from what may be earthed. Breakers do not matter to it. It is
/// kept by opening any switch, by closing one where the first two rules give none, and so by each
/// operation that breaks no rule.
pub fn soundness_is_kept()
    ensures breakers { (d : Diagram) (v w : List Bool)
        → length v ≡ length w → SameButBreakers d v w → Apart d v ↔ Apart d w }
    ensures opening { (d : Diagram) (v : List Bool) (op : Op) → Apart d v → Apart d (before v op) }
    ensures closing { (d : Diagram) (v : List Bool) (op : Op)
        → IsOperation d op → op.direction ≡ ToOn → GapBreaks d v op None
        → Apart d (before v op) → Apart d (after v op) }
    ensures carried_out { (d : Diagram) (v : List Bool) (op : Op)
        → IsOperation d op → Breaks d v op None → Apart d v → Apart d (carried_out v op) }
{}

/// There is a vector with the positions of one part from the one vector, and all others from the other.
pub fn parts_mix()
    ensures { (d : Diagram) (part : ℕ) (w v : List Bool) → IsVector d w → IsVector d v
        → (x : List Bool) × IsVector d x × SamePositions (OfPart d part) w x × DifferInPart d part v x }
{}
