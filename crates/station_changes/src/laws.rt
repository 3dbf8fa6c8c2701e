//! Laws on load and on earth, each a call that does nothing.
ghost use Rattle.std.specs.Prelude.{◌↔◌, ℕ, Bool, List, Option, None};
ghost use Rattle.ilk_base.specs.declared.words.Kind.TheVariants.{Disconnector};
ghost use Rattle.ilk_base.specs.declared.words.Op.{Op};
ghost use Rattle.ilk_base.specs.declared.words.Rule.TheVariants.{R2};
ghost use Rattle.station_graph.specs.Diagram.{Diagram};
ghost use Rattle.ilk_base.specs.declared.words.Rule.{Rule};
ghost use Rattle.station_graph.specs.CentralRules.{Breaks, LoadBreaks, BreaksClosing};
ghost use Rattle.station_changes.specs.Covers.{Covers, NoEarth, Moves, LoadChange, IsBetween};
ghost use Rattle.station_changes.specs.Compare.{SameSwitch, IsCommon, IsJoint, IsIsolated, IsChange, mirrored};
ghost use Rattle.station_changes.specs.declared.change.Change.{Change};
ghost use Rattle.station_changes.specs.declared.change.Change.TheVariants.{Stricter, Looser};
ghost use Rattle.station_changes.specs.Arranged.{IsArranged, IsArrangedOp, IsArrangedVector};

/// The third rule does not look at earthing switches. And it lies between: where it applies with few switches
/// closed and with many, it applies with any number between. So where it does not apply for some positions of the
/// breakers, it does not apply with all of them open, or not with all of them closed.
pub fn load_lies_between()
    ensures between { (d : Diagram) (few v many : List Bool) (op : Op) → Covers d few v → Covers d v many
        → LoadBreaks d few op → LoadBreaks d many op → LoadBreaks d v op }
    ensures earthing { (d : Diagram) (v w : List Bool) (op : Op) → Covers d v w → Covers d w v
        → LoadBreaks d v op → LoadBreaks d w op }
{}

/// Where every earthing switch is open, the closing of a breaker or disconnector does not break the second rule.
pub fn no_earth_no_gap()
    ensures { (d : Diagram) (v : List Bool) (op : Op) → NoEarth d v → BreaksClosing d v op → ⊥ }
{}

/// For a disconnector that two stations have, the third rule can be compared without the first two: wherever it
/// applies in one station and not in the other, there is such a position, isolated if the first one is, in which one
/// station releases the operation and in the other the third rule is what it breaks.
pub fn load_alone()
    ensures { (o n : Diagram) (a b : Op) (u v : List Bool) → IsCommon o n a b → Moves Disconnector o a
        → IsJoint o n u v → LoadChange o n a b u v }
{}

/// A change by the second rule is shown with few breakers closed or with many, if it is shown with any number between:
/// so it is enough to look at the positions with all breakers open, and at those with all of them closed.
pub fn gap_at_the_ends()
    ensures { (o n : Diagram) (a b : Op) (change : Change) (few new_few u v many new_many : List Bool)
        → IsBetween o few u many → IsBetween n new_few v new_many
        → (IsChange o n a b change R2 few new_few → ⊥) → (IsChange o n a b change R2 many new_many → ⊥)
        → IsChange o n a b change R2 u v → ⊥ }
{}

/// Which rule an operation breaks does not depend on the order of switches, links and taps, nor on the parts in which
/// they stand: where a station has the items of another in any order and in any parts, each operation has the same
/// answer in each vector.
pub fn order_does_not_matter()
    ensures { (d e : Diagram) (a : IsArranged d e) (op other : Op) (v w : List Bool) (answer : Option Rule)
        → IsArrangedOp a.place op other → IsArrangedVector a.place v w
        → Breaks d v op answer ↔ Breaks e w other answer }
{}

/// Where nothing is stricter in a joint vector, what the old station releases there the new one releases. So an equation
/// that was not loose on the old station, by switches that both have, is not loose on the new one where no vector shows a
/// change to stricter; and where no isolated vector shows any change, both release exactly the same in isolated vectors.
pub fn released_as_before()
    ensures stays { (o n : Diagram) (a b : Op) (u v : List Bool)
        → ((rule : Rule) → IsChange o n a b Stricter rule u v → ⊥) → Breaks o u a None → Breaks n v b None }
    ensures was { (o n : Diagram) (a b : Op) (u v : List Bool)
        → ((rule : Rule) → IsChange o n a b Looser rule u v → ⊥) → Breaks n v b None → Breaks o u a None }
{}

/// The comparison of the new station with the old one is the mirror of that of the old one with the new one: stricter for
/// looser, in the same joint vectors, which are isolated in both or in neither.
pub fn turned_round()
    ensures same { (o n : Diagram) (i k : ℕ) → SameSwitch o n i k → SameSwitch n o k i }
    ensures joint { (o n : Diagram) (u v : List Bool) → IsJoint o n u v → IsJoint n o v u }
    ensures isolated { (o n : Diagram) (u v : List Bool) → IsIsolated o n u v → IsIsolated n o v u }
    ensures change { (o n : Diagram) (a b : Op) (change : Change) (rule : Rule) (u v : List Bool)
        → IsChange o n a b change rule u v → IsChange n o b a (mirrored change) rule v u }
{}
