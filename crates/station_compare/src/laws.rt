//! Laws on comparisons, calls that do nothing.
ghost use Rattle.std.specs.Prelude.{◌≡◌, ℕ, Option, option_map};
ghost use Rattle.ilk_base.specs.declared.words.Op.{Op};
ghost use Rattle.ilk_base.specs.declared.words.Rule.{Rule};
ghost use Rattle.station_graph.specs.Diagram.{Diagram};
ghost use Rattle.station_changes.specs.declared.change.Change.{Change};
ghost use Rattle.station_changes.specs.Compare.{IsPart, Witness, mirrored};
ghost use Rattle.station_compare.specs.declared.word.Word.{Word};
ghost use Rattle.station_compare.specs.Orders.{Orders, IsNarrow, IsTooWide, IsFirstWide};
ghost use Rattle.station_compare.specs.Words.{IsWord, turned};

/// The comparison of the new station with the old one is the mirror of that of the old one with the new one: each operation
/// that both have keeps its word, and what shows that it is stricter shows, turned round, that it is looser.
pub fn comparison_turned_round()
    ensures word { (o n : Diagram) (a b : Op) (w : Word) → IsWord o n a b w → IsWord n o b a w }
    ensures part { (o n : Diagram) (a b : Op) (change : Change) (rule : Rule) (found : Option Witness)
        → IsPart o n a b change rule found → IsPart n o b a (mirrored change) rule (option_map turned found) }
{}

/// Along one family of orders no switch is both narrow and too wide: the distinct views between the layers of a graph are
/// counted once, and the graphs that are walked tell the same apart whatever numbers their nodes have. So one family has at
/// most one first bay that is too wide, and none where all switches are narrow.
pub fn narrow_excludes_width()
    ensures switch { (o n : Diagram) (orders : Orders o n) (bay k : ℕ) → IsNarrow o n orders k
        → ¬ IsTooWide o n orders bay k }
    ensures first { (o n : Diagram) (orders : Orders o n) (bay other : ℕ) → IsFirstWide o n orders bay
        → IsFirstWide o n orders other → bay ≡ other }
{}
