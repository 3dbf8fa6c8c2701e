//! The laws on blocks.
ghost use Rattle.std.specs.Prelude.{◌≡◌, ◌↔◌, ℕ, List, Bool, true};
ghost use Rattle.ilk_base.specs.declared.words.InputRefusal.{InputRefusal};
ghost use Rattle.station_graph.specs.Diagram.{Diagram, Differ};
ghost use Rattle.station_graph.specs.Alike.{IsVector};
ghost use Rattle.equation_audit.specs.Equations.{Equation, is_released};
ghost use Rattle.equation_audit.specs.BlockLines.{AreBlocks, IsBlocksFault};
ghost use Rattle.equation_audit.specs.Findings.{IsSame, Suffices};

/// An equation that is the same as the rules releases exactly where the position of its own switches
/// suffices for the rules: where they forbid the operation in no vector with that position.
pub fn same_is_exact()
    ensures { (d : Diagram) (e : Equation) → IsSame d e → (u : List Bool) → IsVector d u
        → (is_released e.alternatives u ≡ true) ↔ Suffices d e u }
{}

/// A text has one outcome: where no two switches have one path, bytes that are blocks are refused by no
/// fault.
pub fn one_outcome()
    ensures { (d : Diagram) (bytes : List ℕ) (es : List Equation) (refusal : InputRefusal)
        → Differ d.switch_paths → AreBlocks d bytes es → ¬ IsBlocksFault d bytes refusal }
{}
