//! The contraction of two lists of items together on some nodes, in one view alone.
ghost use Rattle.std.specs.Prelude.{◌≡◌, ◌⊎◌, ◌++◌, ℕ, Bool, List, IfOk, Contains};
ghost use Rattle.station_graph.specs.Diagram.{Diagram};
ghost use Rattle.station_graph.specs.Connection.{Item};
ghost use Rattle.contraction.specs.Answers.{Keeps};
ghost use Rattle.contraction.specs.Stands.{Among, MeetsKept, GapStandsFor, LoadStandsFor};
ghost use Rattle.contraction.specs.Composing.{IsGapOfBoth, IsLoadOfBoth};

use crate::selection::Selection;
use crate::value::Contraction;
use ilk_base::Memory;
use station_graph::NodeList;
use std::alloc::Global;

impl Contraction {
    /// What `compose` and then `keep_only` give in the gap view alone, with less work: the items of both
    /// together, on these of the nodes that either keeps. The load view of the value is that of no item.
    ///
    /// Time: the kept nodes, times those that the value with fewer of them joins to others. Memory: the kept nodes.
    pub fn compose_gap(
        &self,
        alloc: Global,
        other: &Contraction,
        nodes: &NodeList,
    ) -> Result<Contraction, Memory>
        requires { (n : ℕ) → Contains nodes.now n → Keeps self.now.kept n ⊎ Keeps other.now.kept n }
        ensures both { IfOk result (IsGapOfBoth nodes.now self.now other.now) }
        ensures gap { IfOk result (λ c. (items others : List Item) (d : Diagram) (v : List Bool)
            → MeetsKept (Among items) (Among others) d self.now.kept other.now.kept
            → GapStandsFor (Among items) d v self.now
            → GapStandsFor (Among others) d v other.now
            → GapStandsFor (Among (items ++ others)) d v c) }
    {
        let selection = Selection::of(alloc, self.nodes(), other.nodes(), nodes)?;
        self.compose_gap_on(alloc, other, &selection)
    }

    /// What `compose_gap` gives, on a selection of the nodes that both values keep. So one selection serves all pairs
    /// of values that keep the same nodes.
    ///
    /// Time: the kept nodes, times those that the value with fewer of them joins to others. Memory: the kept nodes.
    pub fn compose_gap_on(
        &self,
        alloc: Global,
        other: &Contraction,
        selection: &Selection,
    ) -> Result<Contraction, Memory>
        requires first { selection.now.first ≡ self.now.kept }
        requires second { selection.now.second ≡ other.now.kept }
        requires nodes { (n : ℕ) → Contains selection.now.nodes n
            → Keeps self.now.kept n ⊎ Keeps other.now.kept n }
        ensures both { IfOk result (IsGapOfBoth selection.now.nodes self.now other.now) }
        ensures gap { IfOk result (λ c. (items others : List Item) (d : Diagram) (v : List Bool)
            → MeetsKept (Among items) (Among others) d self.now.kept other.now.kept
            → GapStandsFor (Among items) d v self.now
            → GapStandsFor (Among others) d v other.now
            → GapStandsFor (Among (items ++ others)) d v c) }
    {
        let row = self.composed_gap_row(alloc, other, selection)?;
        Contraction::of_gap_row(alloc, &row, &mut None)
    }

    /// What `compose` and then `keep_only` give in the load view alone, with less work: the items of
    /// both together, on these of the nodes that either keeps. The gap view of the value is that of no
    /// item.
    ///
    /// Time: the kept nodes, times those that the value with fewer of them joins to others. Memory: the kept nodes.
    pub fn compose_load(
        &self,
        alloc: Global,
        other: &Contraction,
        nodes: &NodeList,
    ) -> Result<Contraction, Memory>
        requires { (n : ℕ) → Contains nodes.now n → Keeps self.now.kept n ⊎ Keeps other.now.kept n }
        ensures both { IfOk result (IsLoadOfBoth nodes.now self.now other.now) }
        ensures load { IfOk result (λ c. (items others : List Item) (d : Diagram) (v : List Bool)
            → MeetsKept (Among items) (Among others) d self.now.kept other.now.kept
            → LoadStandsFor (Among items) d v self.now
            → LoadStandsFor (Among others) d v other.now
            → LoadStandsFor (Among (items ++ others)) d v c) }
    {
        let selection = Selection::of(alloc, self.nodes(), other.nodes(), nodes)?;
        self.compose_load_on(alloc, other, &selection)
    }

    /// What `compose_load` gives, on a selection of the nodes that both values keep. So one selection serves all
    /// pairs of values that keep the same nodes.
    ///
    /// Time: the kept nodes, times those that the value with fewer of them joins to others. Memory: the kept nodes.
    pub fn compose_load_on(
        &self,
        alloc: Global,
        other: &Contraction,
        selection: &Selection,
    ) -> Result<Contraction, Memory>
        requires first { selection.now.first ≡ self.now.kept }
        requires second { selection.now.second ≡ other.now.kept }
        requires nodes { (n : ℕ) → Contains selection.now.nodes n
            → Keeps self.now.kept n ⊎ Keeps other.now.kept n }
        ensures both { IfOk result (IsLoadOfBoth selection.now.nodes self.now other.now) }
        ensures load { IfOk result (λ c. (items others : List Item) (d : Diagram) (v : List Bool)
            → MeetsKept (Among items) (Among others) d self.now.kept other.now.kept
            → LoadStandsFor (Among items) d v self.now
            → LoadStandsFor (Among others) d v other.now
            → LoadStandsFor (Among (items ++ others)) d v c) }
    {
        let row = self.composed_load_row(alloc, other, selection)?;
        Contraction::of_load_row(alloc, &row, &mut None)
    }
}
