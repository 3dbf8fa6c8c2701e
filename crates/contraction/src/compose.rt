//! The contraction of two lists of items together, and that on fewer nodes.
ghost use Rattle.std.specs.Prelude.{◌≡◌, ◌↔◌, ◌++◌, ℕ, Bool, List, IfOk, Contains};
ghost use Rattle.station_graph.specs.Diagram.{Diagram};
ghost use Rattle.station_graph.specs.Connection.{Item};
ghost use Rattle.station_graph.specs.Nodes.{Rises};
ghost use Rattle.contraction.specs.Answers.{Keeps, IsContraction};
ghost use Rattle.contraction.specs.Stands.{Among, MeetsKept, GapStandsFor, LoadStandsFor};
ghost use Rattle.contraction.specs.Composing.{Composes, Restricts};

use crate::kept_nodes::KeptNodes;
use crate::merge::merge;
use crate::places::{picked, places_of};
use crate::shared_row::{SharedRow, bonds_at, bonds_of_both};
use crate::value::Contraction;
use ilk_base::Memory;
use station_graph::NodeList;
use std::alloc::Global;

impl Contraction {
    /// The contraction of the items of both together, on the nodes that either keeps.
    ///
    /// It stands for both lists of items where each value keeps every node that its own items touch
    /// and that the other's items touch or the other value keeps. Else a path of the items together
    /// may lead through a common node that neither keeps, and this value says nothing of it. Each view
    /// follows from that view of the two alone.
    ///
    /// Time: the kept nodes, times those that the value with fewer of them joins to others. Memory: the kept nodes.
    pub fn compose(&self, alloc: Global, other: &Contraction) -> Result<Contraction, Memory>
        ensures contraction { IfOk result IsContraction }
        ensures composes { IfOk result (Composes self.now other.now) }
        ensures gap { IfOk result (λ c. (items others : List Item) (d : Diagram) (v : List Bool)
            → MeetsKept (Among items) (Among others) d self.now.kept other.now.kept
            → GapStandsFor (Among items) d v self.now
            → GapStandsFor (Among others) d v other.now
            → GapStandsFor (Among (items ++ others)) d v c) }
        ensures load { IfOk result (λ c. (items others : List Item) (d : Diagram) (v : List Bool)
            → MeetsKept (Among items) (Among others) d self.now.kept other.now.kept
            → LoadStandsFor (Among items) d v self.now
            → LoadStandsFor (Among others) d v other.now
            → LoadStandsFor (Among (items ++ others)) d v c) }
    {
        let union = merge(alloc, self.kept.nodes(), other.kept.nodes())?;
        let gap = SharedRow::of_both(alloc, &union, &self.gap, &other.gap)?;
        let load = SharedRow::of_both(alloc, &union, &self.load, &other.load)?;
        let bonded = bonds_of_both(
            alloc,
            union.kept.len() as u16,
            &union.first,
            self.bonded.numbers(),
            &union.second,
            other.bonded.numbers(),
        )?;
        let kept = KeptNodes::new(alloc, union.kept)?;
        Ok(Contraction {
            kept,
            gap,
            load,
            bonded,
        })
    }

    /// The contraction of the same items on these of its kept nodes, which may be named in any order.
    /// Where they rise, they are its list of kept nodes.
    /// Time: the kept nodes times the nodes. Memory: the nodes.
    pub fn keep_only(&self, alloc: Global, nodes: &NodeList) -> Result<Contraction, Memory>
        requires { (n : ℕ) → Contains nodes.now n → Keeps self.now.kept n }
        ensures contraction { IfOk result IsContraction }
        ensures kept { IfOk result (λ c. (n : ℕ) → Keeps c.kept n ↔ Contains nodes.now n) }
        ensures list { IfOk result (λ c. Rises nodes.now → c.kept ≡ nodes.now) }
        ensures restricts { IfOk result (Restricts self.now) }
        ensures gap { IfOk result (λ c. (items : List Item) (d : Diagram) (v : List Bool)
            → GapStandsFor (Among items) d v self.now → GapStandsFor (Among items) d v c) }
        ensures load { IfOk result (λ c. (items : List Item) (d : Diagram) (v : List Bool)
            → LoadStandsFor (Among items) d v self.now → LoadStandsFor (Among items) d v c) }
    {
        let all = self.kept.nodes();
        let places = places_of(alloc, all, nodes.numbers())?;
        Ok(Contraction {
            kept: KeptNodes::new(alloc, picked(alloc, all, &places)?)?,
            gap: self.gap.at(alloc, &places)?,
            load: self.load.at(alloc, &places)?,
            bonded: bonds_at(alloc, self.bonded.numbers(), &places)?,
        })
    }
}
