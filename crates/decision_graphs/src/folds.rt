//! Layers that are folded once for many graphs.
ghost use Rattle.std.specs.Prelude.{IfOk};
ghost use Rattle.decision_graphs.specs.Inside.{IsSharedGraph};
ghost use Rattle.decision_graphs.specs.LaidOut.{lists_in, lists_shared, IsCut};
ghost use Rattle.decision_graphs.specs.Made.{IsReductionOf};
ghost use Rattle.decision_graphs.specs.Whole.{layered_of, IsWhole};

use crate::assemble::reduced;
use crate::known::KnownList;
use crate::layout::{Layout, SharedParts};
use ilk_base::Memory;
use std::alloc::Global;
use std::marker::Model;

/// Layers of graphs that were reduced, by which graphs with the same layers are reduced without hashing of rows. It is
/// emptied where it holds many edges.
#[derive(Drop)]
pub struct Folds {
    list: KnownList,
}

impl Model for Folds {
    ghost use Rattle.std.specs.Prelude.{ℕ, length};

    ghost Value = { ℕ };

    ghost use Rattle.decision_graphs.specs.Alone.{AreKnown};

    ghost view = { λ f. length f.list.layers.items };

    ghost invariant = { λ f. AreKnown f.list.layers.items };
}

impl Folds {
    /// No layers.
    pub fn new(alloc: Global) -> Folds {
        Folds {
            list: KnownList::new(alloc, true),
        }
    }

    // No layers, for one graph alone: none is noted.
    pub(crate) fn none(alloc: Global) -> Folds {
        Folds {
            list: KnownList::new(alloc, false),
        }
    }

    // The graph with nodes of equal edges made one.
    pub(crate) fn reduced(
        &mut self,
        alloc: Global,
        graph: &Layout<'_>,
    ) -> Result<SharedParts, Memory>
        requires whole { IsWhole (lists_in graph.now) }
        requires cut { IsCut graph.now }
        ensures graph { IfOk result IsSharedGraph }
        ensures reduction { IfOk result
            (λ g. IsReductionOf (layered_of (lists_in graph.now)) (layered_of (lists_shared g))) }
    {
        reduced(alloc, &mut self.list, graph)
    }
}
