//! Blocks as they are kept.
ghost use Rattle.std.specs.Prelude.{◌≡◌, ◌↔◌, [], IsTrue};

use crate::condition::Condition;
use ilk_base::{Op, SwitchId};
use std::alloc::Global;
use std::marker::Model;

/// The most own switches of a block: different switches that its conditions name. So there are at most
/// 2 ^ 12 = 4,096 positions of them.
pub const MOST_OWN: usize = 12;

// An alternative of a block, seen as the list of its conditions.
#[derive(Drop)]
pub(crate) struct Alternative {
    pub(crate) conditions: Vec<Condition>,
}

impl Model for Alternative {
    ghost use Rattle.std.specs.Prelude.{List};
    ghost use Rattle.equation_audit.specs.declared.condition.Condition.{Condition};

    ghost Value = { List Condition };

    ghost view = { λ a. a.conditions.items };
}

// A block, seen as its equation. It keeps its own switches, each once, in the order in which they are
// first named.
#[derive(Drop)]
pub(crate) struct Block {
    pub(crate) op: Op,
    pub(crate) alternatives: Vec<Alternative>,
    pub(crate) own: Vec<SwitchId>,
}

impl Model for Block {
    ghost use Rattle.equation_audit.specs.Equations.{Equation, AreFewOwn};

    ghost Value = { Equation };

    ghost view = { λ b. record { op = b.op; alternatives = b.alternatives.items } };

    ghost invariant = { λ b. AreFewOwn b.alternatives.items b.own.items };
}

impl Block {
    // The block `never` of the operation.
    pub(crate) fn never(alloc: Global, op: Op) -> Block
        ensures { result ≡ record { op = op; alternatives = [] } }
    {
        Block {
            op,
            alternatives: Vec::new(alloc),
            own: Vec::new(alloc),
        }
    }

    // Whether the block is of the operation.
    pub(crate) fn is_of(&self, op: Op) -> bool
        ensures { IsTrue result ↔ (self.now.op ≡ op) }
    {
        self.op == op
    }
}

/// The blocks of a text, seen as the list of their equations. They are made by `read_blocks`.
#[derive(Drop)]
pub struct Blocks {
    pub(crate) blocks: Vec<Block>,
}

impl Model for Blocks {
    ghost use Rattle.std.specs.Prelude.{List};
    ghost use Rattle.equation_audit.specs.Equations.{Equation};

    ghost Value = { List Equation };

    ghost view = { λ b. b.blocks.items };
}
