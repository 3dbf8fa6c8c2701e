//! Flips of single switches, followed along the edges of a walk all at once: those that lead to one node go on as one.

use crate::paths::{Paths, Released, number_at};
use crate::told::{Choices, Told};
use ilk_base::Memory;
use std::alloc::Global;

// What it counts that a switch turns opening, and closing; 0 where that is shown already.
#[derive(Clone, Copy)]
pub(crate) struct Worth {
    pub(crate) open: u32,
    pub(crate) close: u32,
}

// Nothing is counted.
pub(crate) const NOTHING: Worth = Worth { open: 0, close: 0 };

impl Worth {
    // Whether nothing is counted.
    pub(crate) fn is_nothing(self) -> bool {
        self.open == 0 && self.close == 0
    }
}

// What both count together.
fn both(one: Worth, other: Worth) -> Worth {
    Worth {
        open: one.open.saturating_add(other.open),
        close: one.close.saturating_add(other.close),
    }
}

// The flips that lead to a node, or behind the last layer to a label.
#[derive(Clone, Copy)]
struct Flips {
    node: u32,
    worth: Worth,
}

// Flips by the nodes of a layer to which they lead; those that lead where no flip leads count nothing.
#[derive(Drop)]
pub(crate) struct Sweep {
    // the first so many are there
    count: u32,
    flips: Vec<Flips>,
    // for each node where its flips may stand, or may have stood
    seats: Vec<u32>,
}

// What it is worth that the switch of a layer turns the operations.
pub(crate) fn worth_at(worths: &[Worth], layer: u16) -> Worth {
    if usize::from(layer) < worths.len() {
        worths[usize::from(layer)]
    } else {
        NOTHING
    }
}

// What it is worth that a label stands where the other stood.
pub(crate) fn turned_worth(base: Released, other: Released, worth: Worth) -> u32 {
    let open = if base.open == other.open {
        0
    } else {
        worth.open
    };
    let close = if base.close == other.close {
        0
    } else {
        worth.close
    };
    open.saturating_add(close)
}

impl Sweep {
    // None, without room.
    pub(crate) fn new(alloc: Global) -> Sweep {
        Sweep {
            count: 0,
            flips: Vec::new(alloc),
            seats: Vec::new(alloc),
        }
    }

    // Takes all out, and makes room for a flip of each layer of this walk.
    pub(crate) fn begin(&mut self, paths: &Paths) -> Result<(), Memory> {
        self.count = 0;
        let layers = usize::from(paths.layers());
        if self.flips.len() < layers {
            let none = Flips {
                node: 0,
                worth: NOTHING,
            };
            self.flips.resize(layers, none)?;
        }
        if self.seats.len() < paths.nodes() {
            self.seats.resize(paths.nodes(), 0)?;
        }
        Ok(())
    }

    // Puts in flips that lead to a node, to which none leads yet.
    fn put(&mut self, node: u32, worth: Worth) {
        let place = self.count as usize;
        if place < self.flips.len() {
            self.flips[place] = Flips { node, worth };
            if (node as usize) < self.seats.len() {
                self.seats[node as usize] = self.count;
            }
            self.count = self.count.saturating_add(1);
        }
    }

    // Adds flips that lead to a node, where another leads without a flip.
    pub(crate) fn add(&mut self, node: u32, unflipped: u32, worth: Worth) {
        if node == unflipped || worth.is_nothing() {
            return;
        }
        let seat = number_at(&self.seats, node as usize);
        let place = seat as usize;
        if seat < self.count && place < self.flips.len() && self.flips[place].node == node {
            self.flips[place].worth = both(self.flips[place].worth, worth);
        } else {
            self.put(node, worth);
        }
    }

    // Follows all by a layer's choice, which leads to this node without a flip.
    pub(crate) fn pass(&mut self, paths: &Paths, closed: bool, unflipped: u32) {
        let count = self.count;
        self.count = 0;
        for k in 0..count {
            if (k as usize) < self.flips.len() {
                let flips = self.flips[k as usize];
                self.add(paths.next(flips.node, closed), unflipped, flips.worth);
            }
        }
    }

    // What it is worth that flips turn what this label says, where all take this choice in a layer.
    pub(crate) fn turned(
        &self,
        told: &mut Told,
        choices: Choices<'_>,
        layer: u16,
        closed: bool,
        label: u32,
    ) -> u32 {
        let behind = layer.saturating_add(1);
        let base = choices.paths.told(label);
        let mut sum = 0u32;
        for k in 0..self.count {
            if (k as usize) < self.flips.len() {
                let flips = self.flips[k as usize];
                let next = choices.paths.next(flips.node, closed);
                let other = choices.paths.told(told.label(choices, behind, next));
                sum = sum.saturating_add(turned_worth(base, other, flips.worth));
            }
        }
        sum
    }
}
