//! To which label the choices lead from the nodes of a walk, and what it is worth to flip them one at a time, noted once
//! for each node that is asked.

use crate::flips::{Worth, turned_worth, worth_at};
use crate::paths::{Paths, is_closed, number_at};
use ilk_base::Memory;
use std::alloc::Global;

// A choice for each layer of a walk.
#[derive(Clone, Copy)]
pub(crate) struct Choices<'a> {
    pub(crate) paths: &'a Paths,
    pub(crate) closed: &'a [bool],
}

impl Choices<'_> {
    // Where the choice leads from a node before a layer.
    pub(crate) fn next(&self, layer: u16, node: u32) -> u32 {
        self.paths.next(node, is_closed(self.closed, layer))
    }

    // Where the other choice leads.
    pub(crate) fn flipped(&self, layer: u16, node: u32) -> u32 {
        self.paths.next(node, !is_closed(self.closed, layer))
    }
}

// A number that was noted in a round.
#[derive(Clone, Copy)]
struct Noted {
    round: u32,
    number: u32,
}

// Nothing was noted: the rounds count from 1.
const NEVER: Noted = Noted {
    round: 0,
    number: 0,
};

// For each node to which label the choices lead from it, and what it is worth to flip the choices behind it, one at a time,
// where that was asked in this round. In a round the choices behind a node that was asked stay as they are.
#[derive(Drop)]
pub(crate) struct Told {
    round: u32,
    labels: Vec<Noted>,
    worths: Vec<Noted>,
    // the nodes that were passed on the way to a label, and to a worth, by layer
    passed: Vec<u32>,
    way: Vec<u32>,
}

// The number that was noted for a node in this round.
fn find(notes: &[Noted], round: u32, node: u32) -> Option<u32> {
    let place = node as usize;
    if place < notes.len() && notes[place].round == round {
        Some(notes[place].number)
    } else {
        None
    }
}

// Notes a number for a node.
fn put(notes: &mut Vec<Noted>, round: u32, node: u32, number: u32) {
    let place = node as usize;
    if place < notes.len() {
        notes[place] = Noted { round, number };
    }
}

// Writes the node that was passed before a layer.
fn pass(nodes: &mut Vec<u32>, layer: u16, node: u32) {
    let place = usize::from(layer);
    if place < nodes.len() {
        nodes[place] = node;
    }
}

impl Told {
    // Without room for a walk.
    pub(crate) fn new(alloc: Global) -> Told {
        Told {
            round: 0,
            labels: Vec::new(alloc),
            worths: Vec::new(alloc),
            passed: Vec::new(alloc),
            way: Vec::new(alloc),
        }
    }

    // Begins a round, with room for this walk.
    pub(crate) fn begin(&mut self, paths: &Paths) -> Result<(), Memory> {
        self.round = self.round.wrapping_add(1);
        if self.labels.len() < paths.nodes() {
            self.labels.resize(paths.nodes(), NEVER)?;
            self.worths.resize(paths.nodes(), NEVER)?;
        }
        let layers = usize::from(paths.layers());
        if self.way.len() < layers {
            self.passed.resize(layers, 0)?;
            self.way.resize(layers, 0)?;
        }
        Ok(())
    }

    // Follows the choices from a node before a layer: up to which layer, and to which label they lead.
    fn follow(&mut self, choices: Choices<'_>, layer: u16, node: u32) -> (u16, u32) {
        let mut here = node;
        for at in layer..choices.paths.layers() {
            if let Some(label) = find(&self.labels, self.round, here) {
                return (at, label);
            }
            pass(&mut self.passed, at, here);
            here = choices.next(at, here);
        }
        (choices.paths.layers(), here)
    }

    // To which label the choices lead from a node before a layer.
    pub(crate) fn label(&mut self, choices: Choices<'_>, layer: u16, node: u32) -> u32 {
        let (end, label) = self.follow(choices, layer, node);
        for at in layer..end {
            let passed = number_at(&self.passed, usize::from(at));
            put(&mut self.labels, self.round, passed, label);
        }
        label
    }

    // What it is worth to flip the choice of this layer at a node before it, from which the choices lead to this label.
    fn worth_here(
        &mut self,
        choices: Choices<'_>,
        worth: Worth,
        layer: u16,
        node: u32,
        label: u32,
    ) -> u32 {
        if worth.is_nothing() {
            return 0;
        }
        let flipped = choices.flipped(layer, node);
        let other = self.label(choices, layer.saturating_add(1), flipped);
        turned_worth(choices.paths.told(label), choices.paths.told(other), worth)
    }

    // Follows the choices from a node before a layer: up to which layer, and what is noted there.
    fn trace(&mut self, choices: Choices<'_>, layer: u16, node: u32) -> (u16, u32) {
        let mut here = node;
        for at in layer..choices.paths.layers() {
            if let Some(worth) = find(&self.worths, self.round, here) {
                return (at, worth);
            }
            pass(&mut self.way, at, here);
            here = choices.next(at, here);
        }
        (choices.paths.layers(), 0)
    }

    // What it is worth to flip the choices from a node before a layer on, one at a time.
    pub(crate) fn worth(
        &mut self,
        choices: Choices<'_>,
        worths: &[Worth],
        layer: u16,
        node: u32,
    ) -> u32 {
        let label = self.label(choices, layer, node);
        let (end, noted) = self.trace(choices, layer, node);
        let mut sum = noted;
        for at in (layer..end).rev() {
            let here = number_at(&self.way, usize::from(at));
            let worth = worth_at(worths, at);
            sum = sum.saturating_add(self.worth_here(choices, worth, at, here, label));
            put(&mut self.worths, self.round, here, sum);
        }
        sum
    }
}
