//! What the lines of a text define: the steps of parts and the nodes whose lines begin there.
ghost use Rattle.std.specs.Prelude.{◌≡◌, ◌≢◌, ◌++◌, List, ℕ, IfOk, IfSome, IfNone};
ghost use Rattle.equation_text.specs.Faults.{step_of, node_of, head_of};
ghost use Rattle.equation_text.specs.Entries.{has_entry, entry_in, IsEntry32, Defines, AddsLine, AreDefined};

use crate::words::{behind, cut_line, cut_word};
use ilk_base::Memory;
use std::alloc::Global;
use std::collections::BTreeSet;
use text_lines::decimal_number;

// A step of a part.
#[derive(Clone, Copy, PartialEq, Eq, PartialOrd, Ord)]
pub(crate) struct Step {
    pub(crate) part: u32,
    pub(crate) number: u32,
}

// What numbers count: the steps of a part, or the nodes.
#[derive(Clone, Copy)]
pub(crate) enum Kind {
    StepsOf { part: u32 },
    Nodes,
}

// The steps and the nodes that lines define.
#[derive(Drop)]
pub(crate) struct Entries {
    pub(crate) steps: BTreeSet<Step>,
    pub(crate) nodes: BTreeSet<u32>,
}

impl Entries {
    // Whether the step or node of this number is there.
    pub(crate) fn has(&self, kind: Kind, number: u32) -> bool
        ensures { result ≡ has_entry self.now (entry_in kind number) }
    {
        match kind {
            Kind::StepsOf { part } => self.steps.contains(&Step { part, number }),
            Kind::Nodes => self.nodes.contains(&number),
        }
    }
}

// The step whose line begins so.
fn step_begun(line: &[u8]) -> Option<Step>
    ensures some { IfSome result (λ s. Defines line.now (step_of s.part s.number)) }
    ensures none { IfNone result ((p m : ℕ) (rest : List ℕ) → IsEntry32 (step_of p m)
        → line.now ≢ head_of (step_of p m) ++ rest) }
{
    let Some(words) = behind(line, b"step ") else {
        return None;
    };
    let Some((first, rest)) = cut_word(words) else {
        return None;
    };
    let Some(part) = decimal_number(first) else {
        return None;
    };
    let Some((second, _rest)) = cut_word(rest) else {
        return None;
    };
    let Some(number) = decimal_number(second) else {
        return None;
    };
    Some(Step { part, number })
}

// The node whose line begins so.
fn node_begun(line: &[u8]) -> Option<u32>
    ensures some { IfSome result (λ n. Defines line.now (node_of n)) }
    ensures none { IfNone result ((n : ℕ) (rest : List ℕ) → IsEntry32 (node_of n)
        → line.now ≢ head_of (node_of n) ++ rest) }
{
    let Some(words) = behind(line, b"node ") else {
        return None;
    };
    let Some((word, _rest)) = cut_word(words) else {
        return None;
    };
    let Some(number) = decimal_number(word) else {
        return None;
    };
    Some(number)
}

// Keeps what the line defines.
fn keep(entries: &mut Entries, line: &[u8]) -> Result<(), Memory>
    ensures { IfOk result (λ _. AddsLine line.now (has_entry entries.old) (has_entry entries.new)) }
{
    if let Some(step) = step_begun(line) {
        entries.steps.insert(step)?;
        return Ok(());
    }
    let Some(node) = node_begun(line) else {
        return Ok(());
    };
    entries.nodes.insert(node)?;
    Ok(())
}

// All that lines of the text define; what stands behind its last LF counts as a line.
pub(crate) fn entries_of(alloc: Global, text: &[u8]) -> Result<Entries, Memory>
    ensures { IfOk result (λ e. AreDefined text.now (has_entry e)) }
{
    let mut entries = Entries {
        steps: BTreeSet::new(alloc),
        nodes: BTreeSet::new(alloc),
    };
    let mut left = text;
    while let Some((line, rest)) = cut_line(left) {
        keep(&mut entries, line)?;
        left = rest;
    }
    keep(&mut entries, left)?;
    Ok(entries)
}
