//! Whether steps stand for lines.
ghost use Rattle.std.specs.Prelude.{◌≡◌, ◌++◌, ◌∷◌, IsTrue, IfSome, slice_get, map, drop};
ghost use Rattle.structured_text.specs.declared.line.Line.{Line as OfLine};
ghost use Rattle.program_blocks.specs.Calls.{bare, call_lines, step_lines, unfolded};
ghost use Rattle.program_blocks.specs.Renaming.{outer_line};

use crate::block::{Block, BlockCall, Step};
use crate::renaming::outer_line;
use crate::sameness::are_same;
use structured_text::Line;

// The place in the lines behind those for which a block stands, from a place on.
fn behind_block(call: &BlockCall, inner: &[Line], lines: &[Line], from: usize) -> Option<usize>
    ensures { IfSome result (λ next. map (λ (x : OfLine). bare x) (drop from lines.now)
        ≡ map (λ (x : OfLine). outer_line call.now x) inner.now ++ map (λ (x : OfLine). bare x) (drop next lines.now)) }
{
    let mut next = from;
    for line in inner {
        if next >= lines.len() {
            return None;
        }
        if !are_same(outer_line(call, *line), lines[next]) {
            return None;
        }
        next += 1;
    }
    Some(next)
}

// The place behind a line.
fn behind_line(line: Line, lines: &[Line], from: usize) -> Option<usize>
    ensures { IfSome result (λ next. map (λ (x : OfLine). bare x) (drop from lines.now)
        ≡ bare line ∷ map (λ (x : OfLine). bare x) (drop next lines.now)) }
{
    if from >= lines.len() {
        return None;
    }
    if !are_same(line, lines[from]) {
        return None;
    }
    Some(from + 1)
}

// The place behind those for which a call stands.
fn behind_call(blocks: &[Block], call: &BlockCall, lines: &[Line], from: usize) -> Option<usize>
    ensures { IfSome result (λ next. map (λ (x : OfLine). bare x) (drop from lines.now)
        ≡ call_lines call.now (slice_get blocks.now call.now.block)
        ++ map (λ (x : OfLine). bare x) (drop next lines.now)) }
{
    match blocks.get(call.block) {
        None => None,
        Some(block) => behind_block(call, &block.lines, lines, from),
    }
}

// The place behind those for which a step stands.
fn behind_step(blocks: &[Block], step: &Step, lines: &[Line], from: usize) -> Option<usize>
    ensures { IfSome result (λ next. map (λ (x : OfLine). bare x) (drop from lines.now)
        ≡ step_lines blocks.now step.now ++ map (λ (x : OfLine). bare x) (drop next lines.now)) }
{
    match step {
        Step::Assign(line) => behind_line(*line, lines, from),
        Step::Call(call) => behind_call(blocks, call, lines, from),
    }
}

/// Whether the steps stand for the lines, in order.
pub(crate) fn unfold_to(blocks: &[Block], steps: &[Step], lines: &[Line]) -> bool
    ensures { IsTrue result → unfolded blocks.now steps.now ≡ map (λ (x : OfLine). bare x) lines.now }
{
    let mut next = 0;
    for step in steps {
        match behind_step(blocks, step, lines, next) {
            None => return false,
            Some(behind) => next = behind,
        }
    }
    next == lines.len()
}

/// Whether the block stands for these lines and no others, at the call.
pub fn are_all_same(call: &BlockCall, inner: &[Line], lines: &[Line]) -> bool {
    match behind_block(call, inner, lines, 0) {
        None => false,
        Some(behind) => behind == lines.len(),
    }
}
