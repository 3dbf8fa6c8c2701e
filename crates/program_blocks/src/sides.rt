//! Whether blocks are on the side of denial.
ghost use Rattle.std.specs.Prelude.{◌≡◌, ℕ, false, IsTrue, slice_get, Some};
ghost use Rattle.structured_text.specs.Reads.{GapReads, OperandReads};
ghost use Rattle.structured_text.specs.Sides.{IsOfThese, IsLoadDenial, IsDenied, IsSided, AreSided};
ghost use Rattle.program_blocks.specs.Sided.{IsOf};
ghost use Rattle.program_blocks.specs.Standing.{AreBlocksSided};

use crate::block::Block;
use structured_text::{Formula, GapDenial, Line, LoadDenial, Name, Operand};

// Whether the variable is one of what is certain, or one of what may be.
fn is_of(certain: bool, name: Name) -> bool
    ensures { IsTrue result → IsOf certain name }
{
    match name {
        Name::May(_) => !certain,
        Name::Sure(_) => certain,
        Name::Off(_) => false,
        Name::On(_) => false,
        Name::Opens(_) => false,
        Name::Closes(_) => false,
    }
}

fn are_both_of(certain: bool, first: Name, second: Name) -> bool
    ensures first { IsTrue result → IsOf certain first }
    ensures second { IsTrue result → IsOf certain second }
{
    is_of(certain, first) && is_of(certain, second)
}

fn is_operand_of(certain: bool, operand: Operand) -> bool
    ensures { IsTrue result → OperandReads (IsOf certain) operand }
{
    match operand {
        Operand::Variable(first) => is_of(certain, first),
        Operand::Product(first, second) => are_both_of(certain, first, second),
        Operand::Sum(first, second) => are_both_of(certain, first, second),
    }
}

// Whether the formula has no NOT but of contacts, and reads such variables alone.
fn is_formula_of(certain: bool, formula: Formula) -> bool
    ensures { IsTrue result → IsOfThese (IsOf certain) formula }
{
    match formula {
        Formula::Always => true,
        Formula::Never => true,
        Formula::MayBeClosed(_) => true,
        Formula::IsClosed(_) => true,
        Formula::Both(first, second) => {
            is_operand_of(certain, first) && is_operand_of(certain, second)
        }
        Formula::Either(first, second) => {
            is_operand_of(certain, first) && is_operand_of(certain, second)
        }
        Formula::Apart(_) => false,
        Formula::Unloaded(_) => false,
        Formula::Released(_, _) => false,
    }
}

fn is_gap_denial(gap: GapDenial) -> bool
    ensures { IsTrue result → GapReads (IsOf false) gap }
{
    match gap {
        GapDenial::One(first) => is_of(false, first),
        GapDenial::Two(first, second) => are_both_of(false, first, second),
    }
}

fn is_load_denial(load: LoadDenial) -> bool
    ensures { IsTrue result → IsLoadDenial load }
{
    match load {
        LoadDenial::Loaded(first, second) => are_both_of(false, first, second),
        LoadDenial::Unbonded(first, second, third) => {
            are_both_of(false, first, second) && is_of(true, third)
        }
    }
}

// Whether the formula is TRUE but for what is denied.
fn is_denied(formula: Formula) -> bool
    ensures { IsTrue result → IsDenied formula }
{
    match formula {
        Formula::Always => true,
        Formula::Never => true,
        Formula::MayBeClosed(_) => false,
        Formula::IsClosed(_) => false,
        Formula::Both(_, _) => false,
        Formula::Either(_, _) => false,
        Formula::Apart(gap) => is_gap_denial(gap),
        Formula::Unloaded(load) => is_load_denial(load),
        Formula::Released(gap, load) => is_gap_denial(gap) && is_load_denial(load),
    }
}

fn is_sided(line: Line) -> bool
    ensures { IsTrue result → IsSided line.name line.formula }
{
    match line.name {
        Name::May(_) => is_formula_of(false, line.formula),
        Name::Sure(_) => is_formula_of(true, line.formula),
        Name::Opens(_) => is_denied(line.formula),
        Name::Closes(_) => is_denied(line.formula),
        Name::Off(_) => false,
        Name::On(_) => false,
    }
}

fn are_lines_sided(lines: &[Line]) -> bool
    ensures { IsTrue result → AreSided lines.now }
{
    for line in lines {
        if !is_sided(*line) {
            return false;
        }
    }
    true
}

/// Whether the lines of each block are on the side of denial.
pub(crate) fn are_blocks_sided(blocks: &[Block]) -> bool
    ensures { IsTrue result → AreBlocksSided blocks.now }
{
    for block in blocks {
        if !are_lines_sided(&block.lines) {
            return false;
        }
    }
    true
}
