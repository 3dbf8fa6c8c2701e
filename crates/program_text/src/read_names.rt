//! The variables that a formula reads.
ghost use Rattle.std.specs.Prelude.{◌≡◌, ◌++◌, [], ◌∷◌, OnOk, IfOk};
ghost use Rattle.program_text.specs.ReadNames.{gap_names, load_names, operand_names, formula_names};

use ilk_base::Memory;
use std::alloc::Global;
use structured_text::{Formula, GapDenial, LoadDenial, Name, Operand};

// Appends two variables.
fn push_two(names: &mut Vec<Name>, first: Name, second: Name) -> Result<(), Memory>
    ensures { OnOk result (names.new.items ≡ names.old.items ++ first ∷ second ∷ []) }
{
    names.push(first)?;
    names.push(second)?;
    Ok(())
}

fn push_gap(names: &mut Vec<Name>, gap: GapDenial) -> Result<(), Memory>
    ensures { OnOk result (names.new.items ≡ names.old.items ++ gap_names gap) }
{
    match gap {
        GapDenial::One(first) => {
            names.push(first)?;
            Ok(())
        }
        GapDenial::Two(first, second) => push_two(names, first, second),
    }
}

fn push_load(names: &mut Vec<Name>, load: LoadDenial) -> Result<(), Memory>
    ensures { OnOk result (names.new.items ≡ names.old.items ++ load_names load) }
{
    match load {
        LoadDenial::Loaded(first, second) => push_two(names, first, second),
        LoadDenial::Unbonded(first, second, third) => {
            push_two(names, first, second)?;
            names.push(third)?;
            Ok(())
        }
    }
}

fn push_operand(names: &mut Vec<Name>, operand: Operand) -> Result<(), Memory>
    ensures { OnOk result (names.new.items ≡ names.old.items ++ operand_names operand) }
{
    match operand {
        Operand::Variable(first) => {
            names.push(first)?;
            Ok(())
        }
        Operand::Product(first, second) => push_two(names, first, second),
        Operand::Sum(first, second) => push_two(names, first, second),
    }
}

fn push_sides(names: &mut Vec<Name>, first: Operand, second: Operand) -> Result<(), Memory>
    ensures { OnOk result
        (names.new.items ≡ names.old.items ++ (operand_names first ++ operand_names second)) }
{
    push_operand(names, first)?;
    push_operand(names, second)
}

fn push_denials(names: &mut Vec<Name>, gap: GapDenial, load: LoadDenial) -> Result<(), Memory>
    ensures { OnOk result (names.new.items ≡ names.old.items ++ (gap_names gap ++ load_names load)) }
{
    push_gap(names, gap)?;
    push_load(names, load)
}

/// Appends the variables that a formula reads.
pub(crate) fn push_formula(names: &mut Vec<Name>, formula: Formula) -> Result<(), Memory>
    ensures { OnOk result (names.new.items ≡ names.old.items ++ formula_names formula) }
{
    match formula {
        Formula::Always => Ok(()),
        Formula::Never => Ok(()),
        Formula::MayBeClosed(id) => push_two(names, Name::Off(id), Name::On(id)),
        Formula::IsClosed(id) => push_two(names, Name::Off(id), Name::On(id)),
        Formula::Both(first, second) => push_sides(names, first, second),
        Formula::Either(first, second) => push_sides(names, first, second),
        Formula::Apart(gap) => push_gap(names, gap),
        Formula::Unloaded(load) => push_load(names, load),
        Formula::Released(gap, load) => push_denials(names, gap, load),
    }
}

/// The variables that a formula reads: five at most.
pub(crate) fn names_of(alloc: Global, formula: Formula) -> Result<Vec<Name>, Memory>
    ensures { IfOk result (λ r. r.items ≡ formula_names formula) }
{
    let mut names = Vec::new(alloc);
    push_formula(&mut names, formula)?;
    Ok(names)
}
