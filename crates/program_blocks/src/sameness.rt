//! Whether two lines are the same.
ghost use Rattle.std.specs.Prelude.{◌≡◌, IsTrue};
ghost use Rattle.program_blocks.specs.Calls.{bare};

use structured_text::{Formula, GapDenial, Line, LoadDenial, Name, Operand};

fn same_two(first: Name, second: Name, third: Name, fourth: Name) -> bool
    ensures one { IsTrue result → first ≡ third }
    ensures two { IsTrue result → second ≡ fourth }
{
    first == third && second == fourth
}

fn same_gap(first: GapDenial, second: GapDenial) -> bool
    ensures { IsTrue result → first ≡ second }
{
    match first {
        GapDenial::One(a) => match second {
            GapDenial::One(b) => a == b,
            GapDenial::Two(_, _) => false,
        },
        GapDenial::Two(a, b) => match second {
            GapDenial::One(_) => false,
            GapDenial::Two(c, d) => same_two(a, b, c, d),
        },
    }
}

fn same_load(first: LoadDenial, second: LoadDenial) -> bool
    ensures { IsTrue result → first ≡ second }
{
    match first {
        LoadDenial::Loaded(a, b) => match second {
            LoadDenial::Loaded(c, d) => same_two(a, b, c, d),
            LoadDenial::Unbonded(_, _, _) => false,
        },
        LoadDenial::Unbonded(a, b, e) => match second {
            LoadDenial::Loaded(_, _) => false,
            LoadDenial::Unbonded(c, d, f) => same_two(a, b, c, d) && e == f,
        },
    }
}

fn same_operand(first: Operand, second: Operand) -> bool
    ensures { IsTrue result → first ≡ second }
{
    match first {
        Operand::Variable(a) => match second {
            Operand::Variable(b) => a == b,
            _ => false,
        },
        Operand::Product(a, b) => match second {
            Operand::Product(c, d) => same_two(a, b, c, d),
            _ => false,
        },
        Operand::Sum(a, b) => match second {
            Operand::Sum(c, d) => same_two(a, b, c, d),
            _ => false,
        },
    }
}

fn same_formula(first: Formula, second: Formula) -> bool
    ensures { IsTrue result → first ≡ second }
{
    match first {
        Formula::Always => match second {
            Formula::Always => true,
            _ => false,
        },
        Formula::Never => match second {
            Formula::Never => true,
            _ => false,
        },
        Formula::MayBeClosed(a) => match second {
            Formula::MayBeClosed(b) => a == b,
            _ => false,
        },
        Formula::IsClosed(a) => match second {
            Formula::IsClosed(b) => a == b,
            _ => false,
        },
        Formula::Both(a, b) => match second {
            Formula::Both(c, d) => same_operand(a, c) && same_operand(b, d),
            _ => false,
        },
        Formula::Either(a, b) => match second {
            Formula::Either(c, d) => same_operand(a, c) && same_operand(b, d),
            _ => false,
        },
        Formula::Apart(a) => match second {
            Formula::Apart(b) => same_gap(a, b),
            _ => false,
        },
        Formula::Unloaded(a) => match second {
            Formula::Unloaded(b) => same_load(a, b),
            _ => false,
        },
        Formula::Released(a, b) => match second {
            Formula::Released(c, d) => same_gap(a, c) && same_load(b, d),
            _ => false,
        },
    }
}

/// Whether the lines set the same variable to the same formula, whatever their comments are.
pub(crate) fn are_same(first: Line, second: Line) -> bool
    ensures { IsTrue result → bare first ≡ bare second }
{
    same_formula(first.formula, second.formula) && first.name == second.name
}
