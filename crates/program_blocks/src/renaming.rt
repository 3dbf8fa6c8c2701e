//! What a block says in the variables of the program.
ghost use Rattle.std.specs.Prelude.{◌≡◌};
ghost use Rattle.program_blocks.specs.Renaming.{switch_at, outer, outer_gap, outer_load, outer_operand, outer_formula, outer_line};

use crate::block::BlockCall;
use ilk_base::SwitchId;
use structured_text::{Formula, GapDenial, Line, LoadDenial, Name, Operand};

// The switch of a call's bay.
fn switch_at(call: &BlockCall, id: SwitchId) -> SwitchId
    ensures { result ≡ switch_at call.now id }
{
    let number = u32::from(id.0) + u32::from(call.shift);
    if number < 65536 {
        SwitchId(number as u16)
    } else {
        id
    }
}

/// The variable of the program.
pub fn outer(call: &BlockCall, name: Name) -> Name
    ensures { result ≡ outer call.now name }
{
    match name {
        Name::Off(id) => Name::Off(switch_at(call, id)),
        Name::On(id) => Name::On(switch_at(call, id)),
        Name::May(number) => Name::May(call.may.get(number).copied().unwrap_or(0)),
        Name::Sure(number) => Name::Sure(call.sure.get(number).copied().unwrap_or(0)),
        Name::Opens(id) => Name::Opens(switch_at(call, id)),
        Name::Closes(id) => Name::Closes(switch_at(call, id)),
    }
}

fn outer_gap(call: &BlockCall, gap: GapDenial) -> GapDenial
    ensures { result ≡ outer_gap call.now gap }
{
    match gap {
        GapDenial::One(first) => GapDenial::One(outer(call, first)),
        GapDenial::Two(first, second) => GapDenial::Two(outer(call, first), outer(call, second)),
    }
}

fn outer_load(call: &BlockCall, load: LoadDenial) -> LoadDenial
    ensures { result ≡ outer_load call.now load }
{
    match load {
        LoadDenial::Loaded(first, second) => {
            LoadDenial::Loaded(outer(call, first), outer(call, second))
        }
        LoadDenial::Unbonded(first, second, third) => {
            LoadDenial::Unbonded(outer(call, first), outer(call, second), outer(call, third))
        }
    }
}

fn outer_operand(call: &BlockCall, operand: Operand) -> Operand
    ensures { result ≡ outer_operand call.now operand }
{
    match operand {
        Operand::Variable(first) => Operand::Variable(outer(call, first)),
        Operand::Product(first, second) => {
            Operand::Product(outer(call, first), outer(call, second))
        }
        Operand::Sum(first, second) => Operand::Sum(outer(call, first), outer(call, second)),
    }
}

fn outer_formula(call: &BlockCall, formula: Formula) -> Formula
    ensures { result ≡ outer_formula call.now formula }
{
    match formula {
        Formula::Always => Formula::Always,
        Formula::Never => Formula::Never,
        Formula::MayBeClosed(id) => Formula::MayBeClosed(switch_at(call, id)),
        Formula::IsClosed(id) => Formula::IsClosed(switch_at(call, id)),
        Formula::Both(first, second) => {
            Formula::Both(outer_operand(call, first), outer_operand(call, second))
        }
        Formula::Either(first, second) => {
            Formula::Either(outer_operand(call, first), outer_operand(call, second))
        }
        Formula::Apart(gap) => Formula::Apart(outer_gap(call, gap)),
        Formula::Unloaded(load) => Formula::Unloaded(outer_load(call, load)),
        Formula::Released(gap, load) => {
            Formula::Released(outer_gap(call, gap), outer_load(call, load))
        }
    }
}

/// The line of the program for which a line of the block stands.
pub fn outer_line(call: &BlockCall, line: Line) -> Line
    ensures { result ≡ outer_line call.now line }
{
    Line {
        heading: None,
        name: outer(call, line.name),
        formula: outer_formula(call, line.formula),
    }
}
