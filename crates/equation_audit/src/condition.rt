//! A condition of a block.
ghost use Rattle.std.specs.Prelude.{◌≡◌, ◌<◌, ℕ, Bool, List, length, IfOk, IfErr, IfSome, IfNone};
ghost use Rattle.equation_audit.specs.BlockLines.{IsConditionLine, NamesCondition, HasConditionFault};

use ilk_base::SwitchId;
use operation_lines::{LineFault, switch_of_path};
use station_graph::Station;
use text_lines::after;

/// A condition: the switch has this position.
#[derive(Clone, Copy)]
pub struct Condition {
    /// the switch
    pub switch: SwitchId,
    /// whether it is to be closed
    pub closed: bool,
}

// The position and the path of a line `when on PATH` or `when off PATH`.
fn written(line: &[u8]) -> Option<(bool, &[u8])>
    ensures some { IfSome result (λ p. IsConditionLine p.0 p.1.now line.now) }
    ensures none { IfNone result ((closed : Bool) (path : List ℕ) → ¬ IsConditionLine closed path line.now) }
{
    if let Some(path) = after(line, b"when on ") {
        return Some((true, path));
    }
    if let Some(path) = after(line, b"when off ") {
        return Some((false, path));
    }
    None
}

// The condition that the line is. Time: the length of the line.
pub(crate) fn read_condition(station: &Station, line: &[u8]) -> Result<Condition, LineFault>
    ensures ok { IfOk result (NamesCondition station.now line.now) }
    ensures within { IfOk result (λ c. c.switch.0 < length station.now.switches) }
    ensures err { IfErr result (HasConditionFault station.now line.now) }
{
    let Some((closed, path)) = written(line) else {
        return Err(LineFault::Form);
    };
    let Some(switch) = switch_of_path(station, path) else {
        return Err(LineFault::Unknown);
    };
    Ok(Condition { switch, closed })
}
