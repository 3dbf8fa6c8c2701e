//! Lines `open PATH` and `close PATH`.
ghost use Rattle.std.specs.Prelude.{◌≡◌, ◌<◌, length, ℕ, List, IfOk, IfErr, IfSome, IfNone};
ghost use Rattle.ilk_base.specs.declared.words.Direction.{Direction as Way};
ghost use Rattle.operation_lines.specs.OperationLines.{IsOperationLine, NamesOperation, HasFault, fault_number};

use crate::path::switch_of_path;
use ilk_base::{Direction, Op};
use station_graph::Station;
use text_lines::after;

/// Why a line names no operation of the station.
#[derive(Clone, Copy, PartialEq, Eq)]
pub enum LineFault {
    /// It is not `open PATH` or `close PATH`, or its path is empty.
    Form,
    /// No switch has its path.
    Unknown,
}

impl LineFault {
    /// The number of the fault among the refusals of inputs: 10 or 2.
    pub fn number(self) -> u8
        ensures { result ≡ fault_number self }
    {
        match self {
            LineFault::Form => 10,
            LineFault::Unknown => 2,
        }
    }
}

// The direction and the path of a line.
fn written(line: &[u8]) -> Option<(Direction, &[u8])>
    ensures some { IfSome result (λ p. IsOperationLine p.0 p.1.now line.now) }
    ensures none { IfNone result ((direction : Way) (path : List ℕ) → ¬ IsOperationLine direction path line.now) }
{
    if let Some(path) = after(line, b"open ") {
        return Some((Direction::ToOff, path));
    }
    if let Some(path) = after(line, b"close ") {
        return Some((Direction::ToOn, path));
    }
    None
}

/// The operation that the line names. Time: the length of the line.
pub fn read_operation(station: &Station, line: &[u8]) -> Result<Op, LineFault>
    ensures ok { IfOk result (NamesOperation station.now line.now) }
    ensures within { IfOk result (λ op. op.switch.0 < length station.now.switches) }
    ensures err { IfErr result (HasFault station.now line.now) }
{
    let Some((direction, path)) = written(line) else {
        return Err(LineFault::Form);
    };
    let Some(switch) = switch_of_path(station, path) else {
        return Err(LineFault::Unknown);
    };
    Ok(Op { switch, direction })
}
