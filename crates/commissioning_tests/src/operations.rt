//! The operations of a bay.
ghost use Rattle.std.specs.Prelude.{◌≡◌, ◌+◌, ◌<◌, ◌^◌, Some, slice_get, IfOk};
ghost use Rattle.commissioning_tests.specs.Growing.{IsOperationWalk};
ghost use Rattle.commissioning_tests.specs.Listed.{operations_from};

use crate::walked::OperationWalk;
use ilk_base::{Direction, Memory, Op, SwitchId};
use std::alloc::Global;

// To move a switch in a direction.
pub(crate) fn operation(switch: SwitchId, direction: Direction) -> Op
    ensures { result ≡ record { switch = switch; direction = direction } }
{
    Op { switch, direction }
}

// The operations of so many switches, from this one on.
pub(crate) fn operations_of(alloc: Global, first: SwitchId, count: u16) -> Result<Vec<Op>, Memory>
    requires { first.0 + count < 2 ^ 16 }
    ensures { IfOk result (λ v. v.items ≡ operations_from first.0 count) }
{
    let mut operations = Vec::new(alloc);
    for i in 0..count {
        let switch = SwitchId(first.0 + i);
        operations.push(operation(switch, Direction::ToOff))?;
        operations.push(operation(switch, Direction::ToOn))?;
    }
    Ok(operations)
}

// The operation of a walk.
pub(crate) fn operation_of(walked: &OperationWalk<'_>) -> Op
    requires { IsOperationWalk walked.now }
    ensures { slice_get walked.now.operations.now walked.now.number ≡ Some result }
{
    walked.operations[walked.number]
}
