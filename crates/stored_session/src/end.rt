//! How a stored session ends.
ghost use Rattle.std.specs.Prelude.{◌<◌};
ghost use Rattle.node_session.specs.declared.end.TheConstants.{MOST_LINES};
ghost use Rattle.stored_session.specs.Progress.{IsEndAt};

use crate::line::LineEnd;
use node_session::MOST_LINES;

/// How a stored session ends.
#[derive(Clone, Copy, PartialEq, Eq)]
pub enum StoredEnd {
    /// all lines are answered
    Done,
    /// the device holds no record that a node of the bay may keep
    Unfit,
    /// the line is no line of the input, and those before it are answered
    Refused {
        /// its number, from 1
        line: u32,
    },
    /// as many lines as an input may have are answered, and there are more
    Long,
    /// the input failed, or a read of the device
    ReadFault,
    /// the output failed, or a write or a sync of the device
    WriteFault,
    /// there was not enough memory
    Memory,
}

// How a session ends whose line is not answered, before which so many are.
pub(crate) fn end_at(count: u32, end: LineEnd) -> StoredEnd
    requires { count < MOST_LINES }
    ensures { IsEndAt count end result }
{
    match end {
        LineEnd::Memory => StoredEnd::Memory,
        LineEnd::Refused => StoredEnd::Refused { line: count + 1 },
        LineEnd::StoreFailed | LineEnd::OutFailed => StoredEnd::WriteFault,
    }
}
