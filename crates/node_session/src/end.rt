//! How a session ends.

/// The most lines of an input.
pub const MOST_LINES: u32 = 1_000_000;

/// How a session ends.
#[derive(Clone, Copy, PartialEq, Eq)]
pub enum SessionEnd {
    /// all lines are answered
    Done,
    /// the line is no line of an input, and those before it are answered
    Refused {
        /// its number, from 1
        line: u32,
    },
    /// as many lines as an input may have are answered, and there are more
    Long,
    /// the input failed
    ReadFault,
    /// the output failed
    WriteFault,
    /// there was not enough memory
    Memory,
}
