//! What a line asks of a node.
use bay_protocol::{Kept, NodeEvent};
use ilk_base::Text;

/// The most bytes of a line, without its end.
pub const MOST_LINE: usize = 4_096;

/// What a line asks of a node.
#[derive(Drop)]
pub enum Request {
    /// `kept HEX`: to begin with this record
    Resume(Kept),
    /// to take note of this event, which is no frame
    Event(NodeEvent),
    /// `frame HEX`: to take these bytes, which came from another bay
    Arrival(Text),
}

/// Why a line asks nothing.
#[derive(Clone, Copy, PartialEq, Eq)]
pub enum LineTrouble {
    /// There was not enough memory.
    Memory,
    /// It is no line of the input.
    Refused,
}
