//! What happens in a station whose breakers may trip, and what is noted of its words.
use bay_protocol::NodeEvent;
use ilk_base::{BayId, Dbpos, SwitchId};
use reservation_core::WorldEvent;

/// The most events that may have been taken before an event: their numbers are 32 bits wide.
pub const EVENTS: u32 = 4_000_000_000;

/// A word, and when it was read.
#[derive(Clone, Copy, PartialEq, Eq)]
pub struct Note {
    /// the word
    pub word: Dbpos,
    /// the number of the event at which it was read; the first is 1
    pub at: u32,
}

/// What may happen next.
#[derive(Clone, Copy, PartialEq, Eq)]
pub enum TripEvent {
    /// what may happen in a station without trips
    Step(WorldEvent),
    /// a breaker opens without a command, and its drive, if it runs, stops
    Trip(SwitchId),
}

// The node that an event concerns, what happens to it, and the place of the message that comes to it.
#[derive(Clone, Copy, PartialEq, Eq)]
pub(crate) struct Task {
    pub(crate) bay: BayId,
    pub(crate) message: usize,
    pub(crate) event: NodeEvent,
}

// What is asked of a node before its step: whose Answer counts, whether it collected a round, and whether it had
// a granted operation.
#[derive(Clone, Copy, PartialEq, Eq)]
pub(crate) struct Learning {
    pub(crate) from: Option<BayId>,
    pub(crate) collected: bool,
    pub(crate) granted: bool,
}
