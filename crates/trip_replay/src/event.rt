//! What a log with trips may tell.

use ilk_base::SwitchId;
use trip_core::TripEvent;

/// What a log with trips may tell: where a switch stands at first, or what happens next.
#[derive(Clone, Copy, PartialEq, Eq)]
pub enum TripLogEvent {
    /// where a switch stands before anything happens
    At {
        /// the switch
        switch: SwitchId,
        /// whether it is closed
        closed: bool,
    },
    /// what happens next
    Step(TripEvent),
}
