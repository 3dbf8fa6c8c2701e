//! What joins two neighbouring nodes of a way.
use ilk_base::SwitchId;

/// What joins two neighbouring nodes of a way.
#[derive(Clone, Copy)]
pub enum Device {
    /// a breaker or a disconnector that is closed
    Closed(SwitchId),
    /// a link, by its place in the list of the station
    Link(u16),
    /// a breaker that stands open, and counts as closed for what may be live or earthed
    Open(SwitchId),
}
