//! The steps by which the items of a station are taken in.

use ilk_base::SwitchId;

/// What one layer of a graph takes in.
#[derive(Clone, Copy)]
pub enum Step {
    /// a switch
    OfSwitch(SwitchId),
    /// a link, by its number
    OfLink(u16),
    /// a tap, by its number
    OfTap(u16),
    /// nothing, where another station takes something in
    OfNothing,
}
