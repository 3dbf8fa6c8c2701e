//! The texts of the station.
ghost use Rattle.std.specs.Prelude.{◌≡◌, ◌≤◌, IfOk};
ghost use Rattle.station_make.specs.DrawingText.{station_text};
ghost use Rattle.station_make.specs.PositionsText.{positions_text};
ghost use Rattle.station_make.specs.EventsText.{events_text};

use crate::drawing::drawing;
use crate::equipment::{all_switches, bays};
use crate::limits::{LEAST_FEEDERS, MOST_FEEDERS};
use crate::records::{events, positions};
use ilk_base::{Memory, Text};
use std::alloc::Global;

/// The texts of a station.
#[derive(Drop)]
pub struct Made {
    /// its drawing, as an SSD (IEC 61850-6)
    pub station: Text,
    /// the position of each switch, as `check` reads them
    pub positions: Text,
    /// a log of one whole operation, as `replay` reads it
    pub events: Text,
}

/// Makes the texts of a double busbar with a coupler and so many feeders, each through to a busbar (those
/// of odd number to the first, the others to the second), and of an operation in which the first feeder is
/// put onto the second busbar too (docs/FORMATS.md has the lines). Time and memory: the texts.
pub fn make(alloc: Global, number: u8) -> Result<Made, Memory>
    requires least { LEAST_FEEDERS ≤ number }
    requires most { number ≤ MOST_FEEDERS }
    ensures station { IfOk result (λ m. m.station ≡ station_text number) }
    ensures positions { IfOk result (λ m. m.positions ≡ positions_text number) }
    ensures events { IfOk result (λ m. m.events ≡ events_text number) }
{
    let bays = bays(alloc, number)?;
    let switches = all_switches(alloc, &bays)?;
    Ok(Made {
        station: drawing(alloc, &bays)?,
        positions: positions(alloc, &switches)?,
        events: events(alloc, number, &switches)?,
    })
}
