//! Why a builder refuses an item.
ghost use Rattle.std.specs.Prelude.{◌≡◌, ◌+◌, ◌<◌, ℕ};
ghost use Rattle.station_graph.specs.declared.fault.BuildFault.TheVariants.{Memory};

use std::alloc::{AllocError, AllocFailed};
use std::error::Error;
use std::fmt;

/// What a limit counts. Each has the number of its limit, from 1 to 9, as `What::Bytes as u8`.
#[derive(Clone, Copy, Debug, PartialEq, Eq)]
pub enum What {
    /// the bytes of a file
    Bytes = 1,
    /// the parts of a station
    Parts = 2,
    /// the parts with switches
    Bays = 3,
    /// the connectivity nodes
    Nodes = 4,
    /// the switches
    Switches = 5,
    /// the switches of one bay
    BaySwitches = 6,
    /// the links
    Links = 7,
    /// the taps
    Taps = 8,
    /// the bytes of all paths of a drawing together
    Paths = 9,
}

impl What {
    ghost use Rattle.station_graph.specs.Limits.{limit_number};

    /// The number of its limit, from 1 to 9.
    pub fn number(self) -> u8
        ensures { result ≡ limit_number self }
    {
        self as u8
    }
}

/// Why a builder refused an item.
#[derive(Clone, Copy, Debug, PartialEq, Eq)]
pub enum BuildFault {
    /// There was not enough memory.
    Memory,
    /// With the item, what is counted would have passed its limit.
    Limit {
        /// what is counted
        what: What,
        /// the count with the item, one more than the limit
        count: u32,
    },
}

impl fmt::Display for BuildFault {
    fn fmt<W: fmt::Write>(&self, f: &mut fmt::Formatter<W>) -> fmt::Result {
        match self {
            BuildFault::Memory => f.write_str("out of memory"),
            BuildFault::Limit { .. } => f.write_str("a limit of the station is passed"),
        }
    }
}

impl Error for BuildFault {}

impl From<AllocError> for BuildFault {
    ghost from_gives = { λ _ e. e ≡ Memory };

    fn from(_e: AllocError) -> BuildFault {
        BuildFault::Memory
    }
}

impl From<ilk_base::Memory> for BuildFault {
    ghost from_gives = { λ _ e. e ≡ Memory };

    fn from(_e: ilk_base::Memory) -> BuildFault {
        BuildFault::Memory
    }
}

impl<T: Drop> From<AllocFailed<T>> for BuildFault {
    ghost from_gives = { λ _ e. e ≡ Memory };

    fn from(_e: AllocFailed<T>) -> BuildFault {
        BuildFault::Memory
    }
}

// One more than the limit.
pub(crate) fn past(what: What, limit: usize) -> BuildFault
    requires { limit < 4294967295 }
    ensures { result ≡ BuildFault.Limit what (limit + 1) }
{
    BuildFault::Limit {
        what,
        count: limit as u32 + 1,
    }
}
