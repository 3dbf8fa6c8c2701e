//! Why a station has no graph judge.
ghost use Rattle.std.specs.Prelude.{◌≡◌};

use ilk_base::{BayId, Memory};
use std::error::Error;
use std::fmt;

/// Why a station has no graph judge.
#[derive(Clone, Copy, Debug, PartialEq, Eq)]
pub enum BuildRefusal {
    /// there was not enough memory
    Memory,
    /// the part has too many distinct contractions after so many of its switches
    Many {
        /// the first such part
        part: BayId,
        /// after how many of its switches, the least such number
        step: u8,
    },
    /// the graphs of the bay have too many edges, or those of all bays up to it
    Wide {
        /// the first such bay
        bay: BayId,
    },
}

impl fmt::Display for BuildRefusal {
    fn fmt<W: fmt::Write>(&self, f: &mut fmt::Formatter<W>) -> fmt::Result {
        match self {
            BuildRefusal::Memory => f.write_str("out of memory"),
            BuildRefusal::Many { part, step } => {
                write!(
                    f,
                    "part {} has too many contractions after step {}",
                    part.0, step
                )
            }
            BuildRefusal::Wide { bay } => { write!(f, "bay {} has too many edges", bay.0) }
        }
    }
}

impl Error for BuildRefusal {}

impl From<Memory> for BuildRefusal {
    ghost use Rattle.std.specs.Prelude.{◌≡◌};
    ghost use Rattle.release_compile.specs.declared.refusal.BuildRefusal.TheVariants.{Memory};

    ghost from_gives = { λ _ e. e ≡ Memory };

    fn from(_memory: Memory) -> BuildRefusal {
        BuildRefusal::Memory
    }
}
