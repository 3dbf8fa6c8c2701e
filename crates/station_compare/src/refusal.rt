//! Why two stations were not compared.
use ilk_base::{BayId, Memory};
use std::alloc::{AllocError, AllocFailed};

/// Why two stations were not compared.
#[derive(Clone, Copy, Debug, PartialEq, Eq)]
pub enum CompareRefusal {
    /// there was no memory
    Memory,
    /// a switch of this bay of the new station has a graph or a walk of more edges than `change_search::walk_limit` of the
    /// new station's switches
    Wide {
        /// the bay
        bay: BayId,
    },
}

impl From<Memory> for CompareRefusal {
    ghost use Rattle.std.specs.Prelude.{◌≡◌};
    ghost use Rattle.station_compare.specs.declared.refusal.CompareRefusal.TheVariants.{Memory};

    ghost from_gives = { λ _ e. e ≡ Memory };

    fn from(_: Memory) -> CompareRefusal {
        CompareRefusal::Memory
    }
}

impl From<AllocError> for CompareRefusal {
    ghost use Rattle.std.specs.Prelude.{◌≡◌};
    ghost use Rattle.station_compare.specs.declared.refusal.CompareRefusal.TheVariants.{Memory};

    ghost from_gives = { λ _ e. e ≡ Memory };

    fn from(_: AllocError) -> CompareRefusal {
        CompareRefusal::Memory
    }
}

impl<T: Drop> From<AllocFailed<T>> for CompareRefusal {
    ghost use Rattle.std.specs.Prelude.{◌≡◌};
    ghost use Rattle.station_compare.specs.declared.refusal.CompareRefusal.TheVariants.{Memory};

    ghost from_gives = { λ _ e. e ≡ Memory };

    fn from(_: AllocFailed<T>) -> CompareRefusal {
        CompareRefusal::Memory
    }
}
