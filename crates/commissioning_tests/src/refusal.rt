//! Why a bay was not tested.
use ilk_base::{BayId, Memory};
use std::alloc::{AllocError, AllocFailed};

/// Why a bay was not tested.
#[derive(Clone, Copy, Debug, PartialEq, Eq)]
pub enum TestsRefusal {
    /// there was no memory
    Memory,
    /// a switch of this bay has a graph or a walk of more edges than it may have, by `change_search::walk_limit`
    Wide {
        /// the bay
        bay: BayId,
    },
}

impl From<Memory> for TestsRefusal {
    ghost use Rattle.std.specs.Prelude.{◌≡◌};
    ghost use Rattle.commissioning_tests.specs.declared.refusal.TestsRefusal.TheVariants.{Memory};

    ghost from_gives = { λ _ e. e ≡ Memory };

    fn from(_: Memory) -> TestsRefusal {
        TestsRefusal::Memory
    }
}

impl From<AllocError> for TestsRefusal {
    ghost use Rattle.std.specs.Prelude.{◌≡◌};
    ghost use Rattle.commissioning_tests.specs.declared.refusal.TestsRefusal.TheVariants.{Memory};

    ghost from_gives = { λ _ e. e ≡ Memory };

    fn from(_: AllocError) -> TestsRefusal {
        TestsRefusal::Memory
    }
}

impl<T: Drop> From<AllocFailed<T>> for TestsRefusal {
    ghost use Rattle.std.specs.Prelude.{◌≡◌};
    ghost use Rattle.commissioning_tests.specs.declared.refusal.TestsRefusal.TheVariants.{Memory};

    ghost from_gives = { λ _ e. e ≡ Memory };

    fn from(_: AllocFailed<T>) -> TestsRefusal {
        TestsRefusal::Memory
    }
}
