//! Why an input beside the drawing gave no value.
ghost use Rattle.std.specs.Prelude.{◌≡◌};

use crate::words::{InputRefusal, Memory};
use std::alloc::{AllocError, AllocFailed};

/// Why an input beside the drawing (positions, a log, an order, equations) gave no value. Each reader of such
/// an input answers with it, under a name of its own.
#[derive(Clone, Copy, Debug, PartialEq, Eq)]
pub enum InputFault {
    /// There was not enough memory.
    Memory,
    /// The input is refused at its first record or line with a fault, or, with line 0, for its length.
    Refused(InputRefusal),
}

impl InputFault {
    /// That an input is refused: by the number of the fault and the record or line, from 1, or 0 where it is
    /// in none. At once; takes no memory.
    pub fn refused(number: u8, line: u32) -> InputFault
        ensures { result ≡ InputFault.Refused (record { number = number; line = line }) }
    {
        InputFault::Refused(InputRefusal { number, line })
    }
}

impl From<Memory> for InputFault {
    ghost use Rattle.ilk_base.specs.declared.input_fault.InputFault.TheVariants.{Memory};

    ghost from_gives = { λ _ e. e ≡ Memory };

    fn from(_: Memory) -> Self {
        InputFault::Memory
    }
}

impl From<AllocError> for InputFault {
    ghost use Rattle.ilk_base.specs.declared.input_fault.InputFault.TheVariants.{Memory};

    ghost from_gives = { λ _ e. e ≡ Memory };

    fn from(_: AllocError) -> Self {
        InputFault::Memory
    }
}

impl<T: Drop> From<AllocFailed<T>> for InputFault {
    ghost use Rattle.ilk_base.specs.declared.input_fault.InputFault.TheVariants.{Memory};

    ghost from_gives = { λ _ e. e ≡ Memory };

    fn from(_: AllocFailed<T>) -> Self {
        InputFault::Memory
    }
}
