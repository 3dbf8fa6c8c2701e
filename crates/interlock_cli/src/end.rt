//! How a call ends.
ghost use Rattle.std.specs.Prelude.{◌≡◌};
ghost use Rattle.interlock_cli.specs.Lines.{outcome_status, status_of};

use crate::out_text::OutText;
use crate::status::Status;
use ilk_base::{BayId, InputFault, InputRefusal, Memory};
use ssd_read::SsdRefusal;

// How a call ends whose text is written.
#[derive(Clone, Copy)]
pub enum Outcome {
    Done,
    Differs,
    Premise { number: u8, line: u32 },
    TooWide { bay: BayId },
}

// What a call has to write once all is accepted, and how it then ends.
#[derive(Drop)]
pub struct Output {
    pub outcome: Outcome,
    pub text: OutText,
}

// How a call ends, with what its line shows.
#[derive(Drop)]
pub enum End {
    Written(Outcome),
    Usage,
    ReadFault,
    WriteFault,
    Station(SsdRefusal),
    Many { part: BayId, step: u8 },
    Wide { bay: BayId },
    Input(InputRefusal),
    Long,
    Memory,
}

impl From<Memory> for End {
    ghost use Rattle.interlock_cli.specs.declared.end.End.TheVariants.{Memory};

    ghost from_gives = { λ _ end. end ≡ Memory };

    fn from(_: Memory) -> Self {
        End::Memory
    }
}

impl From<InputFault> for End {
    ghost use Rattle.interlock_cli.specs.Judging.{EndsInput};

    ghost from_gives = { λ fault end. EndsInput fault end };

    fn from(fault: InputFault) -> Self {
        match fault {
            InputFault::Memory => End::Memory,
            InputFault::Refused(refusal) => End::Input(refusal),
        }
    }
}

// The status of a call whose text is written.
fn outcome_status(outcome: Outcome) -> Status
    ensures { result ≡ outcome_status outcome }
{
    match outcome {
        Outcome::Done => Status::Done,
        Outcome::Differs => Status::Differs,
        Outcome::Premise { .. } => Status::Premise,
        Outcome::TooWide { .. } => Status::StationRefused,
    }
}

// The status of an end.
pub(crate) fn make_status(end: &End) -> Status
    ensures { result ≡ status_of end.now }
{
    match end {
        End::Written(outcome) => outcome_status(*outcome),
        End::Usage => Status::Usage,
        End::ReadFault => Status::ReadFault,
        End::WriteFault => Status::WriteFault,
        End::Station(_) | End::Many { .. } | End::Wide { .. } => Status::StationRefused,
        End::Input(_) => Status::InputRefused,
        End::Long => Status::Long,
        End::Memory => Status::Memory,
    }
}
