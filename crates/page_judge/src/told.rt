//! What is told to the page of an answer.
ghost use Rattle.std.specs.Prelude.{◌≡◌};
ghost use Rattle.page_judge.specs.Told.{done_code, IsGiven, IsStopped, IsTold};

use ilk_base::InputFault;
use page_questions::Answer;

/// The text is in the room.
pub const DONE: u32 = 0;
/// The text is in the room, and what was judged differs from the rules.
pub const DIFFERS: u32 = 1;
/// The drawing is refused.
pub const DRAWING: u32 = 5;
/// The positions, the path or the order are refused.
pub const INPUT: u32 = 6;
/// There was not enough memory.
pub const MEMORY: u32 = 8;
/// The room is too small for the text.
pub const ROOM: u32 = 10;

/// What is told beside a code, where the code says that it is told.
#[repr(C)]
#[derive(Drop)]
pub struct Told {
    /// how many bytes the text has
    pub length: usize,
    /// the number of the fault
    pub number: u32,
    /// where it is: the byte of a drawing, or the line of an input, from 1; 0 where it is in no place
    pub place: u32,
}

// The code of a text that is given.
fn done_code(differs: bool) -> u32
    ensures { result ≡ done_code differs }
{
    match differs {
        false => DONE,
        true => DIFFERS,
    }
}

// Puts the text into the room, if it fits.
fn give(answer: &Answer, out: &mut [u8], told: &mut Told) -> u32
    ensures { IsGiven answer.now.differs answer.now.text result told.new out.new }
{
    let bytes = answer.text.bytes();
    told.length = bytes.len();
    if bytes.len() > out.len() {
        return ROOM;
    }
    out[..bytes.len()].copy_from_slice(bytes);
    done_code(answer.differs)
}

// Tells why there is no text.
fn stop(fault: InputFault, told: &mut Told) -> u32
    ensures { IsStopped fault result told.new }
{
    match fault {
        InputFault::Memory => MEMORY,
        InputFault::Refused(refusal) => {
            told.number = u32::from(refusal.number);
            told.place = refusal.line;
            INPUT
        }
    }
}

// Tells an answer.
pub(crate) fn tell(answer: &Result<Answer, InputFault>, out: &mut [u8], told: &mut Told) -> u32
    ensures { IsTold answer.now result told.new out.new }
{
    match answer {
        Ok(answer) => give(answer, out, told),
        Err(fault) => stop(*fault, told),
    }
}
