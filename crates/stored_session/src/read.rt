//! The lines of an input, one after another.
ghost use Rattle.std.specs.Prelude.{◌≡◌, ◌≤◌, ◌<◌, ◌+◌, ℕ, List, Option, IfOk, length};
ghost use Rattle.ilk_base.specs.Outside.{Rose};
ghost use Rattle.node_session.specs.SessionEnds.{LastAsked};
ghost use Rattle.node_session.specs.declared.reader.TheConstants.{CHUNK};
ghost use Rattle.stored_session.specs.Through.{ReadsThrough, IsLine, GoesOn};

use ilk_base::Source;
use node_session::{Front, InputTrouble, Reader};
use std::alloc::Global;

// What comes next of an input, at the front of what the reader holds.
#[derive(Clone, Copy, PartialEq, Eq)]
pub(crate) enum NextLine {
    // a line with its end
    Whole,
    // the last line, which has no end
    Last,
    // a line that is too long
    TooLong,
    // nothing
    End,
}

// Looks what comes next; no more of the input is taken than it must, and none where a whole line is held.
pub(crate) fn next_line<I: Source>(
    alloc: Global,
    reader: &mut Reader,
    input: &mut I,
) -> Result<NextLine, InputTrouble>
    requires { length reader.old ≤ CHUNK }
    // Wherever the reader stood, it goes on so.
    ensures goes { (before : Option (List ℕ)) (done : List (List ℕ))
        → ReadsThrough before (I.left input.old) reader.old done
        → GoesOn before (I.left input.new) reader.new done (Rose (I.faults input.old) (I.faults input.new)) result }
    // Where it comes to a line, the last call of the input was needed for it.
    ensures asks { (before : Option (List ℕ)) (done : List (List ℕ))
        → ReadsThrough before (I.left input.old) reader.old done
        → (0 < length done + length reader.old → LastAsked before (I.left_before input.old) (length done))
        → IfOk result (λ next. IsLine next → LastAsked before (I.left_before input.new) (length done)) }
    ensures grows { I.faults input.old ≤ I.faults input.new }
{
    match reader.fill(alloc, input) {
        Ok(Front::Line(_)) => Ok(NextLine::Whole),
        Ok(Front::TooLong) => Ok(NextLine::TooLong),
        Ok(Front::Last) => {
            if reader.held().is_empty() {
                return Ok(NextLine::End);
            }
            Ok(NextLine::Last)
        }
        Err(trouble) => Err(trouble),
    }
}
