//! The top call with a device.
ghost use Rattle.std.specs.Prelude.{◌≡◌, ◌∷◌, [], map, string_bytes, None, IfSome};
ghost use Rattle.stored_session.specs.View.{view};
ghost use Rattle.node_session.specs.SessionEnds.{streams};
ghost use Rattle.interlock_cli.specs.Commands.{command_of, files_named};
ghost use Rattle.interlock_cli.specs.Ends.{CommandAsks, WroteLine, called};
ghost use Rattle.interlock_cli.specs.Lines.{line_of};
ghost use Rattle.interlock_cli.specs.StoredWords.{seen_words, stored_of};
ghost use Rattle.interlock_cli.specs.Files.{files, Reads};
ghost use Rattle.interlock_cli.specs.StoredEnding.{AnswersWords, CompletesStored, SaysAsRun};

use crate::end::{End, make_status};
use crate::status::Status;
use crate::stored_command::stored;
use crate::stored_words::{StoredWords, read_stored};
use crate::tell::tell;
use crate::top::run;
use ilk_base::{Shelf, Sink, Source};
use node_store::Device;
use std::alloc::Global;

// Runs a stored session, and tells how it ended.
fn answer_stored<F: Shelf, I: Source, O: Sink, E: Sink, D: Device>(
    alloc: Global,
    words: StoredWords<'_>,
    shelf: &mut F,
    input: &mut I,
    out: &mut O,
    err: &mut E,
    device: &mut D,
) -> Status
    ensures answers { AnswersWords
        (view D.content D.moment D.left_between D.left_since D.read_faults D.write_faults D.calls)
        result (seen_words words.entry)
        (called (F.held shelf.old) (F.faults shelf.old) (F.faults shelf.new)
        (streams (I.left input.old) (I.left_before input.old) (I.faults input.old) (O.took out.old) (O.faults out.old))
        (streams (I.left input.new) (I.left_before input.new) (I.faults input.new) (O.took out.new) (O.faults out.new)))
        device.old device.new (E.took err.old) (E.took err.new) (E.faults err.old) (E.faults err.new) }
    ensures complete { CompletesStored
        (view D.content D.moment D.left_between D.left_since D.read_faults D.write_faults D.calls)
        result (seen_words words.entry)
        (called (F.held shelf.old) (F.faults shelf.old) (F.faults shelf.new)
        (streams (I.left input.old) (I.left_before input.old) (I.faults input.old) (O.took out.old) (O.faults out.old))
        (streams (I.left input.new) (I.left_before input.new) (I.faults input.new) (O.took out.new) (O.faults out.new)))
        device.old device.new }
    ensures reads { Reads (words.entry.station.now ∷ [])
        (files (F.held shelf.old) (F.faults shelf.old) (F.asked shelf.old))
        (files (F.held shelf.new) (F.faults shelf.new) (F.asked shelf.new)) }
{
    let end = stored(alloc, words.station, words.bay, shelf, input, out, device);
    let _ = tell(err, &end);
    make_status(&end)
}

// Tells that there was no memory for the words.
fn answer_want<E: Sink>(err: &mut E) -> Status
    ensures status { result ≡ Status.Memory }
    ensures line { WroteLine (E.took err.old) (E.took err.new) (E.faults err.old) (E.faults err.new)
        (line_of End.Memory) }
{
    let _ = tell(err, &End::Memory);
    make_status(&End::Memory)
}

/// Does what the words say, as `run` does, and beside it runs stored sessions: for the words `stored STATION BAY
/// FILE`, of which none is empty or begins with `-`, the node of the bay answers each line of the input as `node`
/// does, from the record that the device holds. A changed record is put on the device before the line's text is
/// written; no `keep` line is written, and a `kept` line is refused. The words, the station and the bay are judged
/// first, and then the device's record, before a line is asked for. The device is that of FILE: whoever calls opens it.
///
/// For all other words it says all that `run` says (`others`, `unread`, `input`), and the device is left alone
/// (`untouched`). For these (`stored`) it says of each end its cause: a fault only where a count rose;
/// refusal 12 exactly where the device's record is none from which the bay goes on; which lines were answered and what
/// `out` took; and for which record an image stands that a crash leaves, at any moment of the call and at its return.
/// To all bays of the station a stop inside a put is a restart (`logs_with_stops_are_logs` of `stopped_puts`).
/// The device is called at most three times, and six times more for each line. `stored_complete` says that a call that
/// is told all, that is refused nothing and in which no count rose answers the whole input, or wants memory.
pub fn run_stored<F: Shelf, I: Source, O: Sink, E: Sink, D: Device>(
    alloc: Global,
    words: &[String],
    shelf: &mut F,
    input: &mut I,
    out: &mut O,
    err: &mut E,
    device: &mut D,
) -> Status
    ensures others { stored_of (map string_bytes words.now) ≡ None → SaysAsRun result
        (command_of (map string_bytes words.now))
        (called (F.held shelf.old) (F.faults shelf.old) (F.faults shelf.new)
        (streams (I.left input.old) (I.left_before input.old) (I.faults input.old) (O.took out.old) (O.faults out.old))
        (streams (I.left input.new) (I.left_before input.new) (I.faults input.new) (O.took out.new) (O.faults out.new)))
        (E.took err.old) (E.took err.new) (E.faults err.old) (E.faults err.new) }
    ensures untouched { stored_of (map string_bytes words.now) ≡ None → device.new ≡ device.old }
    ensures unread { stored_of (map string_bytes words.now) ≡ None → command_of (map string_bytes words.now) ≡ None
        → shelf.new ≡ shelf.old }
    ensures input { stored_of (map string_bytes words.now) ≡ None
        → ¬ CommandAsks (command_of (map string_bytes words.now))
        → input.new ≡ input.old }
    ensures stored { IfSome (stored_of (map string_bytes words.now)) (λ w. AnswersWords
        (view D.content D.moment D.left_between D.left_since D.read_faults D.write_faults D.calls) result w
        (called (F.held shelf.old) (F.faults shelf.old) (F.faults shelf.new)
        (streams (I.left input.old) (I.left_before input.old) (I.faults input.old) (O.took out.old) (O.faults out.old))
        (streams (I.left input.new) (I.left_before input.new) (I.faults input.new) (O.took out.new) (O.faults out.new)))
        device.old device.new (E.took err.old) (E.took err.new) (E.faults err.old) (E.faults err.new)) }
    ensures stored_complete { IfSome (stored_of (map string_bytes words.now)) (λ w. CompletesStored
        (view D.content D.moment D.left_between D.left_since D.read_faults D.write_faults D.calls) result w
        (called (F.held shelf.old) (F.faults shelf.old) (F.faults shelf.new)
        (streams (I.left input.old) (I.left_before input.old) (I.faults input.old) (O.took out.old) (O.faults out.old))
        (streams (I.left input.new) (I.left_before input.new) (I.faults input.new) (O.took out.new) (O.faults out.new)))
        device.old device.new) }
    ensures reads { stored_of (map string_bytes words.now) ≡ None
        → Reads (files_named (command_of (map string_bytes words.now)))
        (files (F.held shelf.old) (F.faults shelf.old) (F.asked shelf.old))
        (files (F.held shelf.new) (F.faults shelf.new) (F.asked shelf.new)) }
    ensures stored_reads { IfSome (stored_of (map string_bytes words.now)) (λ w. Reads (w.station ∷ [])
        (files (F.held shelf.old) (F.faults shelf.old) (F.asked shelf.old))
        (files (F.held shelf.new) (F.faults shelf.new) (F.asked shelf.new))) }
{
    let named = match read_stored(alloc, words) {
        Ok(named) => named,
        Err(_) => return answer_want(err),
    };
    match named {
        Some(named) => answer_stored(alloc, named, shelf, input, out, err, device),
        None => run(alloc, words, shelf, input, out, err),
    }
}
