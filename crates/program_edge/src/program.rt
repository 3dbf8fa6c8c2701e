//! The program as one call.
ghost use Rattle.std.specs.Prelude.{◌≡◌, map, string_bytes};
ghost use Rattle.node_session.specs.SessionEnds.{streams};
ghost use Rattle.program_edge.specs.Says.{SaysWords};

use ilk_base::{FileShelf, Sink, Source, StdIn, StdOut, write_all};
use interlock_cli::{Status, run_stored};
use node_store::{FileDevice, OwnFile};
use std::alloc::{AllocError, Global};
use std::env;
use std::io::{Error, ErrorKind, Read, Result as IoResult, Write};
use std::process::ExitCode;
use std::rt::{Env, Files};

// Says that there was not enough memory.
fn wants_memory<E: Sink>(err: &mut E) -> Status
    ensures { result ≡ Status.Memory }
{
    let _ = write_all(err, b"interlock: out of memory\n");
    Status::Memory
}

/// Does what the words say over the files that the runtime reaches, as `run_stored` does. The device of a stored
/// session is the file that the fourth word names; for other words no device is asked. Of these words the contract says
/// what `run` says of a call whose files tell nothing of what they hold: the status is that of an end which has its
/// cause for some contents of the files, over these streams; words that name a command, or a stored session, are never
/// Usage.
pub fn run_words<R: Files, I: Source, O: Sink, E: Sink>(
    alloc: Global,
    words: &[String],
    rt: &R,
    input: &mut I,
    out: &mut O,
    err: &mut E,
) -> Status
where
    R::File: OwnFile,
    ensures { SaysWords result (map string_bytes words.now)
        (streams (I.left input.old) (I.left_before input.old) (I.faults input.old) (O.took out.old) (O.faults out.old))
        (streams (I.left input.new) (I.left_before input.new) (I.faults input.new) (O.took out.new) (O.faults out.new))
        (E.took err.old) (E.took err.new) (E.faults err.old) (E.faults err.new) }
{
    let mut shelf = FileShelf::new(alloc, rt);
    let name = match words.get(3) {
        Some(name) => name.as_str(),
        None => "",
    };
    let Ok(mut device) = FileDevice::new(alloc, rt, name) else {
        return wants_memory(err);
    };
    run_stored(alloc, words, &mut shelf, input, out, err, &mut device)
}

// The words of the command line, without the program's name.
fn words_of<R: Env + AllocGlobal>(rt: &R) -> IoResult<Vec<String>> {
    let mut words = Vec::new(rt.alloc());
    for word in env::args(rt)?.skip(1) {
        if words.push(word).is_err() {
            return Err(Error::from(AllocError));
        }
    }
    Ok(words)
}

/// Does what the words of the command line say, and answers the status as the program's own. A word that is no text
/// is a word of no command.
pub fn run_program<R: Env + Files + AllocGlobal, I: Read + Drop, O: Write + Drop, E: Write + Drop>(
    rt: &R,
    input: I,
    out: O,
    err: E,
) -> ExitCode
where
    R::File: OwnFile,
{
    let alloc = rt.alloc();
    let mut input = StdIn::new(input);
    let mut out = StdOut::new(out);
    let mut err = StdOut::new(err);
    let status = match words_of(rt) {
        Ok(words) => run_words(alloc, &words, rt, &mut input, &mut out, &mut err),
        Err(error) if error.kind() == ErrorKind::OutOfMemory => wants_memory(&mut err),
        Err(_) => run_words(alloc, &[], rt, &mut input, &mut out, &mut err),
    };
    ExitCode::from(status as u8)
}
