//! The top call.
ghost use Rattle.std.specs.Prelude.{◌≡◌, ◌⊎◌, map, string_bytes, None, IfOk, IfErr};
ghost use Rattle.interlock_cli.specs.Commands.{command_of, files_named, files_of, form_of};
ghost use Rattle.interlock_cli.specs.Files.{files, Reads};
ghost use Rattle.interlock_cli.specs.Seen.{seen_command};
ghost use Rattle.interlock_cli.specs.Form.{AsksInput, Gives, FormStops};
ghost use Rattle.interlock_cli.specs.Ends.{AnswersCall, CommandAsks, Ends, Wrote, called};
ghost use Rattle.node_session.specs.SessionEnds.{streams};
ghost use Rattle.interlock_cli.specs.Complete.{Completes};

use crate::answer::answer_drawing;
use crate::audit_command::Audit;
use crate::check_command::Check;
use crate::command::Command;
use crate::compare_command::Compare;
use crate::compile_command::Compile;
use crate::end::{End, Output, make_status};
use crate::explain_command::{Denials, Explain};
use crate::make_command::make;
use crate::node_command::node;
use crate::order_command::Order;
use crate::plan_command::Plan;
use crate::program_command::{BayProgram, Program};
use crate::replay_command::Replay;
use crate::state_command::State;
use crate::station_command::station;
use crate::status::Status;
use crate::tell::tell;
use crate::tests_command::{StationTests, Tests};
use crate::trips_command::Trips;
use crate::why_command::Why;
use crate::words::read_command;
use crate::work_command::work;
use ilk_base::{Shelf, Sink, Source};
use std::alloc::Global;

// What a command that does not serve the input has to write, or how it ends before it writes.
fn output_of<F: Shelf>(alloc: Global, command: &Command, shelf: &mut F) -> Result<Output, End>
    requires { ¬ AsksInput (form_of (seen_command command.now)) }
    ensures ok { IfOk result (Gives (form_of (seen_command command.now)) (F.held shelf.old)) }
    ensures err { IfErr result (FormStops (form_of (seen_command command.now)) (F.held shelf.old) (F.faults shelf.old)
        (F.faults shelf.new)) }
    ensures reads { Reads (files_of (seen_command command.now))
        (files (F.held shelf.old) (F.faults shelf.old) (F.asked shelf.old))
        (files (F.held shelf.new) (F.faults shelf.new) (F.asked shelf.new)) }
{
    match *command {
        Command::Check { station, positions } => {
            answer_drawing(alloc, station, &Check { positions }, shelf)
        }
        Command::Explain { station, asked } => {
            answer_drawing(alloc, station, &Explain { asked }, shelf)
        }
        Command::Denials { station, positions } => {
            answer_drawing(alloc, station, &Denials { positions }, shelf)
        }
        Command::State { station, positions } => {
            answer_drawing(alloc, station, &State { positions }, shelf)
        }
        Command::Order {
            station,
            positions,
            order,
        } => answer_drawing(alloc, station, &Order { positions, order }, shelf),
        Command::Audit { station, equations } => {
            answer_drawing(alloc, station, &Audit { equations }, shelf)
        }
        Command::Compile { station } => answer_drawing(alloc, station, &Compile, shelf),
        Command::Trips { station, log } => answer_drawing(alloc, station, &Trips { log }, shelf),
        Command::Plan { station } => answer_drawing(alloc, station, &Plan, shelf),
        Command::Program { station } => answer_drawing(alloc, station, &Program, shelf),
        Command::BayProgram { station, bay } => {
            answer_drawing(alloc, station, &BayProgram { bay }, shelf)
        }
        Command::Replay { station, log } => answer_drawing(alloc, station, &Replay { log }, shelf),
        Command::Make { feeders, text } => make(alloc, feeders, text),
        Command::Work { feeders } => work(alloc, feeders, shelf),
        Command::Station { station: name } => station(alloc, name, shelf),
        Command::Compare { old, new } => answer_drawing(alloc, old, &Compare { new }, shelf),
        Command::Tests { station, bay } => answer_drawing(alloc, station, &Tests { bay }, shelf),
        Command::Why { station, asked } => answer_drawing(alloc, station, &Why { asked }, shelf),
        Command::StationTests { station } => answer_drawing(alloc, station, &StationTests, shelf),
        Command::Node { .. } => unreachable!(),
    }
}

// Writes what a call has to write.
fn write_output<O: Sink>(output: Output, out: &mut O) -> End
    ensures { Wrote output (O.faults out.old) (O.faults out.new) (O.took out.old) (O.took out.new) result }
{
    let Output { outcome, text } = output;
    match text.write(out) {
        Ok(()) => End::Written(outcome),
        Err(_) => End::WriteFault,
    }
}

// Does what the words say, and tells how it ended.
fn call<F: Shelf, I: Source, O: Sink>(
    alloc: Global,
    words: &[String],
    shelf: &mut F,
    input: &mut I,
    out: &mut O,
) -> End
    ensures ends { Ends (command_of (map string_bytes words.now))
        (called (F.held shelf.old) (F.faults shelf.old) (F.faults shelf.new)
        (streams (I.left input.old) (I.left_before input.old) (I.faults input.old) (O.took out.old) (O.faults out.old))
        (streams (I.left input.new) (I.left_before input.new) (I.faults input.new) (O.took out.new) (O.faults out.new)))
        result }
    ensures unread { command_of (map string_bytes words.now) ≡ None → shelf.new ≡ shelf.old }
    ensures reads { Reads (files_named (command_of (map string_bytes words.now)))
        (files (F.held shelf.old) (F.faults shelf.old) (F.asked shelf.old))
        (files (F.held shelf.new) (F.faults shelf.new) (F.asked shelf.new)) }
    ensures input { ¬ CommandAsks (command_of (map string_bytes words.now)) → input.new ≡ input.old }
{
    let command = match read_command(alloc, words) {
        Ok(command) => command,
        Err(end) => return end,
    };
    if let Command::Node { station, bay } = command {
        return match node(alloc, station, bay, shelf, input, out) {
            Ok(end) => end,
            Err(end) => end,
        };
    }
    match output_of(alloc, &command, shelf) {
        Ok(output) => write_output(output, out),
        Err(end) => end,
    }
}

/// Does what the words say, and answers with what status the program ends.
///
/// The words are those of the command line, without the program's name. Where no word is empty or begins
/// with `-`, and they are `check STATION POSITIONS`, `explain STATION POSITIONS open SWITCH` (or `close`, or
/// `explain STATION POSITIONS`),
/// `why STATION POSITIONS open SWITCH` (or `close`),
/// `state STATION POSITIONS`, `order STATION POSITIONS ORDER`, `replay STATION LOG`, `trips STATION LOG`,
/// `audit STATION EQUATIONS`, `plan STATION`, `program STATION` (or `program STATION BAY`), `compile STATION`,
/// `station STATION`, `compare OLD NEW`, `tests STATION BAY` (or `tests STATION`), `node STATION BAY`,
/// `make NUMBER station` (or `positions`, or `log`) or
/// `work NUMBER`, they name that command; all else is `Usage`. What a command is given is judged in the order of the words, but for a switch or bay
/// that they name, which comes last. Each file is judged before the next is read, and nothing is written, nor
/// asked of the input, before all is accepted. On every status but `Done` and `Differs` one line goes to
/// `err`, made without memory.
///
/// `answers` says for which end the status stands, that the end has its cause (a fault only where the
/// count of what was asked rose, a refusal exactly where the content has that fault), that `out` took the
/// text of the command, or after a fault of the write a front of it, and at every other end nothing, and
/// that `err` took the end's line, or a front of it where its own count rose. Where a file is not told, it
/// says the same of some content. Of `node` it says what `serve` of `node_session` does: which lines are
/// answered, what `out` took of their texts, and how much of the input was taken. The call is `Usage` only where
/// the words name no command (`usage`); where they name none it is `Usage` or wants memory (`unnamed`), and reads
/// no file (`unread`). The files that the words name are asked for in their order, each once, and no other file is;
/// the count of every other name is left, and what is held under each (`reads`). `complete` says that a call whose files are told and accepted, and in which no count rose,
/// ends as its text says, or has served the whole input, or wants memory. No other command than `node` asks for the
/// input (`input`).
pub fn run<F: Shelf, I: Source, O: Sink, E: Sink>(
    alloc: Global,
    words: &[String],
    shelf: &mut F,
    input: &mut I,
    out: &mut O,
    err: &mut E,
) -> Status
    ensures answers { AnswersCall result (command_of (map string_bytes words.now))
        (called (F.held shelf.old) (F.faults shelf.old) (F.faults shelf.new)
        (streams (I.left input.old) (I.left_before input.old) (I.faults input.old) (O.took out.old) (O.faults out.old))
        (streams (I.left input.new) (I.left_before input.new) (I.faults input.new) (O.took out.new) (O.faults out.new)))
        (E.took err.old) (E.took err.new) (E.faults err.old) (E.faults err.new) }
    ensures usage { result ≡ Status.Usage → command_of (map string_bytes words.now) ≡ None }
    ensures unnamed { command_of (map string_bytes words.now) ≡ None →
        (result ≡ Status.Usage) ⊎ (result ≡ Status.Memory) }
    ensures unread { command_of (map string_bytes words.now) ≡ None → shelf.new ≡ shelf.old }
    ensures reads { Reads (files_named (command_of (map string_bytes words.now)))
        (files (F.held shelf.old) (F.faults shelf.old) (F.asked shelf.old))
        (files (F.held shelf.new) (F.faults shelf.new) (F.asked shelf.new)) }
    ensures complete { Completes result (command_of (map string_bytes words.now))
        (called (F.held shelf.old) (F.faults shelf.old) (F.faults shelf.new)
        (streams (I.left input.old) (I.left_before input.old) (I.faults input.old) (O.took out.old) (O.faults out.old))
        (streams (I.left input.new) (I.left_before input.new) (I.faults input.new) (O.took out.new) (O.faults out.new))) }
    ensures input { ¬ CommandAsks (command_of (map string_bytes words.now)) → input.new ≡ input.old }
{
    let end = call(alloc, words, shelf, input, out);
    let _ = tell(err, &end);
    make_status(&end)
}
