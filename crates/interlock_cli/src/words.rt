//! What the words name.
ghost use Rattle.std.specs.Prelude.{◌≡◌, ◌∷◌, map, option_map, string_bytes, Some, IfOk, IfErr};
ghost use Rattle.interlock_cli.specs.Commands.{Explain};
ghost use Rattle.interlock_cli.specs.Commands.{replay_of, audit_of, check_of, command_of, direction_of, explain_of};
ghost use Rattle.interlock_cli.specs.Commands.{compare_of, make_of, named_command, node_of, program_of, tests_of, why_of};
ghost use Rattle.interlock_cli.specs.Commands.{plan_of, trips_of, compile_of, order_of, state_of, station_of, work_of};
ghost use Rattle.interlock_cli.specs.Ends.{WordsUnread};
ghost use Rattle.interlock_cli.specs.Seen.{seen_command};

use crate::command::{AskedOperation, Command};
use crate::end::End;
use command_words::read_words;
use ilk_base::Direction;
use station_make::{feeders_named, text_named};
use std::alloc::Global;

// The direction that a word names.
fn direction_of(word: &str) -> Option<Direction>
    ensures { result ≡ direction_of word.now }
{
    match word {
        "open" => Some(Direction::ToOff),
        "close" => Some(Direction::ToOn),
        _ => None,
    }
}

// `check STATION POSITIONS`.
fn check_words<'a>(rest: &[&'a str]) -> Option<Command<'a>>
    ensures { check_of (map (λ w. w.now) rest.now) ≡ option_map seen_command result }
{
    let &[station, positions] = rest else {
        return None;
    };
    Some(Command::Check { station, positions })
}

// `explain` of the operation that the last two words name.
fn explained<'a>(
    station: &'a str,
    positions: &'a str,
    direction: &str,
    switch: &'a str,
) -> Option<Command<'a>>
    ensures { option_map (λ d. Explain station.now positions.now d switch.now) (direction_of direction.now)
        ≡ option_map seen_command result }
{
    match direction_of(direction) {
        Some(direction) => {
            let asked = AskedOperation {
                positions,
                direction,
                switch,
            };
            Some(Command::Explain { station, asked })
        }
        None => None,
    }
}

// `explain STATION POSITIONS open SWITCH`, or `close`; or `explain STATION POSITIONS`.
fn explain_words<'a>(rest: &[&'a str]) -> Option<Command<'a>>
    ensures { explain_of (map (λ w. w.now) rest.now) ≡ option_map seen_command result }
{
    match rest {
        &[station, positions] => Some(Command::Denials { station, positions }),
        &[station, positions, direction, switch] => {
            explained(station, positions, direction, switch)
        }
        _ => None,
    }
}

// `state STATION POSITIONS`.
fn state_words<'a>(rest: &[&'a str]) -> Option<Command<'a>>
    ensures { state_of (map (λ w. w.now) rest.now) ≡ option_map seen_command result }
{
    let &[station, positions] = rest else {
        return None;
    };
    Some(Command::State { station, positions })
}

// `order STATION POSITIONS ORDER`.
fn order_words<'a>(rest: &[&'a str]) -> Option<Command<'a>>
    ensures { order_of (map (λ w. w.now) rest.now) ≡ option_map seen_command result }
{
    let &[station, positions, order] = rest else {
        return None;
    };
    Some(Command::Order {
        station,
        positions,
        order,
    })
}

// `audit STATION EQUATIONS`.
fn audit_words<'a>(rest: &[&'a str]) -> Option<Command<'a>>
    ensures { audit_of (map (λ w. w.now) rest.now) ≡ option_map seen_command result }
{
    let &[station, equations] = rest else {
        return None;
    };
    Some(Command::Audit { station, equations })
}

// `replay STATION LOG`.
fn replay_words<'a>(rest: &[&'a str]) -> Option<Command<'a>>
    ensures { replay_of (map (λ w. w.now) rest.now) ≡ option_map seen_command result }
{
    let &[station, log] = rest else {
        return None;
    };
    Some(Command::Replay { station, log })
}

// `node STATION BAY`.
fn node_words<'a>(rest: &[&'a str]) -> Option<Command<'a>>
    ensures { node_of (map (λ w. w.now) rest.now) ≡ option_map seen_command result }
{
    let &[station, bay] = rest else {
        return None;
    };
    Some(Command::Node { station, bay })
}

// `compile STATION`.
fn compile_words<'a>(rest: &[&'a str]) -> Option<Command<'a>>
    ensures { compile_of (map (λ w. w.now) rest.now) ≡ option_map seen_command result }
{
    let &[station] = rest else {
        return None;
    };
    Some(Command::Compile { station })
}

// `trips STATION LOG`.
fn trips_words<'a>(rest: &[&'a str]) -> Option<Command<'a>>
    ensures { trips_of (map (λ w. w.now) rest.now) ≡ option_map seen_command result }
{
    let &[station, log] = rest else {
        return None;
    };
    Some(Command::Trips { station, log })
}

// `plan STATION`.
fn plan_words<'a>(rest: &[&'a str]) -> Option<Command<'a>>
    ensures { plan_of (map (λ w. w.now) rest.now) ≡ option_map seen_command result }
{
    let &[station] = rest else {
        return None;
    };
    Some(Command::Plan { station })
}

// `program STATION`, or `program STATION BAY`.
fn program_words<'a>(rest: &[&'a str]) -> Option<Command<'a>>
    ensures { program_of (map (λ w. w.now) rest.now) ≡ option_map seen_command result }
{
    match rest {
        &[station] => Some(Command::Program { station }),
        &[station, bay] => Some(Command::BayProgram { station, bay }),
        _ => None,
    }
}

// `make NUMBER station`, or `positions`, or `log`.
fn make_words<'a>(rest: &[&'a str]) -> Option<Command<'a>>
    ensures { make_of (map (λ w. w.now) rest.now) ≡ option_map seen_command result }
{
    let &[number, text] = rest else {
        return None;
    };
    let Some(feeders) = feeders_named(number) else {
        return None;
    };
    match text_named(text) {
        Some(text) => Some(Command::Make { feeders, text }),
        None => None,
    }
}

// `work NUMBER`.
fn work_words<'a>(rest: &[&'a str]) -> Option<Command<'a>>
    ensures { work_of (map (λ w. w.now) rest.now) ≡ option_map seen_command result }
{
    let &[number] = rest else {
        return None;
    };
    match feeders_named(number) {
        Some(feeders) => Some(Command::Work { feeders }),
        None => None,
    }
}

// `station STATION`.
fn station_words<'a>(rest: &[&'a str]) -> Option<Command<'a>>
    ensures { station_of (map (λ w. w.now) rest.now) ≡ option_map seen_command result }
{
    let &[station] = rest else {
        return None;
    };
    Some(Command::Station { station })
}

// `compare OLD NEW`.
fn compare_words<'a>(rest: &[&'a str]) -> Option<Command<'a>>
    ensures { compare_of (map (λ w. w.now) rest.now) ≡ option_map seen_command result }
{
    let &[old, new] = rest else {
        return None;
    };
    Some(Command::Compare { old, new })
}

// `tests STATION BAY`, or `tests STATION`.
fn tests_words<'a>(rest: &[&'a str]) -> Option<Command<'a>>
    ensures { tests_of (map (λ w. w.now) rest.now) ≡ option_map seen_command result }
{
    match rest {
        &[station] => Some(Command::StationTests { station }),
        &[station, bay] => Some(Command::Tests { station, bay }),
        _ => None,
    }
}

// `why STATION POSITIONS open SWITCH`, or `close`.
fn why_words<'a>(rest: &[&'a str]) -> Option<Command<'a>>
    ensures { why_of (map (λ w. w.now) rest.now) ≡ option_map seen_command result }
{
    let &[station, positions, direction, switch] = rest else {
        return None;
    };
    match direction_of(direction) {
        Some(direction) => {
            let asked = AskedOperation {
                positions,
                direction,
                switch,
            };
            Some(Command::Why { station, asked })
        }
        None => None,
    }
}

// The command of a name and the words after it.
fn named<'a>(name: &str, rest: &[&'a str]) -> Option<Command<'a>>
    ensures { named_command (name.now ∷ map (λ w. w.now) rest.now) ≡ option_map seen_command result }
{
    match name {
        "check" => check_words(rest),
        "explain" => explain_words(rest),
        "state" => state_words(rest),
        "order" => order_words(rest),
        "replay" => replay_words(rest),
        "audit" => audit_words(rest),
        "node" => node_words(rest),
        "compile" => compile_words(rest),
        "trips" => trips_words(rest),
        "plan" => plan_words(rest),
        "program" => program_words(rest),
        "make" => make_words(rest),
        "work" => work_words(rest),
        "station" => station_words(rest),
        "compare" => compare_words(rest),
        "tests" => tests_words(rest),
        "why" => why_words(rest),
        _ => None,
    }
}

// The command that the words name.
pub(crate) fn read_command<'a>(alloc: Global, words: &'a [String]) -> Result<Command<'a>, End>
    ensures ok { IfOk result (λ command. command_of (map string_bytes words.entry.now) ≡ Some (seen_command command)) }
    ensures err { IfErr result (WordsUnread (command_of (map string_bytes words.entry.now))) }
{
    let row = match read_words(alloc, words) {
        Ok(row) => row,
        Err(_) => return Err(End::Memory),
    };
    let Some(row) = row else {
        return Err(End::Usage);
    };
    match named(row.name, &row.words) {
        Some(command) => Ok(command),
        None => Err(End::Usage),
    }
}
