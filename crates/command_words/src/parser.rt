//! The `clap` command: one level of commands, each with positional words, of which the last may be left out.
ghost use Rattle.std.specs.Prelude.{◌≡◌, ◌≤◌, [], false, true, fold, map, IfOk};
ghost use Rattle.std.specs.List.{list_all};
ghost use Rattle.clap.specs.Words.{app_of, rule_of, with_subcommand};
ghost use Rattle.clap.specs.declared.builder.Command.TheViews.{out-Command as fields_of};
ghost use Rattle.command_words.specs.Rows.{are_few, has_few_words, rows_from};
ghost use Rattle.command_words.specs.App.{bare, command_line, optional_rule, row_shape, word_rule};

use crate::row::ROWS;
use clap::{Arg, ArgAction, Command};
use std::alloc::{AllocError, Global};

// The ids of the words of a command, in order. They are never shown.
pub(crate) const IDS: [&str; 4] = ["first", "second", "third", "fourth"];

// A required word.
fn word<'a>(alloc: Global, id: &'a str) -> Arg<'a>
    ensures rule { rule_of result ≡ word_rule id.entry.now }
    ensures local { result.global ≡ false }
{
    Arg::new(alloc, id).required(true).action(ArgAction::Set)
}

// A word that may be left out.
fn optional_word<'a>(alloc: Global, id: &'a str) -> Arg<'a>
    ensures rule { rule_of result ≡ optional_rule id.entry.now }
    ensures local { result.global ≡ false }
{
    Arg::new(alloc, id).action(ArgAction::Set)
}

// The command of this name that one word follows.
fn one<'a>(alloc: Global, name: &'a str) -> Result<Command<'a>, AllocError>
    ensures app { IfOk result (λ c. app_of c ≡ record { top = row_shape (name.entry.now, 1, 1); subs = [] }) }
    ensures local { IfOk result (λ c. (fields_of c).has_globals ≡ false) }
{
    Command::new(alloc, name).arg(word(alloc, IDS[0]))
}

// The command of this name that one word follows, or two.
fn one_or_two<'a>(alloc: Global, name: &'a str) -> Result<Command<'a>, AllocError>
    ensures app { IfOk result (λ c. app_of c ≡ record { top = row_shape (name.entry.now, 1, 2); subs = [] }) }
    ensures local { IfOk result (λ c. (fields_of c).has_globals ≡ false) }
{
    one(alloc, name)?.arg(optional_word(alloc, IDS[1]))
}

// The command of this name that two words follow.
fn two<'a>(alloc: Global, name: &'a str) -> Result<Command<'a>, AllocError>
    ensures app { IfOk result (λ c. app_of c ≡ record { top = row_shape (name.entry.now, 2, 2); subs = [] }) }
    ensures local { IfOk result (λ c. (fields_of c).has_globals ≡ false) }
{
    one(alloc, name)?.arg(word(alloc, IDS[1]))
}

// The command of this name that two words follow, or three, or four.
fn two_to_four<'a>(alloc: Global, name: &'a str) -> Result<Command<'a>, AllocError>
    ensures app { IfOk result (λ c. app_of c ≡ record { top = row_shape (name.entry.now, 2, 4); subs = [] }) }
    ensures local { IfOk result (λ c. (fields_of c).has_globals ≡ false) }
{
    two(alloc, name)?
        .arg(optional_word(alloc, IDS[2]))?
        .arg(optional_word(alloc, IDS[3]))
}

// The command of this name that three words follow.
fn three<'a>(alloc: Global, name: &'a str) -> Result<Command<'a>, AllocError>
    ensures app { IfOk result (λ c. app_of c ≡ record { top = row_shape (name.entry.now, 3, 3); subs = [] }) }
    ensures local { IfOk result (λ c. (fields_of c).has_globals ≡ false) }
{
    two(alloc, name)?.arg(word(alloc, IDS[2]))
}

// The command of this name that four words follow.
fn four<'a>(alloc: Global, name: &'a str) -> Result<Command<'a>, AllocError>
    ensures app { IfOk result (λ c. app_of c ≡ record { top = row_shape (name.entry.now, 4, 4); subs = [] }) }
    ensures local { IfOk result (λ c. (fields_of c).has_globals ≡ false) }
{
    three(alloc, name)?.arg(word(alloc, IDS[3]))
}

// The command line without its commands.
fn bare_command<'a>(alloc: Global) -> Command<'a>
    ensures app { app_of result ≡ bare }
    ensures local { (fields_of result).has_globals ≡ false }
{
    Command::new(alloc, "interlock")
        .no_binary_name(true)
        .disable_help_flag(true)
        .disable_help_subcommand(true)
        .subcommand_required(true)
}

// The command of a row.
fn row_command<'a>(
    alloc: Global,
    name: &'a str,
    least: usize,
    most: usize,
) -> Result<Command<'a>, AllocError>
    requires { are_few least most ≡ true }
    ensures app { IfOk result (λ c. app_of c ≡ record { top = row_shape (name.entry.now, least, most); subs = [] }) }
    ensures local { IfOk result (λ c. (fields_of c).has_globals ≡ false) }
{
    match most {
        1 => one(alloc, name),
        2 if least == 1 => one_or_two(alloc, name),
        2 => two(alloc, name),
        3 => three(alloc, name),
        _ if least == 2 => two_to_four(alloc, name),
        _ => four(alloc, name),
    }
}

// The command line with the commands of these rows after its own.
fn with_rows<'a>(
    alloc: Global,
    mut line: Command<'a>,
    rows: &[(&'a str, usize, usize)],
) -> Result<Command<'a>, AllocError>
    requires { list_all has_few_words rows.now ≡ true }
    ensures { IfOk result (λ c. app_of c ≡ fold with_subcommand (app_of line.entry)
        (map row_shape (rows_from rows.entry.now))) }
{
    for row in rows {
        line = line.subcommand(row_command(alloc, row.0, row.1, row.2)?)?;
    }
    Ok(line)
}

// The command line.
pub(crate) fn command_line<'a>(alloc: Global) -> Result<Command<'a>, AllocError>
    ensures { IfOk result (λ c. app_of c ≡ command_line) }
{
    with_rows(alloc, bare_command(alloc), &ROWS)
}
