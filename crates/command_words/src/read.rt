//! The reading of the words.
ghost use Rattle.std.specs.Prelude.{◌≡◌, ◌≢◌, ◌++◌, map, option_map, option_to_list, string_bytes, true, None, IfOk};
ghost use Rattle.std.specs.Prelude.{OnOk};
ghost use Rattle.std.specs.List.{filter_map, list_all};
ghost use Rattle.clap.specs.Words.{first_value, found_of, kind_of};
ghost use Rattle.command_words.specs.Rows.{is_plain, row_words, written};

use crate::parser::{IDS, command_line};
use crate::row::Row;
use clap::ArgMatches;
use clap::error::ErrorKind;
use ilk_base::Memory;
use std::alloc::Global;

// Whether a word is not empty and does not begin with `-`.
fn is_plain(word: &str) -> bool
    ensures { result ≡ is_plain word.now }
{
    match word.as_bytes() {
        [] => false,
        [first, ..] => *first != b'-',
    }
}

// Whether no word is empty or begins with `-`.
fn are_plain(words: &[String]) -> bool
    ensures { result ≡ list_all is_plain (map string_bytes words.now) }
{
    match words {
        [] => true,
        [first, rest @ ..] => is_plain(first.as_str()) && are_plain(rest),
    }
}

// What an error of this kind says: there was not enough memory, or the words are not of the written form.
fn refusal<'a>(kind: ErrorKind) -> Result<Option<Row<'a>>, Memory>
    ensures { IfOk result (λ o. (o ≡ None) × (kind ≢ ErrorKind.OutOfMemory)) }
{
    match kind {
        ErrorKind::OutOfMemory => Err(Memory),
        _ => Ok(None),
    }
}

// Appends a word, if there is one.
fn push_word<'a>(words: &mut Vec<&'a str>, word: Option<&'a str>) -> Result<(), Memory>
    ensures { OnOk result (words.new.items ≡ words.old.items ++ option_to_list word.entry) }
{
    if let Some(word) = word {
        words.push(word)?;
    }
    Ok(())
}

// The words that were given for these ids, in order.
fn words_of<'a>(
    alloc: Global,
    matches: &ArgMatches<'a>,
    ids: &[&str],
) -> Result<Vec<&'a str>, Memory>
    ensures { IfOk result (λ v. map (λ w. w.now) v.items
        ≡ filter_map (first_value (found_of matches.now)) (map (λ id. id.now) ids.now)) }
{
    let mut words = Vec::new(alloc);
    for id in ids {
        push_word(&mut words, matches.get_str(id))?;
    }
    Ok(words)
}

// The words of a command, of words of which none is empty or begins with `-`.
fn parse<'a>(alloc: Global, words: &'a [String]) -> Result<Option<Row<'a>>, Memory>
    requires { list_all is_plain (map string_bytes words.now) ≡ true }
    ensures { IfOk result (λ o. option_map row_words o ≡ written (map string_bytes words.entry.now)) }
{
    let matches = match command_line(alloc)?.try_get_matches_from(words) {
        Ok(matches) => matches,
        Err(e) => return refusal(e.kind()),
    };
    let Some((name, below)) = matches.subcommand() else {
        return Ok(None);
    };
    Ok(Some(Row {
        name,
        words: words_of(alloc, below, &IDS)?,
    }))
}

/// Reads the words of the command line, without the program's name: the name of a command and the words
/// after it, where there are as many as the command has and no word is empty or begins with `-`; else none.
/// What a word after the name says is not looked at. Time and memory: the words and the commands.
pub fn read_words<'a>(alloc: Global, words: &'a [String]) -> Result<Option<Row<'a>>, Memory>
    ensures { IfOk result (λ o. option_map row_words o ≡ written (map string_bytes words.entry.now)) }
{
    if are_plain(words) {
        parse(alloc, words)
    } else {
        Ok(None)
    }
}
