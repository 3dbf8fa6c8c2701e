//! The first line that names a step or node that no line defines.
ghost use Rattle.std.specs.Prelude.{◌≡◌, ◌≢◌, ◌≤◌, ◌+◌, ◌∷◌, ℕ, List, suc, codes, length, IfOk, IfSome, IfNone};
ghost use Rattle.std.specs.Prelude.{IsTrue, IsFalse, MatchOption};
ghost use Rattle.text_lines.specs.declared.lines.TheConstants.{MOST_BYTES};
ghost use Rattle.text_lines.specs.Decimals.{IsDecimal};
ghost use Rattle.equation_text.specs.Words.{EndsWord};
ghost use Rattle.equation_text.specs.Faults.{feeds, IsNextWord, Behind};
ghost use Rattle.equation_text.specs.Entries.{has_entry, entry_in, AreDefined, NumberIsLost, NumbersKept, NumberLost};
ghost use Rattle.equation_text.specs.Entries.{InPart, StepsKept, StepLost, NodesKept, NodeLost, AllKept, OneLost};
ghost use Rattle.equation_text.specs.Entries.{IsFirstUndefined, NoneUndefined, IsFirstWithout, NoneWithout};

use crate::entries::{Entries, Kind, entries_of};
use crate::front::front_of;
use crate::words::{behind, cut_line, first_word};
use ilk_base::Memory;
use station_graph::Station;
use std::alloc::Global;
use text_lines::decimal_number;

// The word behind the blank with which the text begins, and what follows it.
fn next_word(text: &[u8]) -> Option<(&[u8], &[u8])>
    ensures some { IfSome result (λ p. IsNextWord text.now p.0.now p.1.now) }
    ensures none { IfNone result ((rest : List ℕ) → text.now ≢ 32 ∷ rest) }
{
    let Some(rest) = behind(text, b" ") else {
        return None;
    };
    Some(first_word(rest))
}

// What follows two words of the text.
fn behind_two(text: &[u8]) -> Option<&[u8]>
    ensures some { IfSome result (λ rest. Behind 2 text.now rest.now) }
    ensures ends { IfSome result (λ rest. EndsWord rest.now) }
    ensures none { IfNone result ((rest : List ℕ) → ¬ Behind 2 text.now rest) }
{
    let Some((_first, rest)) = next_word(text) else {
        return None;
    };
    let Some((_second, more)) = next_word(rest) else {
        return None;
    };
    Some(more)
}

// The number of the part that stands behind this word with which the line begins, and what follows it.
fn in_part<'a>(line: &'a [u8], head: &[u8]) -> Option<(u32, &'a [u8])>
    ensures some { IfSome result (λ p. InPart head.now line.now p.0 p.1.now) }
    ensures none { IfNone result ((p : ℕ) (more : List ℕ) → ¬ InPart head.now line.now p more) }
{
    let Some(rest) = behind(line, head) else {
        return None;
    };
    let Some((word, more)) = next_word(rest) else {
        return None;
    };
    let Some(part) = decimal_number(word) else {
        return None;
    };
    Some((part, more))
}

// Whether the step or node of the number that the word is, if it is one, is there.
fn is_kept(word: &[u8], kind: Kind, entries: &Entries) -> bool
    ensures yes { IsTrue result → (m : ℕ) → IsDecimal word.now m → IsTrue (has_entry entries.now (entry_in kind m)) }
    ensures no { IsFalse result → NumberIsLost (has_entry entries.now) kind word.now }
{
    let Some(number) = decimal_number(word) else {
        return true;
    };
    entries.has(kind, number)
}

// Whether that of each number among these words is.
fn are_kept(words: &[u8], kind: Kind, entries: &Entries) -> bool
    requires { EndsWord words.now }
    ensures yes { IsTrue result → NumbersKept (has_entry entries.now) kind words.now }
    ensures no { IsFalse result → NumberLost (has_entry entries.now) kind words.now }
{
    let mut left = words;
    while let Some((word, rest)) = next_word(left) {
        if !is_kept(word, kind, entries) {
            return false;
        }
        left = rest;
    }
    true
}

// Whether the step is there at which the line of a part says that it begins.
fn start_kept(line: &[u8], entries: &Entries) -> bool
    ensures yes { IsTrue result → StepsKept (has_entry entries.now) (codes "part") 0 line.now }
    ensures no { IsFalse result → StepLost (has_entry entries.now) (codes "part") 0 line.now }
{
    let Some((part, words)) = in_part(line, b"part") else {
        return true;
    };
    are_kept(words, Kind::StepsOf { part }, entries)
}

// Whether the steps are there to which the line of a step leads.
fn steps_kept(line: &[u8], entries: &Entries) -> bool
    ensures yes { IsTrue result → StepsKept (has_entry entries.now) (codes "step") 2 line.now }
    ensures no { IsFalse result → StepLost (has_entry entries.now) (codes "step") 2 line.now }
{
    let Some((part, rest)) = in_part(line, b"step") else {
        return true;
    };
    let Some(words) = behind_two(rest) else {
        return true;
    };
    are_kept(words, Kind::StepsOf { part }, entries)
}

// Whether the node is there to which the line of an operation leads.
fn goal_kept(line: &[u8], entries: &Entries) -> bool
    ensures yes { IsTrue result → NodesKept (has_entry entries.now) (codes "op") 2 line.now }
    ensures no { IsFalse result → NodeLost (has_entry entries.now) (codes "op") 2 line.now }
{
    let Some(rest) = behind(line, b"op") else {
        return true;
    };
    let Some(words) = behind_two(rest) else {
        return true;
    };
    are_kept(words, Kind::Nodes, entries)
}

// Whether the nodes are there to which the line of a node leads.
fn goals_kept(line: &[u8], entries: &Entries) -> bool
    ensures yes { IsTrue result → NodesKept (has_entry entries.now) (codes "node") 3 line.now }
    ensures no { IsFalse result → NodeLost (has_entry entries.now) (codes "node") 3 line.now }
{
    let Some(rest) = behind(line, b"node") else {
        return true;
    };
    let Some((_number, rest)) = next_word(rest) else {
        return true;
    };
    let Some(words) = behind_two(rest) else {
        return true;
    };
    are_kept(words, Kind::Nodes, entries)
}

// Whether all that the line names is there.
fn all_kept(line: &[u8], entries: &Entries) -> bool
    ensures yes { IsTrue result → AllKept (has_entry entries.now) line.now }
    ensures no { IsFalse result → OneLost (has_entry entries.now) line.now }
{
    if !start_kept(line, entries) {
        return false;
    }
    if !steps_kept(line, entries) {
        return false;
    }
    if !goal_kept(line, entries) {
        return false;
    }
    goals_kept(line, entries)
}

// How many lines stand before the first that names an entry that is not there.
fn lines_before(text: &[u8], entries: &Entries) -> Option<u32>
    requires short { length text.now ≤ MOST_BYTES }
    requires defined { AreDefined text.now (has_entry entries.now) }
    ensures { MatchOption result (NoneUndefined text.now) (IsFirstUndefined text.now) }
{
    let mut left = text;
    let mut count = 0u32;
    while let Some((line, rest)) = cut_line(left) {
        if !all_kept(line, entries) {
            return Some(count);
        }
        count += 1;
        left = rest;
    }
    None
}

// The number of the line behind these whole lines.
pub(crate) fn line_behind(lines: &[u8]) -> u32
    requires { length lines.now ≤ MOST_BYTES }
    ensures { result ≡ suc (feeds lines.now) }
{
    let mut line = 1u32;
    for byte in lines {
        if *byte == b'\n' {
            line += 1;
        }
    }
    line
}

// The first line that names a step or node that no line defines.
pub(crate) fn undefined_line(
    alloc: Global,
    station: &Station,
    text: &[u8],
) -> Result<Option<u32>, Memory>
    requires { length text.now ≤ MOST_BYTES }
    ensures { IfOk result (λ o. MatchOption o (NoneWithout station.now text.now)
        (IsFirstWithout station.now text.now)) }
{
    let front = front_of(alloc, station)?;
    let Some(body) = behind(text, front.bytes()) else {
        return Ok(None);
    };
    let entries = entries_of(alloc, body)?;
    let Some(count) = lines_before(body, &entries) else {
        return Ok(None);
    };
    Ok(Some(line_behind(front.bytes()) + count))
}
