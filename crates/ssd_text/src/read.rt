//! A whole text.

ghost use Rattle.std.specs.Prelude.{◌≡◌, ◌+◌, ◌<◌, ◌≤◌, List, ℕ, length, IsUtf8};
ghost use Rattle.ssd_text.specs.declared.refusal.TextRefusal.{TextRefusal as Refusal};
ghost use Rattle.ssd_text.specs.Grammar.{Piece as GrammarPiece};
ghost use Rattle.ssd_text.specs.Nesting.{no_piece, Next, Goes, nothing, Spells, mark_len};
ghost use Rattle.ilk_base.specs.declared.limits.TheConstants.{FILE_BYTES};
ghost use Rattle.ssd_text.specs.Seen.{entries_of, nest_of, TellsOutcome};

use crate::nest::{Nest, finish, step};
use crate::pieces::front_piece;
use crate::refusal::TextRefusal;
use crate::tree::{Tree, TreeElement};
use std::alloc::Global;
use std::str;

// The fault of a text in which no whole piece begins.
#[tactic(auto, unfolding(crate::specs::Nesting::no_piece))]
fn no_piece(bytes: &[u8], at: u32) -> TextRefusal
    ensures { result ≡ no_piece at bytes.now }
{
    if bytes.starts_with(b"<!DOCTYPE") {
        TextRefusal::Doctype { at }
    } else {
        TextRefusal::Syntax { at }
    }
}

// Takes the piece in front, and gives what follows it.
fn advance<'a>(
    alloc: Global,
    nest: &mut Nest<'a>,
    bytes: &'a [u8],
    at: u32,
) -> Result<&'a [u8], TextRefusal>
    requires { IsUtf8 bytes.now }
    ensures { TellsOutcome (λ next. (nest_of nest.new, next.now)) result (λ o. Next at (nest_of nest.old) bytes.now o) }
{
    match front_piece(alloc, bytes) {
        Err(_) => Err(TextRefusal::Memory),
        Ok(None) => Err(no_piece(bytes, at)),
        Ok(Some((piece, next))) => match step(nest, at, piece) {
            Ok(()) => Ok(next),
            Err(fault) => Err(fault),
        },
    }
}

// The length of a byte order mark in front.
#[tactic(auto, unfolding(crate::specs::Nesting::mark_len))]
fn mark_len(bytes: &[u8]) -> usize
    ensures value { result ≡ mark_len bytes.now }
    ensures within { result ≤ length bytes.now }
{
    if bytes.starts_with(b"\xEF\xBB\xBF") {
        3
    } else {
        0
    }
}

// The elements of the text from a place on.
fn nodes_of<'a>(
    alloc: Global,
    bytes: &'a [u8],
    start: u32,
) -> Result<Vec<TreeElement<'a>>, TextRefusal>
    requires text { IsUtf8 bytes.now }
    requires small { start + length bytes.now ≤ FILE_BYTES }
    ensures { TellsOutcome (λ v. entries_of v.items) result (λ o. (ps : List GrammarPiece)
        × Goes start nothing bytes.now ps o) }
{
    let mut nest = Nest {
        nodes: Vec::new(alloc),
        within: Vec::new(alloc),
    };
    let mut rest = bytes;
    let mut at = start;
    while !rest.is_empty() {
        match advance(alloc, &mut nest, rest, at) {
            Ok(next) => {
                at += (rest.len() - next.len()) as u32;
                rest = next;
            }
            Err(fault) => return Err(fault),
        }
    }
    finish(nest, at)
}

/// Reads a text of at most 8,388,608 bytes: the tree that it spells, or the first of its faults.
///
/// A byte order mark in front is passed over, and a declared encoding is not looked at. The time is
/// that of the text's length, but for the names of a tag's attributes, which are sorted so as to
/// find a pair that is equal; no text makes it grow with the square of its length. The memory is
/// that of the tree, and while a tag is read up to 32 bytes more for each of its attributes. After
/// `Memory` nothing of the tree is left.
pub fn read_text<'a>(alloc: Global, bytes: &'a [u8]) -> Result<Tree<'a>, TextRefusal>
    requires { length bytes.now ≤ FILE_BYTES }
    ensures { TellsOutcome (λ tree. tree) result (λ o. Spells bytes.now o) }
{
    if let Err(e) = str::from_utf8(bytes) {
        return Err(TextRefusal::Encoding {
            at: e.valid_up_to() as u32,
        });
    }
    let mark = mark_len(bytes);
    let (_, rest) = bytes.split_at(mark);
    match nodes_of(alloc, rest, mark as u32) {
        Ok(nodes) => Ok(Tree { nodes }),
        Err(fault) => Err(fault),
    }
}
