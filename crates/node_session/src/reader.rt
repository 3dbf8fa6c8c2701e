//! A reader of lines, which takes no more of the input than it must.
ghost use Rattle.std.specs.Prelude.{◌≡◌, ◌≤◌, ◌++◌, [], length, drop, position, Some, IfSome, IfOk, IfErr, OnOk};
ghost use Rattle.std.specs.Str.Lines.{strip_carriage_return};
ghost use Rattle.ilk_base.specs.Outside.{Rose};
ghost use Rattle.node_session.specs.Reading.{is_feed, is_long, TakesPiece, Fills, AsksNeeded, MoreFails, FillFails};
ghost use Rattle.node_session.specs.declared.reader.TheConstants.{CHUNK};

use crate::request::MOST_LINE;
use ilk_base::{Memory, Source};
use std::alloc::Global;
use std::marker::Model;

/// The most bytes that are asked of the input at once.
pub const CHUNK: usize = 4_096;

/// Why the input gave nothing.
#[derive(Clone, Copy, PartialEq, Eq)]
pub enum InputTrouble {
    /// There was not enough memory, and what was read may be lost.
    Memory,
    /// The input failed, and gave nothing in that read.
    Failed,
}

/// What stands at the front of the bytes that are held.
#[derive(Clone, Copy, PartialEq, Eq)]
pub enum Front {
    /// a line of so many bytes, and its line feed
    Line(usize),
    /// a line that is too long already, and no end of it yet
    TooLong,
    /// all that is left of the input, and no line feed
    Last,
}

/// The bytes of an input that were taken and are not passed yet, seen as their list. It takes no more of the input
/// than the front of what it holds needs.
#[derive(Drop)]
pub struct Reader {
    bytes: Vec<u8>,
    passed: usize,
}

impl Model for Reader {
    ghost use Rattle.std.specs.Prelude.{List, ℕ, drop, ◌≤◌, vec_len};

    ghost Value = { List ℕ };

    ghost view = { λ r. drop r.passed r.bytes.items };

    ghost invariant = { λ r. r.passed ≤ vec_len r.bytes };
}

/// The line without the one CR at its end. At once.
pub fn without_return(line: &[u8]) -> &[u8]
    ensures { result.now ≡ strip_carriage_return line.now }
{
    match line {
        [front @ .., b'\r'] => front,
        _ => line,
    }
}

// The place of the first LF.
fn first_feed(bytes: &[u8]) -> Option<usize>
    ensures { result ≡ position is_feed bytes.now }
{
    bytes.iter().position(|byte| *byte == b'\n')
}

// Whether a line that begins so is too long, wherever it ends.
fn is_long(bytes: &[u8]) -> bool
    ensures { result ≡ is_long bytes.now }
{
    without_return(bytes).len() > MOST_LINE
}

impl Reader {
    /// Holds nothing. Takes no memory.
    pub fn new(alloc: Global) -> Reader
        ensures { result ≡ [] }
    {
        Reader {
            bytes: Vec::new(alloc),
            passed: 0,
        }
    }

    /// The bytes that are held, at once.
    pub fn held(&self) -> &[u8]
        ensures { result.now ≡ self.now }
    {
        let (_, held) = self.bytes.split_at(self.passed);
        held
    }

    /// Passes so many of the bytes that are held, at once.
    pub fn pass(&mut self, count: usize)
        requires { count ≤ length self.old }
        ensures { self.new ≡ drop count self.old }
    {
        self.passed += count;
    }

    // Forgets the bytes that are passed.
    fn forget(&mut self, alloc: Global) -> Result<(), Memory>
        ensures { self.new ≡ self.old }
    {
        let held = Vec::from_slice(alloc, self.held())?;
        self.bytes = held;
        self.passed = 0;
        Ok(())
    }

    // Puts a piece behind the bytes that are held.
    fn push(&mut self, alloc: Global, piece: &[u8]) -> Result<(), Memory>
        ensures { OnOk result (self.new ≡ self.old ++ piece.now) }
    {
        self.forget(alloc)?;
        self.bytes.extend_from_slice(piece)?;
        Ok(())
    }

    /// Takes some more of the input, in one read of at most `CHUNK` bytes; false at its end. Memory: what is held.
    pub fn more<I: Source>(&mut self, alloc: Global, input: &mut I) -> Result<bool, InputTrouble>
        ensures ok { IfOk result (TakesPiece self.old self.new (I.left input.old) (I.left input.new)) }
        ensures err { IfErr result (MoreFails self.old self.new (I.left input.old) (I.left input.new)
            (Rose (I.faults input.old) (I.faults input.new))) }
        ensures asked { IfSome (I.left_before input.new) (λ b. I.left input.old ≡ Some b) }
        ensures grows { I.faults input.old ≤ I.faults input.new }
    {
        let mut chunk = [0; CHUNK];
        let Ok(count) = input.read(&mut chunk) else {
            return Err(InputTrouble::Failed);
        };
        let (piece, _) = chunk.split_at(count);
        match self.push(alloc, piece) {
            Ok(()) => Ok(count > 0),
            Err(_) => Err(InputTrouble::Memory),
        }
    }

    /// Takes so much of the input that the front of what is held is known. Before each read what is held has no
    /// line feed. Memory: what is held, at most a line and what one read gives.
    pub fn fill<I: Source>(&mut self, alloc: Global, input: &mut I) -> Result<Front, InputTrouble>
        requires { length self.old ≤ CHUNK }
        ensures ok { IfOk result (Fills self.old self.new (I.left input.old) (I.left input.new)) }
        ensures err { IfErr result (FillFails self.old self.new (I.left input.old) (I.left input.new)
            (Rose (I.faults input.old) (I.faults input.new))) }
        ensures asked { IfOk result (λ _. AsksNeeded self.old self.new (I.left input.old) (I.left_before input.old)
            (I.left_before input.new)) }
        ensures grows { I.faults input.old ≤ I.faults input.new }
    {
        loop {
            if let Some(len) = first_feed(self.held()) {
                return Ok(Front::Line(len));
            }
            if is_long(self.held()) {
                return Ok(Front::TooLong);
            }
            match self.more(alloc, input) {
                Ok(true) => {}
                Ok(false) => return Ok(Front::Last),
                Err(trouble) => return Err(trouble),
            }
        }
    }
}
