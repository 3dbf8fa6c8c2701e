//! A program of lines and of calls of function blocks.
use structured_text::{Heading, Line, Name};

/// A function block. It is written in the names of the first bay that calls it, its formulas numbered from 0.
#[derive(Drop)]
pub struct Block {
    /// what it is, of the first bay that calls it
    pub heading: Option<Heading>,
    /// what a call gives to it
    pub inputs: Vec<Name>,
    /// what can be read behind a call
    pub outputs: Vec<Name>,
    /// its other variables
    pub locals: Vec<Name>,
    /// its assignments, in order
    pub lines: Vec<Line>,
}

/// A call of an instance of a block, and what the block's variables stand for in the program.
#[derive(Drop)]
pub struct BlockCall {
    /// which section of the program it is
    pub heading: Option<Heading>,
    /// the number of the block
    pub block: usize,
    /// by how much the numbers of the bay's switches are higher than those of the bay for which the block is written
    pub shift: u16,
    /// the formula of the program for each formula of the block of what may be
    pub may: Vec<usize>,
    /// and for each of what is certain
    pub sure: Vec<usize>,
}

/// A step of a program.
#[derive(Drop)]
pub enum Step {
    /// an assignment
    Assign(Line),
    /// a call of an instance of its own
    Call(BlockCall),
}
