//! A program of blocks.
use program_blocks::{Block, Step};
use structured_text::Name;

/// A program of blocks.
#[derive(Drop)]
pub struct BlockProgram {
    /// its blocks
    pub blocks: Vec<Block>,
    /// for each of them the number of the first switch of the bay for which it is written
    pub firsts: Vec<u16>,
    /// its steps
    pub steps: Vec<Step>,
    /// the variables that they set, but for the releases
    pub variables: Vec<Name>,
}
