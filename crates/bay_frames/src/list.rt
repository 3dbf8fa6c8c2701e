//! A list of frames.
ghost use Rattle.std.specs.Prelude.{◌≡◌, ◌<◌, [], ◌∷◌, ◌++◌, length, Some, OnOk, OnErr, slice_get};

use crate::frame::Frame;
use ilk_base::Memory;
use std::alloc::Global;
use std::marker::Model;

/// Frames in the order in which they are sent, seen as a list.
#[derive(Drop)]
pub struct FrameList {
    frames: Vec<Frame>,
}

impl Model for FrameList {
    ghost use Rattle.std.specs.Prelude.{List};
    ghost use Rattle.bay_frames.specs.declared.frame.Frame.{Frame};

    ghost Value = { List Frame };

    ghost view = { λ l. l.frames.items };
}

impl FrameList {
    /// The empty list. Takes no memory.
    pub fn new(alloc: Global) -> FrameList
        ensures { result ≡ [] }
    {
        FrameList {
            frames: Vec::new(alloc),
        }
    }

    /// Appends the frame: constant time but for the moves of a list that grows. After `Memory` the
    /// list is unchanged.
    pub fn push(&mut self, frame: Frame) -> Result<(), Memory>
        ensures ok { OnOk result (self.new ≡ self.old ++ frame ∷ []) }
        ensures err { OnErr result (self.new ≡ self.old) }
    {
        // As a slice of one: the error of `Vec::push` hands the frame back, and the kit writes no
        // proof of that where an enum in it holds a `Summary`.
        self.frames.extend_from_slice(&[frame])?;
        Ok(())
    }

    /// How many frames there are, at once.
    pub fn len(&self) -> usize
        ensures { result ≡ length self.now }
    {
        self.frames.len()
    }

    /// The frame at a place, counted from 0, at once.
    pub fn get(&self, i: usize) -> Frame
        requires { i < length self.now }
        ensures { slice_get self.now i ≡ Some result }
    {
        self.frames[i]
    }

    /// All of the frames in their order, at once.
    pub fn frames(&self) -> &[Frame]
        ensures { result.now ≡ self.now }
    {
        &self.frames
    }
}
