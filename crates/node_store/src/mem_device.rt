//! A device in memory. Each call is done at once; what was written since the last sync is marked, and
//! a crash may leave any bytes there.
ghost use Rattle.std.specs.Prelude.{◌≡◌, ◌≤◌, ◌<◌, ◌⊎◌, ◌+◌, ◌∷◌, ◌++◌, [], ℕ, List, Some, Bool, true, false, length};
ghost use Rattle.std.specs.Prelude.{take, drop, slice_index, IsTrue, IfOk, OnOk, OnErr};
ghost use Rattle.std.proofs.Math.ListN.{get_or, replicate};
ghost use Rattle.ilk_base.specs.Outside.{Rose};
ghost use Rattle.node_store.specs.declared.sizes.TheConstants.{DEVICE_BYTES};
ghost use Rattle.node_store.specs.Device.{IsChangedWithin, IsWritten, RisesBy};
ghost use Rattle.node_store.specs.Memory.{LeftSince, LeftBetween, IsMarked, since_splits};

use crate::device::Device;
use crate::sizes::DEVICE_BYTES;
use ilk_base::{Failed, Memory};
use std::alloc::Global;

// What a read gives at a moment, and which bytes were written since the last sync.
#[derive(Clone, Copy)]
struct Snapshot {
    bytes: [u8; DEVICE_BYTES],
    marks: [bool; DEVICE_BYTES],
}

/// A device in memory, with room for so many calls. It keeps the state before each call.
#[derive(Drop)]
pub struct MemDevice {
    state: Snapshot,
    past: Vec<Snapshot>,
    room: u32,
    calls: u64,
    failing: Option<u64>,
    read_faults: u64,
    write_faults: u64,
}

// Puts the piece over the bytes from a place on.
fn overwrite(bytes: &mut [u8; DEVICE_BYTES], at: usize, piece: &[u8])
    requires { at + length piece.now ≤ DEVICE_BYTES }
    ensures { IsWritten at piece.now bytes.old bytes.new }
{
    bytes[at..at + piece.len()].copy_from_slice(piece);
}

// Marks the bytes from a place on.
fn mark(marks: &mut [bool; DEVICE_BYTES], at: usize, len: usize)
    requires { at + len ≤ DEVICE_BYTES }
    ensures { IsMarked at len marks.old marks.new }
{
    marks[at..at + len].fill(true);
}

impl MemDevice {
    /// A device of zeros, with room for so many calls. It takes all its memory here.
    pub fn new(alloc: Global, calls: u32) -> Result<MemDevice, Memory>
        ensures { IfOk result (λ d. (d.state.bytes ≡ replicate DEVICE_BYTES 0)
            × (d.state.marks ≡ replicate DEVICE_BYTES false) × (d.past.items ≡ []) × (d.calls ≡ 0)) }
    {
        Ok(MemDevice {
            state: Snapshot {
                bytes: [0; DEVICE_BYTES],
                marks: [false; DEVICE_BYTES],
            },
            past: Vec::with_capacity(alloc, calls as usize)?,
            room: calls,
            calls: 0,
            failing: None,
            read_faults: 0,
            write_faults: 0,
        })
    }

    /// Lets that call and all later ones fail, without effect. Calls are numbered from 1.
    pub fn fail_from(&mut self, call: u32)
        ensures { self.new ≡ record self.old { failing = Some call } }
    {
        self.failing = Some(u64::from(call));
    }

    /// Ends this, and makes what was written the content.
    pub fn mend(&mut self)
        ensures { self.new ≡ record self.old
            { failing = None; state = record { bytes = self.old.state.bytes; marks = replicate DEVICE_BYTES false } } }
    {
        self.failing = None;
        self.state.marks = [false; DEVICE_BYTES];
    }

    /// What a read gives.
    pub fn bytes(&self) -> &[u8]
        ensures bytes { result.now ≡ self.now.state.bytes }
        ensures size { length result.now ≡ DEVICE_BYTES }
    {
        &self.state.bytes
    }

    // Counts a call and keeps the state before it, unless the call fails.
    fn begin(&mut self) -> bool
        ensures state { self.new.state ≡ self.old.state }
        ensures kept { IsTrue result → self.new.past.items ≡ self.old.past.items ++ self.old.state ∷ [] }
        ensures failed { result ≡ false → self.new.past.items ≡ self.old.past.items }
        ensures counted { RisesBy 1 self.old.calls self.new.calls }
        ensures read_faults { self.new.read_faults ≡ self.old.read_faults }
        ensures write_faults { self.new.write_faults ≡ self.old.write_faults }
    {
        self.calls = self.calls.saturating_add(1);
        if let Some(call) = self.failing
            && call <= self.calls
        {
            return false;
        }
        if self.past.len() >= self.room as usize {
            return false;
        }
        self.past.push(self.state).is_ok()
    }
}

impl Device for MemDevice {
    ghost content = { λ d. Some d.state.bytes };

    ghost moment = { λ d. length d.past.items };

    ghost left_since = { LeftSince };

    ghost left_between = { LeftBetween };

    ghost read_faults = { λ d. d.read_faults };

    ghost write_faults = { λ d. d.write_faults };

    ghost calls = { λ d. d.calls };

    ghost time = { since_splits };

    fn read(&mut self, at: u8, into: &mut [u8]) -> Result<(), Failed> {
        if !self.begin() {
            self.read_faults = self.read_faults.saturating_add(1);
            return Err(Failed);
        }
        let at = usize::from(at);
        let end = at + into.len();
        into.copy_from_slice(&self.state.bytes[at..end]);
        Ok(())
    }

    fn write(&mut self, at: u8, piece: &[u8]) -> Result<(), Failed> {
        if !self.begin() {
            self.write_faults = self.write_faults.saturating_add(1);
            return Err(Failed);
        }
        let place = usize::from(at);
        overwrite(&mut self.state.bytes, place, piece);
        mark(&mut self.state.marks, place, piece.len());
        Ok(())
    }

    fn sync(&mut self) -> Result<(), Failed> {
        if !self.begin() {
            self.write_faults = self.write_faults.saturating_add(1);
            return Err(Failed);
        }
        self.state.marks = [false; DEVICE_BYTES];
        Ok(())
    }
}
