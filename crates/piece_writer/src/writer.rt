//! The writer: a buffer before an output.
ghost use Rattle.std.specs.Prelude.{◌≡◌, ◌++◌, ◌≤◌, ◌<◌, ◌+◌, [], ℕ, List, Option, length, true, false, IfOk, OnOk, OnErr};
ghost use Rattle.std.specs.Io.KnownBytes.{Appends};
ghost use Rattle.ilk_base.specs.Outside.{Rose, AppendsFront};
ghost use Rattle.piece_writer.specs.Putting.{Held, nothing_held, stand, HasPut, HasWritten, Puts};

use ilk_base::{Failed, Memory, Sink, write_all};
use std::alloc::Global;
use std::marker::Model;

/// The most bytes that a writer holds back.
pub const PIECE: usize = 65_536;

/// A buffer before an output, with which all calls are made. It takes all its memory when it is made. After a write
/// that fails it takes what is put, and gives nothing more to the output.
#[derive(Drop)]
pub struct PieceWriter {
    buffer: Vec<u8>,
    count: usize,
    failed: bool,
}

impl Model for PieceWriter {
    ghost use Rattle.std.specs.Prelude.{take, ◌≤◌, vec_len};
    ghost use Rattle.piece_writer.specs.Putting.{Held};

    ghost Value = { Held };

    ghost view = { λ w. record { bytes = take w.count w.buffer.items; failed = w.failed } };

    ghost invariant = { λ w. w.count ≤ vec_len w.buffer };
}

impl PieceWriter {
    /// A writer that holds nothing.
    pub fn new(alloc: Global) -> Result<PieceWriter, Memory>
        ensures { IfOk result (λ w. w ≡ nothing_held) }
    {
        Ok(PieceWriter {
            buffer: vec![in alloc; 0; PIECE]?,
            count: 0,
            failed: false,
        })
    }

    // Forgets what it holds, and that a write failed.
    pub(crate) fn begin(&mut self)
        ensures { self.new ≡ nothing_held }
    {
        self.count = 0;
        self.failed = false;
    }

    // Holds the bytes back too, where there is room for them; after a fault it has room for all.
    fn keep(&mut self, bytes: &[u8]) -> bool
        ensures kept { result ≡ true → (took : Option (List ℕ)) (faults : ℕ) →
            Puts (stand took faults self.old) (stand took faults self.new) bytes.now }
        ensures left { result ≡ false → self.new ≡ self.old }
        ensures calm { result ≡ false → self.old.failed ≡ false }
    {
        if self.failed {
            return true;
        }
        if bytes.len() > self.buffer.len() - self.count {
            return false;
        }
        self.buffer[self.count..self.count + bytes.len()].copy_from_slice(bytes);
        self.count += bytes.len();
        true
    }

    // What is held back.
    fn held(&self) -> &[u8]
        ensures { result.now ≡ self.now.bytes }
    {
        &self.buffer[..self.count]
    }

    // Gives the output what is held back.
    fn flush<S: Sink>(&mut self, sink: &mut S)
        ensures puts { Puts (stand (S.took sink.old) (S.faults sink.old) self.old)
            (stand (S.took sink.new) (S.faults sink.new) self.new) [] }
        ensures empty { self.new.failed ≡ false → self.new.bytes ≡ [] }
    {
        if self.failed {
            return;
        }
        let sent = write_all(sink, self.held());
        self.count = 0;
        self.failed = sent.is_err();
    }

    // Gives the output bytes before which nothing is held back.
    fn pass_on<S: Sink>(&mut self, sink: &mut S, bytes: &[u8])
        requires empty { self.old.bytes ≡ [] }
        requires calm { self.old.failed ≡ false }
        ensures { Puts (stand (S.took sink.old) (S.faults sink.old) self.old)
            (stand (S.took sink.new) (S.faults sink.new) self.new) bytes.now }
    {
        self.failed = write_all(sink, bytes).is_err();
    }

    /// Puts the bytes behind what was put before. Takes no memory.
    pub fn push<S: Sink>(&mut self, sink: &mut S, bytes: &[u8])
        ensures { Puts (stand (S.took sink.old) (S.faults sink.old) self.old)
            (stand (S.took sink.new) (S.faults sink.new) self.new) bytes.now }
    {
        if self.keep(bytes) {
            return;
        }
        self.flush(sink);
        if !self.keep(bytes) {
            self.pass_on(sink, bytes);
        }
    }
    // Gives the output what is held back, and says whether no write has failed.
    pub(crate) fn finish<S: Sink>(&mut self, sink: &mut S) -> Result<(), Failed>
        ensures { (start : Option (List ℕ)) (before : ℕ) (text : List ℕ) →
            HasPut start before text (stand (S.took sink.old) (S.faults sink.old) self.old)
            → HasWritten start (S.took sink.new) before (S.faults sink.new) text result }
    {
        self.flush(sink);
        if self.failed { Err(Failed) } else { Ok(()) }
    }
}
