//! The two slots, and what their bytes say.
ghost use Rattle.std.specs.Prelude.{◌≡◌, ◌*◌, ◌-◌, ◌++◌, None, IfSome, length};
ghost use Rattle.std.specs.Int.{w64, to_be_bytes};
ghost use Rattle.bay_protocol.specs.declared.values.Kept.{Kept as Record};
ghost use Rattle.bay_protocol.specs.KeptRow.{kept_row, InRow};
ghost use Rattle.node_store.specs.declared.sizes.TheConstants.{RECORD_BYTES, SLOT_BYTES};
ghost use Rattle.node_store.specs.Image.{sequence, record_bytes, IsRecordRow};
ghost use Rattle.node_store.specs.Slots.{number};

use crate::sizes::{PIECE_BYTES, RECORD_BYTES, SEQUENCE_BYTES, SLOT_BYTES};
use bay_node::Kept;

// A slot.
#[derive(Clone, Copy)]
pub(crate) enum Slot {
    First,
    Second,
}

impl Slot {
    // Its first byte.
    pub(crate) fn place(self) -> u8
        ensures { result ≡ SLOT_BYTES * number self }
    {
        match self {
            Slot::First => 0,
            Slot::Second => SLOT_BYTES as u8,
        }
    }

    pub(crate) fn number(self) -> u8
        ensures { result ≡ number self }
    {
        match self {
            Slot::First => 0,
            Slot::Second => 1,
        }
    }

    pub(crate) fn other(self) -> Slot
        ensures { number result ≡ 1 - number self }
    {
        match self {
            Slot::First => Slot::Second,
            Slot::Second => Slot::First,
        }
    }
}

// What a slot holds behind its gate.
pub(crate) fn piece_of(sequence: u64, kept: &Kept) -> [u8; PIECE_BYTES]
    ensures bytes { result ≡ to_be_bytes w64 sequence ++ kept_row kept.now }
    ensures fits { InRow kept.now }
    ensures len { length (kept_row kept.now) ≡ RECORD_BYTES }
{
    let record_bytes = kept.to_bytes();
    let mut piece = [0; PIECE_BYTES];
    piece[..SEQUENCE_BYTES].copy_from_slice(&sequence.to_be_bytes());
    piece[SEQUENCE_BYTES..].copy_from_slice(&record_bytes);
    piece
}

// The sequence that stands in a slot.
pub(crate) fn sequence_in(bytes: &[u8; SLOT_BYTES]) -> u64
    ensures { result ≡ sequence bytes.now }
{
    let mut number = [0; SEQUENCE_BYTES];
    number.copy_from_slice(&bytes[1..1 + SEQUENCE_BYTES]);
    u64::from_be_bytes(number)
}

// The record that stands in a slot; none where there is none.
pub(crate) fn kept_in(bytes: &[u8; SLOT_BYTES]) -> Option<Kept>
    ensures some { IfSome result (λ kept. IsRecordRow (record_bytes bytes.now) kept) }
    ensures none { result ≡ None → (kept : Record) → ¬ (IsRecordRow (record_bytes bytes.now) kept) }
{
    let mut row = [0; RECORD_BYTES];
    row.copy_from_slice(&bytes[1 + SEQUENCE_BYTES..1 + PIECE_BYTES]);
    Kept::from_bytes(&row)
}
