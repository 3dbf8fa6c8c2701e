//! How many bytes a device has, and what lies in them.

/// The bytes of the sequence number of a slot.
pub const SEQUENCE_BYTES: usize = 8;

/// The bytes of a kept record.
pub const RECORD_BYTES: usize = 18;

/// The bytes of a slot: its gate, its sequence number and its record, and some that are left over.
pub const SLOT_BYTES: usize = 32;

/// The bytes of a device, which has two slots.
pub const DEVICE_BYTES: usize = 2 * SLOT_BYTES;

// The bytes that are written behind the gate of a slot: its sequence number and its record.
pub(crate) const PIECE_BYTES: usize = SEQUENCE_BYTES + RECORD_BYTES;
