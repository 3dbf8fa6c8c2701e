//! The store: opening it, and putting a record.
ghost use Rattle.std.specs.Prelude.{◌≡◌, ◌<◌, ◌≤◌, ◌⊎◌, ◌+◌, ◌^◌, ℕ, List, IfOk, IfErr, OnOk, OnErr, IsErrOf};
ghost use Rattle.ilk_base.specs.Outside.{Rose};
ghost use Rattle.bay_protocol.specs.declared.values.Kept.{Kept as AnyRecord};
ghost use Rattle.node_store.specs.declared.store.TheConstants.{LAST_SEQUENCE};
ghost use Rattle.node_store.specs.Device.{Told, Becomes, LeavesFrom, KeepsPast, RisesBy, IsSettled, LeavesOnly};
ghost use Rattle.node_store.specs.Image.{slot as slot_in, IsImageOf, IsRefusedSlot};
ghost use Rattle.node_store.specs.Slots.{number};
ghost use Rattle.node_store.specs.Store.{HasSlots, Matches, MatchesStore, store_sequence, NoneRefused, IsCause};
ghost use Rattle.node_store.specs.Store.{MayTake};

use crate::device::Device;
use crate::sizes::SLOT_BYTES;
use crate::slots::{Slot, kept_in, sequence_in};
use crate::writing::{fill, make_room};
use bay_node::Kept;
use ilk_base::Failed;

/// The greatest sequence with which a store goes on. A record that is put after it has a greater one, which
/// the next `Store::open` refuses; from zeros this takes 2 to the 63rd records.
pub const LAST_SEQUENCE: u64 = 9_223_372_036_854_775_807;

// The slot for whose record an image stands, its sequence, and whether the other one is open.
#[derive(Clone, Copy)]
pub(crate) struct Newest {
    slot: Slot,
    sequence: u64,
    other_open: bool,
}

/// The kept record on a device; none of its slots is open where it has no newest one.
#[derive(Clone, Copy)]
pub struct Store {
    newest: Option<Newest>,
}

/// A store that was opened, and the record for which the device's content stands.
#[derive(Clone, Copy)]
pub struct Opened {
    pub store: Store,
    pub kept: Kept,
}

/// Why a store was not opened.
#[derive(Clone, Copy, PartialEq, Eq)]
pub enum OpenTrouble {
    /// The sync failed.
    SyncFailed,
    /// A read failed.
    ReadFailed,
    /// The newest slot holds no record, or its sequence is above `LAST_SEQUENCE`.
    Record {
        /// that slot
        slot: u8,
    },
}

// Where the next record goes.
#[derive(Clone, Copy)]
struct NextSlot {
    slot: Slot,
    sequence: u64,
    is_open: bool,
    other_open: bool,
}

// What the two slots say.
fn newest_of(first: &[u8; SLOT_BYTES], second: &[u8; SLOT_BYTES]) -> Option<Newest>
    ensures { (image : List ℕ) → HasSlots image first.now second.now → Matches image result }
{
    let first_open = first[0] == 1;
    let second_open = second[0] == 1;
    let first_sequence = sequence_in(first);
    let second_sequence = sequence_in(second);
    if second_open && (!first_open || first_sequence < second_sequence) {
        return Some(Newest {
            slot: Slot::Second,
            sequence: second_sequence,
            other_open: first_open,
        });
    }
    if first_open {
        return Some(Newest {
            slot: Slot::First,
            sequence: first_sequence,
            other_open: second_open,
        });
    }
    None
}

// The bytes of a slot.
fn bytes_of<'a>(
    slot: Slot,
    first: &'a [u8; SLOT_BYTES],
    second: &'a [u8; SLOT_BYTES],
) -> &'a [u8; SLOT_BYTES]
    ensures { (image : List ℕ) → HasSlots image first.now second.now → slot_in image (number slot) ≡ result.now }
{
    match slot {
        Slot::First => first,
        Slot::Second => second,
    }
}

// The store for these two slots, or the slot that is refused.
fn decide(first: &[u8; SLOT_BYTES], second: &[u8; SLOT_BYTES]) -> Result<Opened, u8>
    ensures stands { IfOk result (λ o. (image : List ℕ) → HasSlots image first.now second.now →
        IsImageOf image o.kept) }
    ensures knows { IfOk result (λ o. (image : List ℕ) → HasSlots image first.now second.now →
        MatchesStore image o.store) }
    ensures none_refused { OnOk result ((image : List ℕ) → HasSlots image first.now second.now → NoneRefused image) }
    ensures last { IfOk result (λ o. store_sequence o.store ≤ LAST_SEQUENCE) }
    ensures refused { IfErr result (λ n. (image : List ℕ) → HasSlots image first.now second.now →
        IsRefusedSlot image n) }
{
    let Some(newest) = newest_of(first, second) else {
        return Ok(Opened {
            store: Store { newest: None },
            kept: Kept {
                highest: 0,
                lock: None,
                granted: None,
            },
        });
    };
    if newest.sequence > LAST_SEQUENCE {
        return Err(newest.slot.number());
    }
    match kept_in(bytes_of(newest.slot, first, second)) {
        Some(kept) => Ok(Opened {
            store: Store {
                newest: Some(newest),
            },
            kept,
        }),
        None => Err(newest.slot.number()),
    }
}

impl Store {
    /// Opens the store on a device that may hold what a crash left.
    pub fn open<D: Device>(device: &mut D) -> Result<Opened, OpenTrouble>
        ensures stands { IfOk result (λ o. Told (D.content device.old) (λ image. IsImageOf image o.kept)) }
        ensures knows { IfOk result (λ o. Told (D.content device.new)
            (λ image. MatchesStore image o.store × IsSettled D.moment D.left_since device.new image)) }
        ensures last { IfOk result (λ o. store_sequence o.store ≤ LAST_SEQUENCE) }
        // `Record` comes exactly where that slot is refused, unless a call failed.
        ensures none_refused { OnOk result (Told (D.content device.old) NoneRefused) }
        ensures refused { IfErr result (λ e. Told (D.content device.old) (λ image. IsCause image e)) }
        ensures sync_failed { IsErrOf result OpenTrouble.SyncFailed →
            Rose (D.write_faults device.old) (D.write_faults device.new) }
        ensures read_failed { IsErrOf result OpenTrouble.ReadFailed →
            Rose (D.read_faults device.old) (D.read_faults device.new) }
        // It changes nothing.
        ensures same { D.content device.new ≡ D.content device.old }
        ensures crash { LeavesFrom D.left_since (D.moment device.old) device.old device.new (λ c d. c ≡ d) }
        ensures past { KeepsPast D.moment D.left_between device.old device.new }
        ensures counted { RisesBy 3 (D.calls device.old) (D.calls device.new) }
        ensures read_grows { D.read_faults device.old ≤ D.read_faults device.new }
        ensures write_grows { D.write_faults device.old ≤ D.write_faults device.new }
    {
        let Ok(()) = device.sync() else {
            return Err(OpenTrouble::SyncFailed);
        };
        let mut first = [0; SLOT_BYTES];
        let Ok(()) = device.read(0, &mut first) else {
            return Err(OpenTrouble::ReadFailed);
        };
        let mut second = [0; SLOT_BYTES];
        let Ok(()) = device.read(SLOT_BYTES as u8, &mut second) else {
            return Err(OpenTrouble::ReadFailed);
        };
        match decide(&first, &second) {
            Ok(opened) => Ok(opened),
            Err(slot) => Err(OpenTrouble::Record { slot }),
        }
    }

    // The other slot, or the first where none is open.
    fn next_slot(self) -> NextSlot
        requires { store_sequence self + 1 < 2 ^ 64 }
        ensures ready { (image : List ℕ) → MatchesStore image self → MayTake image result }
        ensures sequence { result.sequence ≡ store_sequence self + 1 }
    {
        match self.newest {
            None => NextSlot {
                slot: Slot::First,
                sequence: 1,
                is_open: false,
                other_open: false,
            },
            Some(newest) => NextSlot {
                slot: newest.slot.other(),
                sequence: newest.sequence + 1,
                is_open: newest.other_open,
                other_open: true,
            },
        }
    }

    /// Puts a record in place of the one that is there. After `Failed` open the device again.
    pub fn put<D: Device>(self, device: &mut D, kept: &Kept) -> Result<Store, Failed>
        requires room { store_sequence self + 1 < 2 ^ 64 }
        requires knows { Told (D.content device.old)
            (λ image. MatchesStore image self × IsSettled D.moment D.left_since device.old image) }
        // A crash at any moment of the call leaves the old record or the new one.
        ensures crash { Told (D.content device.old) (λ image. (old : AnyRecord) → IsImageOf image old →
            LeavesOnly D.moment D.left_between D.left_since device.old device.new
            (λ c. IsImageOf c old ⊎ IsImageOf c kept.now)) }
        // Then a crash leaves the new one.
        ensures put { IfOk result (λ s. Becomes (D.content device.old) (D.content device.new) (λ _ after.
            IsSettled D.moment D.left_since device.new after × IsImageOf after kept.now × MatchesStore after s)) }
        ensures sequence { IfOk result (λ s. store_sequence s ≡ store_sequence self + 1) }
        ensures counted { RisesBy 6 (D.calls device.old) (D.calls device.new) }
        ensures others { D.read_faults device.new ≡ D.read_faults device.old }
        ensures grows { D.write_faults device.old ≤ D.write_faults device.new }
        ensures failed { OnErr result (Rose (D.write_faults device.old) (D.write_faults device.new)) }
    {
        let next = self.next_slot();
        make_room(device, next.slot, next.is_open)?;
        fill(device, next.slot, next.sequence, kept)?;
        Ok(Store {
            newest: Some(Newest {
                slot: next.slot,
                sequence: next.sequence,
                other_open: next.other_open,
            }),
        })
    }
}
