//! Writes into a slot, each with what a crash inside it may leave.
ghost use Rattle.std.specs.Prelude.{◌≡◌, ◌≤◌, ◌+◌, ◌↔◌, length, OnOk, OnErr, IsTrue};
ghost use Rattle.ilk_base.specs.Outside.{Rose};
ghost use Rattle.node_store.specs.declared.sizes.TheConstants.{DEVICE_BYTES};
ghost use Rattle.node_store.specs.Device.{Told, Becomes, IsChangedWithin, IsWritten, RisesBy, IsSettled, LeavesOnly};
ghost use Rattle.node_store.specs.Image.{IsOpen};
ghost use Rattle.node_store.specs.Slots.{number};
ghost use Rattle.node_store.specs.Store.{MayClose, HoldsIfOpen};

use crate::device::Device;
use crate::slots::{Slot, piece_of};
use bay_node::Kept;
use ilk_base::Failed;

// A write, and a sync.
fn write_through<D: Device>(device: &mut D, at: u8, piece: &[u8]) -> Result<(), Failed>
    requires place { at + length piece.now ≤ DEVICE_BYTES }
    requires settled { Told (D.content device.old) (λ image. IsSettled D.moment D.left_since device.old image) }
    // A crash leaves what was there, but for any bytes in the range.
    ensures crash { Told (D.content device.old) (λ image.
        LeavesOnly D.moment D.left_between D.left_since device.old device.new
        (IsChangedWithin at (length piece.now) image)) }
    ensures written { OnOk result (Becomes (D.content device.old) (D.content device.new) (λ image after.
        IsSettled D.moment D.left_since device.new after × IsWritten at piece.now image after)) }
    ensures counted { RisesBy 2 (D.calls device.old) (D.calls device.new) }
    ensures others { D.read_faults device.new ≡ D.read_faults device.old }
    ensures grows { D.write_faults device.old ≤ D.write_faults device.new }
    ensures failed { OnErr result (Rose (D.write_faults device.old) (D.write_faults device.new)) }
{
    device.write(at, piece)?;
    device.sync()?;
    Ok(())
}

// Closes an open slot.
fn close<D: Device>(device: &mut D, slot: Slot) -> Result<(), Failed>
    requires { Told (D.content device.old)
        (λ image. IsSettled D.moment D.left_since device.old image × IsOpen image (number slot)) }
    // A crash leaves the slot closed or as it was.
    ensures crash { Told (D.content device.old) (λ image.
        LeavesOnly D.moment D.left_between D.left_since device.old device.new (MayClose (number slot) image)) }
    ensures closed { OnOk result (Becomes (D.content device.old) (D.content device.new) (λ image after.
        IsSettled D.moment D.left_since device.new after × MayClose (number slot) image after
        × ¬ (IsOpen after (number slot)))) }
    ensures counted { RisesBy 2 (D.calls device.old) (D.calls device.new) }
    ensures others { D.read_faults device.new ≡ D.read_faults device.old }
    ensures grows { D.write_faults device.old ≤ D.write_faults device.new }
    ensures failed { OnErr result (Rose (D.write_faults device.old) (D.write_faults device.new)) }
{
    write_through(device, slot.place(), &[0])
}

// Closes the slot where it is open. The gate of a closed slot is not written: a crash in that write could
// open what an earlier stop left there.
pub(crate) fn make_room<D: Device>(device: &mut D, slot: Slot, is_open: bool) -> Result<(), Failed>
    requires { Told (D.content device.old)
        (λ image. IsSettled D.moment D.left_since device.old image × (IsTrue is_open ↔ IsOpen image (number slot))) }
    ensures crash { Told (D.content device.old) (λ image.
        LeavesOnly D.moment D.left_between D.left_since device.old device.new (MayClose (number slot) image)) }
    ensures closed { OnOk result (Becomes (D.content device.old) (D.content device.new) (λ image after.
        IsSettled D.moment D.left_since device.new after × MayClose (number slot) image after
        × ¬ (IsOpen after (number slot)))) }
    ensures counted { RisesBy 2 (D.calls device.old) (D.calls device.new) }
    ensures others { D.read_faults device.new ≡ D.read_faults device.old }
    ensures grows { D.write_faults device.old ≤ D.write_faults device.new }
    ensures failed { OnErr result (Rose (D.write_faults device.old) (D.write_faults device.new)) }
{
    if is_open {
        return close(device, slot);
    }
    Ok(())
}

// Puts a record into a closed slot, and then opens it.
pub(crate) fn fill<D: Device>(
    device: &mut D,
    slot: Slot,
    sequence: u64,
    kept: &Kept,
) -> Result<(), Failed>
    requires { Told (D.content device.old)
        (λ image. IsSettled D.moment D.left_since device.old image × ¬ (IsOpen image (number slot))) }
    // A crash leaves the slot closed, or open with all of the record.
    ensures crash { Told (D.content device.old) (λ image.
        LeavesOnly D.moment D.left_between D.left_since device.old device.new
        (HoldsIfOpen (number slot) sequence kept.now image)) }
    ensures filled { OnOk result (Becomes (D.content device.old) (D.content device.new) (λ image after.
        IsSettled D.moment D.left_since device.new after × HoldsIfOpen (number slot) sequence kept.now image after
        × IsOpen after (number slot))) }
    ensures counted { RisesBy 4 (D.calls device.old) (D.calls device.new) }
    ensures others { D.read_faults device.new ≡ D.read_faults device.old }
    ensures grows { D.write_faults device.old ≤ D.write_faults device.new }
    ensures failed { OnErr result (Rose (D.write_faults device.old) (D.write_faults device.new)) }
{
    let gate = slot.place();
    let piece = piece_of(sequence, kept);
    write_through(device, gate + 1, &piece)?;
    write_through(device, gate, &[1])
}
