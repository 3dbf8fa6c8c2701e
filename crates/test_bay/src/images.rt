//! What no clause says: that each call succeeds where memory is ample.
ghost use Rattle.std.specs.Prelude.{◌+◌, ◌≤◌, length};
ghost use Rattle.node_store.specs.declared.sizes.TheConstants.{DEVICE_BYTES};

use bay_protocol::Kept;
use node_store::{Device, MemDevice, OpenTrouble, Store};
use std::test::Fail;

// The record of a bay that has opened so many rounds.
fn after_rounds(highest: u32) -> Kept {
    Kept {
        highest,
        lock: None,
        granted: None,
    }
}

// How a session ended.
#[derive(Clone, Copy, PartialEq, Eq)]
enum SessionEnd {
    Put,
    NotOpened(OpenTrouble),
    NotPut,
}

// Opens the store, and puts the record of one round more.
fn one_round_more(device: &mut MemDevice) -> SessionEnd {
    match Store::open(device) {
        Ok(opened) => {
            let kept = after_rounds(opened.kept.highest.saturating_add(1));
            match opened.store.put(device, &kept) {
                Ok(_) => SessionEnd::Put,
                Err(_) => SessionEnd::NotPut,
            }
        }
        Err(trouble) => SessionEnd::NotOpened(trouble),
    }
}

// Whether so many sessions put a round each.
fn puts(device: &mut MemDevice, sessions: u32) -> bool {
    for _ in 0..sessions {
        if one_round_more(device) != SessionEnd::Put {
            return false;
        }
    }
    true
}

// The bytes of a device whose slots have these sequences, with as many rounds, and neither a lock nor a grant. A slot
// is its gate, eight bytes of its sequence, and then the record; the second may be closed.
fn image(first: u8, second: Option<u8>) -> [u8; 64] {
    let mut bytes = [0; 64];
    bytes[0] = 1;
    bytes[8] = first;
    bytes[12] = first;
    if let Some(second) = second {
        bytes[32] = 1;
        bytes[40] = second;
        bytes[44] = second;
    }
    bytes
}

// Whether the device has these bytes.
fn has_bytes(device: &MemDevice, bytes: &[u8]) -> bool {
    device.bytes() == bytes
}

// One round is put, and three more, for which the slots take turns; the next is past the room of the device.
fn takes_turns(device: &mut MemDevice) -> bool {
    puts(device, 1)
        && has_bytes(device, &image(1, None))
        && puts(device, 3)
        && has_bytes(device, &image(3, Some(4)))
        && one_round_more(device) == SessionEnd::NotPut
}

#[test]
fn a_stored_round(rt: HostRuntime) -> Result<(), Fail> {
    let mut device = MemDevice::new(rt.alloc(), 40)?;
    assert!(rt; takes_turns(&mut device));
    Ok(())
}

const NOT_SYNCED: SessionEnd = SessionEnd::NotOpened(OpenTrouble::SyncFailed);

const NOT_READ: SessionEnd = SessionEnd::NotOpened(OpenTrouble::ReadFailed);

// From which call on each fails, how the session ends, and the highest round after it. At the seventh only the last
// sync fails.
const FAILING: &[(u32, SessionEnd, u32)] = &[
    (1, NOT_SYNCED, 0),
    (2, NOT_READ, 0),
    (3, NOT_READ, 0),
    (4, SessionEnd::NotPut, 0),
    (5, SessionEnd::NotPut, 0),
    (6, SessionEnd::NotPut, 0),
    (7, SessionEnd::NotPut, 1),
    (8, SessionEnd::Put, 1),
];

// Whether the device stands for the record of so many rounds.
fn stands_for(device: &mut MemDevice, highest: u32) -> bool {
    match Store::open(device) {
        Ok(opened) => opened.kept == after_rounds(highest),
        Err(_) => false,
    }
}

// Whether a session on the device, which fails from that call on, ends so, and what it then stands for.
fn ends_so(device: &mut MemDevice, call: u32, end: SessionEnd, highest: u32) -> bool {
    device.fail_from(call);
    let ended = one_round_more(device);
    device.mend();
    ended == end && stands_for(device, highest)
}

#[test]
fn a_failing_device(rt: HostRuntime) -> Result<(), Fail> {
    for (call, end, highest) in FAILING {
        let mut device = MemDevice::new(rt.alloc(), 40)?;
        assert!(rt; ends_so(&mut device, *call, *end, *highest));
    }
    Ok(())
}

// Whether these bytes are written.
fn writes(device: &mut MemDevice, at: u8, piece: &[u8]) -> bool
    requires { at + length piece.now ≤ DEVICE_BYTES }
{
    device.write(at, piece).is_ok()
}

// Whether the record of this slot is refused.
fn is_refused(device: &mut MemDevice, slot: u8) -> bool {
    one_round_more(device) == SessionEnd::NotOpened(OpenTrouble::Record { slot })
}

// Whether a slot that holds no record is refused.
fn refuses_first(device: &mut MemDevice) -> bool {
    writes(device, 0, &[1])
        && writes(device, 8, &[1])
        && writes(device, 9, &[0xff; 18])
        && is_refused(device, 0)
}

// Whether that slot is not read where a newer one is beside it, which is refused where its sequence is too great.
fn refuses_second(device: &mut MemDevice) -> bool {
    writes(
        device,
        32,
        &[1, 0x7f, 0xff, 0xff, 0xff, 0xff, 0xff, 0xff, 0xff],
    ) && stands_for(device, 0)
        && writes(device, 33, &[0x80, 0, 0, 0, 0, 0, 0, 0])
        && is_refused(device, 1)
}

#[test]
fn an_unfit_record(rt: HostRuntime) -> Result<(), Fail> {
    let mut device = MemDevice::new(rt.alloc(), 40)?;
    assert!(rt; refuses_first(&mut device));
    assert!(rt; refuses_second(&mut device));
    Ok(())
}
