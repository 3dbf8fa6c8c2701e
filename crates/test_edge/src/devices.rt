//! The device over a file: what it keeps, what it syncs, what it leaves alone, and whom it keeps out.
ghost use Rattle.std.specs.Prelude.{◌+◌, ◌≤◌, length};
ghost use Rattle.node_store.specs.declared.sizes.TheConstants.{DEVICE_BYTES};

use crate::folder::{Folder, Watch};
use node_store::{Device, FileDevice};
use std::fs;
use std::test::Fail;

// Whether the device is synced.
fn syncs<D: Device>(device: &mut D) -> bool {
    device.sync().is_ok()
}

// Whether these bytes are written at a place.
fn writes<D: Device>(device: &mut D, at: u8, piece: &[u8]) -> bool
    requires { at + length piece.now ≤ DEVICE_BYTES }
{
    device.write(at, piece).is_ok()
}

// Whether bytes are read at a place.
fn reads<D: Device>(device: &mut D, at: u8, into: &mut [u8]) -> bool
    requires { at + length into.old ≤ DEVICE_BYTES }
{
    device.read(at, into).is_ok()
}

// Whether the second half of the device is this.
fn has_half<D: Device>(device: &mut D, half: &[u8; 32]) -> bool {
    let mut into = [7; 32];
    reads(device, 32, &mut into) && into == *half
}

// Whether each call fails.
fn fails<D: Device>(device: &mut D) -> bool {
    let mut into = [7; 4];
    !reads(device, 32, &mut into) && !writes(device, 32, &[9]) && !syncs(device)
}

const KEPT: &str = "node_store_test.bin";

const ZEROS: [u8; 32] = [0; 32];

// Three bytes behind the first of the second half.
const THREE: [u8; 32] = [
    0, 1, 2, 3, 0, 0, 0, 0, 0, 0, 0, 0, 0, 0, 0, 0, 0, 0, 0, 0, 0, 0, 0, 0, 0, 0, 0, 0, 0, 0, 0, 0,
];

// Whether a missing file is made of zeros, and takes three bytes.
fn takes_bytes(rt: &HostRuntime) -> bool {
    let Ok(mut device) = FileDevice::new(rt.alloc(), rt, KEPT) else {
        return false;
    };
    syncs(&mut device)
        && has_half(&mut device, &ZEROS)
        && writes(&mut device, 33, &[1, 2, 3])
        && syncs(&mut device)
}

// Whether they are there for the next device over the file.
fn gives_bytes(rt: &HostRuntime) -> bool {
    let Ok(mut device) = FileDevice::new(rt.alloc(), rt, KEPT) else {
        return false;
    };
    has_half(&mut device, &THREE)
}

// Whether a device in no folder is not synced.
fn is_nowhere(rt: &HostRuntime) -> bool {
    let Ok(mut device) = FileDevice::new(rt.alloc(), rt, "no_folder/node_store_test.bin") else {
        return false;
    };
    !syncs(&mut device)
}

#[test]
fn keeps_a_file(rt: HostRuntime) -> Result<(), Fail> {
    assert!(rt; takes_bytes(&rt));
    assert!(rt; gives_bytes(&rt));
    assert!(rt; is_nowhere(&rt));
    fs::remove_file(&rt, KEPT)?;
    Ok(())
}

const SYNCED: &str = "test_edge_synced.bin";

// Whether a missing file is made: it is synced, and so is its folder, and then the device.
fn is_made<D: Device>(device: &mut D, watch: &Watch) -> bool {
    syncs(device) && watch.syncs.get() == 3
}

// Whether a sync of the device is one of the file, after which no write waits.
fn is_synced<D: Device>(device: &mut D, watch: &Watch) -> bool {
    writes(device, 33, &[1, 2, 3])
        && writes(device, 32, &[1])
        && watch.unsynced.get() == 2
        && syncs(device)
        && watch.unsynced.get() == 0
        && watch.syncs.get() == 4
}

// Whether it fails where that of the file does.
fn is_not_synced<D: Device>(device: &mut D, watch: &Watch) -> bool {
    if !writes(device, 0, &[7]) {
        return false;
    }
    watch.sync_fails.set(true);
    !syncs(device)
}

// Whether all of this is so of a device over a file that is watched.
fn is_watched(rt: &HostRuntime, watch: &Watch) -> bool {
    let folder = Folder { rt, watch };
    let Ok(mut device) = FileDevice::new(rt.alloc(), &folder, SYNCED) else {
        return false;
    };
    is_made(&mut device, watch)
        && is_synced(&mut device, watch)
        && is_not_synced(&mut device, watch)
}

#[test]
fn a_device_is_synced(rt: HostRuntime) -> Result<(), Fail> {
    let watch = Watch::new();
    assert!(rt; is_watched(&rt, &watch));
    fs::remove_file(&rt, SYNCED)?;
    Ok(())
}

const OTHER: &str = "test_edge_other.bin";

// Whether each call on the file as a device fails.
fn is_no_device(rt: &HostRuntime) -> bool {
    let Ok(mut device) = FileDevice::new(rt.alloc(), rt, OTHER) else {
        return false;
    };
    fails(&mut device)
}

// Whether the file has this text.
fn has_text(rt: &HostRuntime, text: &str) -> bool {
    match fs::read_to_string(rt, OTHER) {
        Ok(found) => found.as_str() == text,
        Err(_) => false,
    }
}

// Texts of no bytes, of few, and of one byte more than the image of a device has.
const TEXTS: &[&str] = &[
    "",
    "short",
    "a drawing, or whatever else has more bytes than the image of a device has, 65",
];

// Whether a file of each text is no device, and is left as it is.
fn are_left(rt: &HostRuntime, texts: &[&str]) -> bool {
    for text in texts {
        if fs::write(rt, OTHER, *text).is_err() || !is_no_device(rt) || !has_text(rt, text) {
            return false;
        }
    }
    true
}

// A file that is no device is left as it is, and each call on it fails.
#[test]
fn a_file_of_another_length(rt: HostRuntime) -> Result<(), Fail> {
    assert!(rt; are_left(&rt, TEXTS));
    fs::remove_file(&rt, OTHER)?;
    Ok(())
}

const LOCKED: &str = "test_edge_locked.bin";

// Four bytes at the start of the second half.
const FOUR: [u8; 32] = [
    1, 2, 3, 4, 0, 0, 0, 0, 0, 0, 0, 0, 0, 0, 0, 0, 0, 0, 0, 0, 0, 0, 0, 0, 0, 0, 0, 0, 0, 0, 0, 0,
];

// Whether no call of the second device succeeds while a first one is open over its file.
fn is_kept_out<D: Device>(rt: &HostRuntime, second: &mut D) -> bool {
    let Ok(mut first) = FileDevice::new(rt.alloc(), rt, LOCKED) else {
        return false;
    };
    writes(&mut first, 32, &[1, 2, 3, 4]) && fails(second)
}

// Whether the second device goes on once the first one is closed.
fn goes_on(rt: &HostRuntime) -> bool {
    let Ok(mut second) = FileDevice::new(rt.alloc(), rt, LOCKED) else {
        return false;
    };
    is_kept_out(rt, &mut second) && has_half(&mut second, &FOUR)
}

// While a device is open, no other one is over its file; nor where another process makes the file.
#[test]
fn one_device_over_a_file(rt: HostRuntime) -> Result<(), Fail> {
    assert!(rt; goes_on(&rt));
    fs::remove_file(&rt, LOCKED)?;
    Ok(())
}
