//! What `stored` answers to the lines of its input, what its device has then, and how it ends.
ghost use Rattle.std.specs.Prelude.{◌≤◌};

use ilk_base::{MemShelf, MemSink, MemSource};
use interlock_cli::{Status, run_stored};
use node_store::{Device, MemDevice, Store};
use std::alloc::Global;
use std::process::Abort;
use std::test::Fail;
use test_stations::{TWO_FEEDERS, words_of};

const Q1: &str = "stored a.ssd S/V1/Q1 q1.bin";

const CLOSE: &[u8] = b"command close S/V1/Q1/QB1\n";

// The round that the command opens, from the empty record.
const ROUND: &[u8] = b"collecting 1\nsend 010102000000010000\n";

// How a call ends: its status, what `out` took, and its line on `err`.
#[derive(Clone, Copy)]
struct CallEnd {
    status: Status,
    text: &'static [u8],
    line: &'static str,
}

// Runs the words over the file a.ssd, the input and the device. A read of the input gives so many bytes at most.
fn expect_read(
    rt: &impl Abort,
    alloc: Global,
    words: &str,
    input: &[u8],
    at_once: usize,
    device: &mut MemDevice,
    want: &CallEnd,
) -> Result<(), Fail>
    requires { 1 ≤ at_once }
{
    let words = words_of(alloc, words)?;
    let mut shelf = MemShelf::new(alloc);
    shelf.put("a.ssd", TWO_FEEDERS.as_bytes())?;
    let mut input = MemSource::new(alloc, input, at_once)?;
    let mut out = MemSink::new(alloc, 1000, 77)?;
    let mut err = MemSink::new(alloc, 100, 7)?;
    let status = run_stored(
        alloc, &words, &mut shelf, &mut input, &mut out, &mut err, device,
    );
    assert!(rt; err.bytes() == want.line.as_bytes());
    assert!(rt; out.bytes() == want.text);
    assert!(rt; status == want.status);
    Ok(())
}

// The same, where no two lines come at once.
fn expect_stored(
    rt: &impl Abort,
    alloc: Global,
    words: &str,
    input: &[u8],
    device: &mut MemDevice,
    want: &CallEnd,
) -> Result<(), Fail> {
    expect_read(rt, alloc, words, input, 7, device, want)
}

#[test]
fn a_stored_round(rt: HostRuntime) -> Result<(), Fail> {
    let alloc = rt.alloc();
    let mut device = MemDevice::new(alloc, 40)?;
    let round = CallEnd {
        status: Status::Done,
        text: ROUND,
        line: "",
    };
    expect_stored(&rt, alloc, Q1, CLOSE, &mut device, &round)?;
    // the gate, the sequence, the highest round, and neither a lock nor a grant
    let mut image = [0; 64];
    image[0] = 1;
    image[8] = 1;
    image[12] = 1;
    assert!(rt; device.bytes() == image.as_slice());
    // the next session goes on from it, and puts into the other slot; its last line has no end
    let next = CallEnd {
        status: Status::Done,
        text: b"collecting 2\nsend 010102000000020000\n",
        line: "",
    };
    expect_stored(
        &rt,
        alloc,
        Q1,
        b"tick\ncommand close S/V1/Q1/QB1",
        &mut device,
        &next,
    )?;
    image[32] = 1;
    image[40] = 2;
    image[44] = 2;
    assert!(rt; device.bytes() == image.as_slice());
    // a record that is handed back is a line of no stored session
    let refused = CallEnd {
        status: Status::InputRefused,
        text: b"",
        line: "interlock: input refused 10 line 2\n",
    };
    let handed_back = b"tick\nkept 000000010000000000000000000000000000\n".as_slice();
    expect_stored(&rt, alloc, Q1, handed_back, &mut device, &refused)?;
    assert!(rt; device.bytes() == image.as_slice());
    Ok(())
}

// Of lines that come at once the record after the last is put, once; a refused one takes nothing from those before it.
#[test]
fn lines_at_once(rt: HostRuntime) -> Result<(), Fail> {
    let alloc = rt.alloc();
    let refused = CallEnd {
        status: Status::InputRefused,
        text: b"collecting 1\nsend 010102000000010000\ncollecting 2\nsend 010102000000020000\n",
        line: "interlock: input refused 10 line 4\n",
    };
    let input =
        b"command close S/V1/Q1/QB1\nrestart\ncommand close S/V1/Q1/QB1\nkept\ntick\n".as_slice();
    // at once: the gate, the sequence and the highest round of the one put
    let mut device = MemDevice::new(alloc, 40)?;
    expect_read(&rt, alloc, Q1, input, 100, &mut device, &refused)?;
    let mut image = [0; 64];
    image[0] = 1;
    image[8] = 1;
    image[12] = 2;
    assert!(rt; device.bytes() == image.as_slice());
    // one after another: two puts
    let mut device = MemDevice::new(alloc, 40)?;
    expect_read(&rt, alloc, Q1, input, 7, &mut device, &refused)?;
    image[12] = 1;
    image[32] = 1;
    image[40] = 2;
    image[44] = 2;
    assert!(rt; device.bytes() == image.as_slice());
    Ok(())
}

#[test]
fn a_failing_device(rt: HostRuntime) -> Result<(), Fail> {
    let alloc = rt.alloc();
    let read = CallEnd {
        status: Status::ReadFault,
        text: b"",
        line: "interlock: read fault\n",
    };
    let write = CallEnd {
        status: Status::WriteFault,
        text: b"",
        line: "interlock: write fault\n",
    };
    // from which call on each fails, how the session ends, and the highest round after it
    for (call, end, highest) in [
        (1, &write, 0),
        (2, &read, 0),
        (3, &read, 0),
        (4, &write, 0),
        (5, &write, 0),
        (6, &write, 0),
        // only the last sync failed
        (7, &write, 1),
    ] {
        let mut device = MemDevice::new(alloc, 40)?;
        device.fail_from(call);
        expect_stored(&rt, alloc, Q1, CLOSE, &mut device, end)?;
        device.mend();
        let found = Store::open(&mut device).map(|opened| opened.kept.highest);
        assert!(rt; found == Ok(highest), "after call {call}");
    }
    Ok(())
}

#[test]
fn an_unfit_record(rt: HostRuntime) -> Result<(), Fail> {
    let alloc = rt.alloc();
    let unfit = CallEnd {
        status: Status::InputRefused,
        text: b"",
        line: "interlock: input refused 12 line 0\n",
    };
    // no record
    let mut device = MemDevice::new(alloc, 40)?;
    assert!(rt; device.write(0, &[1]).is_ok());
    assert!(rt; device.write(8, &[1]).is_ok());
    assert!(rt; device.write(9, &[0xff; 18]).is_ok());
    expect_stored(&rt, alloc, Q1, CLOSE, &mut device, &unfit)?;
    // a record whose lock is of the bay itself: part 1, of its round 1
    assert!(rt;
        device
            .write(9, &[0, 0, 0, 1, 1, 1, 0, 0, 0, 1, 0, 0, 0, 0, 0, 0, 0, 0])
            .is_ok()
    );
    expect_stored(&rt, alloc, Q1, CLOSE, &mut device, &unfit)
}

// For other words the device is left alone.
#[test]
fn other_words(rt: HostRuntime) -> Result<(), Fail> {
    let alloc = rt.alloc();
    let node = CallEnd {
        status: Status::Done,
        text: b"keep 000000010000000000000000000000000000\ncollecting 1\nsend 010102000000010000\n",
        line: "",
    };
    let usage = CallEnd {
        status: Status::Usage,
        text: b"",
        line: "interlock: usage\n",
    };
    let mut device = MemDevice::new(alloc, 40)?;
    expect_stored(&rt, alloc, "node a.ssd S/V1/Q1", CLOSE, &mut device, &node)?;
    expect_stored(
        &rt,
        alloc,
        "stored a.ssd S/V1/Q1",
        CLOSE,
        &mut device,
        &usage,
    )?;
    expect_stored(
        &rt,
        alloc,
        "stored a.ssd S/V1/Q1 -",
        CLOSE,
        &mut device,
        &usage,
    )?;
    assert!(rt; device.bytes() == [0; 64].as_slice());
    Ok(())
}
