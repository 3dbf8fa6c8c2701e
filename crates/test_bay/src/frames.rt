//! Rows written out by hand, by the table of the format.
ghost use Rattle.bay_frames.specs.Row.{IsLawfulBody};

use bay_frames::{Body, Frame, FrameList, FrameRefusal};
use ilk_base::{BayId, Summary};
use std::test::Fail;

// A frame from one bay to another.
fn frame(from: u8, to: u8, round: u32, body: Body) -> Frame {
    Frame {
        from: BayId(from),
        to: BayId(to),
        round,
        body,
    }
}

// Bytes that are no frame, and why.
const REFUSED: &[(&[u8], FrameRefusal)] = &[
    (&[], FrameRefusal::Short { have: 0, want: 9 }),
    (
        &[6, 1, 2, 0, 0, 0, 1, 0, 0],
        FrameRefusal::Kind { found: 6 },
    ),
    (
        &[1, 1, 2, 0, 0, 0, 1, 0, 1],
        FrameRefusal::Length { length: 1 },
    ),
    (
        &[2, 2, 1, 0, 0, 0, 1, 0, 1],
        FrameRefusal::Short { have: 9, want: 10 },
    ),
    (
        &[1, 1, 2, 0, 0, 0, 1, 0, 0, 0],
        FrameRefusal::Long { have: 10, want: 9 },
    ),
    (
        &[1, 1, 1, 0, 0, 0, 1, 0, 0],
        FrameRefusal::Field { place: 2 },
    ),
    (
        &[1, 1, 2, 0, 0, 0, 0, 0, 0],
        FrameRefusal::Field { place: 3 },
    ),
];

// Whether each row is refused so.
fn are_refused(rows: &[(&[u8], FrameRefusal)]) -> bool {
    for (bytes, refusal) in rows {
        if Frame::decode(bytes) != Err(*refusal) {
            return false;
        }
    }
    true
}

#[test]
fn refuses_the_table(rt: HostRuntime) {
    assert!(rt; are_refused(REFUSED));
}

// Whether the row is read as one that bay 2 sends to bay 1 in its first round.
fn is_read(bytes: &[u8], body: Body) -> bool {
    Frame::decode(bytes) == Ok(frame(2, 1, 1, body))
}

// The answer of one byte.
fn answer(byte: u8) -> Body {
    Body::Answer(Summary::new(&[byte]).unwrap_or(Summary::empty()))
}

#[test]
fn reads_the_table(rt: HostRuntime) {
    let held = Body::Busy {
        holder: BayId(2),
        holder_round: 10,
    };
    assert!(rt; is_read(&[3, 2, 1, 0, 0, 0, 1, 0, 5, 2, 0, 0, 0, 10], held));
    assert!(rt; is_read(&[2, 2, 1, 0, 0, 0, 1, 0, 1, 4], answer(4)));
    assert!(rt; is_read(&[4, 2, 1, 0, 0, 0, 1, 0, 0], Body::Query));
}

#[test]
fn tells_a_refusal(rt: HostRuntime) -> Result<(), Fail> {
    let refusal = FrameRefusal::Short { have: 8, want: 9 };
    let text = format!(in rt.alloc(); "{refusal}")?;
    assert!(rt; text.as_str() == "8 bytes, 9 wanted");
    Ok(())
}

// Whether the row of the body, sent by bay 199 to bay 198 in the last round, is written so, and read
// again.
fn is_row(body: Body, want: &[u8]) -> bool
    requires { IsLawfulBody body }
{
    let frame = Frame {
        from: BayId(199),
        to: BayId(198),
        round: u32::MAX,
        body,
    };
    let mut into = [7; 64];
    let len = frame.encode(&mut into);
    &into[..len] == want && Frame::decode(want) == Ok(frame)
}

#[test]
fn writes_the_largest_values(rt: HostRuntime) {
    assert!(rt; is_row(Body::Reserve, &[1, 199, 198, 255, 255, 255, 255, 0, 0]));
    let summary = Summary::new(&[255; 32]).unwrap_or(Summary::empty());
    let mut answer = [255; 41];
    answer[..9].copy_from_slice(&[2, 199, 198, 255, 255, 255, 255, 0, 32]);
    assert!(rt; is_row(Body::Answer(summary), &answer));
    let busy = Body::Busy {
        holder: BayId(199),
        holder_round: u32::MAX,
    };
    let row = [
        3, 199, 198, 255, 255, 255, 255, 0, 5, 199, 255, 255, 255, 255,
    ];
    assert!(rt; is_row(busy, &row));
    assert!(rt; is_row(Body::Query, &[4, 199, 198, 255, 255, 255, 255, 0, 0]));
    assert!(rt; is_row(Body::Over, &[5, 199, 198, 255, 255, 255, 255, 0, 0]));
}

#[test]
fn keeps_frames(rt: HostRuntime) -> Result<(), Fail> {
    let mut list = FrameList::new(rt.alloc());
    list.push(frame(1, 2, 1, Body::Query))?;
    list.push(frame(2, 1, 1, Body::Over))?;
    assert!(rt; list.len() == 2);
    assert!(rt; list.get(1) == frame(2, 1, 1, Body::Over));
    Ok(())
}
