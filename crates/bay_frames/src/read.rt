//! Reading.
ghost use Rattle.std.specs.Prelude.{◌≡◌, ◌<◌, ◌≤◌, ◌+◌, [], ◌∷◌, ◌++◌, ⊤, None, length, slice_index};
ghost use Rattle.bay_frames.specs.Tests.{said_length, round_at, is_kind, is_length, bay_test, receiver_test};
ghost use Rattle.bay_frames.specs.Tests.{round_test, count_tests, head_tests, size_tests, payload_tests, field_tests};
ghost use Rattle.bay_frames.specs.Tests.{first_refusal, PassesOrRefuses};
ghost use Rattle.bay_frames.specs.Fields.{bay_at, body_at, frame_at};

use crate::frame::{Body, Frame, FrameRefusal};
use ilk_base::{BayId, Summary};

// How many bytes stand before the payload.
const HEAD: usize = 9;

// The greatest number of a bay.
const MOST_BAY: u8 = 199;

fn is_kind(kind: u8) -> bool
    ensures { result ≡ is_kind kind }
{
    matches!(kind, 1..=5)
}

fn is_length(kind: u8, length: u16) -> bool
    ensures { result ≡ is_length kind length }
{
    match kind {
        2 => length <= 32,
        3 => length == 5,
        _ => length == 0,
    }
}

// The number in the four bytes from a place on.
fn number_at(bytes: &[u8], place: usize) -> u32
    requires { place + 4 ≤ length bytes.now }
    ensures { result ≡ round_at bytes.now place }
{
    let (_, rest) = bytes.split_at(place);
    u32::from_be_bytes([rest[0], rest[1], rest[2], rest[3]])
}

// The length of the payload, as the head says it.
fn said_length(bytes: &[u8]) -> u16
    requires { 9 ≤ length bytes.now }
    ensures { result ≡ said_length bytes.now }
{
    u16::from_be_bytes([bytes[7], bytes[8]])
}

// Whether there are just so many bytes.
fn check_count(bytes: &[u8], want: usize) -> Result<(), FrameRefusal>
    ensures { PassesOrRefuses result (count_tests bytes.now want) (λ _. ⊤) }
{
    let have = bytes.len();
    if have < want {
        return Err(FrameRefusal::Short { have, want });
    }
    if want < have {
        return Err(FrameRefusal::Long { have, want });
    }
    Ok(())
}

// The length of the payload, as a whole head of a lawful kind and length says it.
fn check_head(bytes: &[u8]) -> Result<u16, FrameRefusal>
    ensures { PassesOrRefuses result (head_tests bytes.now) (λ n. n ≡ said_length bytes.now) }
{
    let have = bytes.len();
    if have < HEAD {
        return Err(FrameRefusal::Short { have, want: HEAD });
    }
    let found = bytes[0];
    if !is_kind(found) {
        return Err(FrameRefusal::Kind { found });
    }
    let length = said_length(bytes);
    if !is_length(found, length) {
        return Err(FrameRefusal::Length { length });
    }
    Ok(length)
}

// Whether the bytes are such a head and a payload of that length.
fn check_size(bytes: &[u8]) -> Result<(), FrameRefusal>
    ensures { PassesOrRefuses result (size_tests bytes.now) (λ _. ⊤) }
{
    let length = check_head(bytes)?;
    check_count(bytes, HEAD + usize::from(length))
}

// The bay at a place.
fn bay_at(bytes: &[u8], place: u8) -> Result<BayId, FrameRefusal>
    requires { place < length bytes.now }
    ensures { PassesOrRefuses result (bay_test bytes.now place ∷ []) (λ bay. bay ≡ bay_at bytes.now place) }
{
    let number = bytes[usize::from(place)];
    if MOST_BAY < number {
        return Err(FrameRefusal::Field { place });
    }
    Ok(BayId(number))
}

// The bay at place 2, which is not the one at place 1.
fn receiver(bytes: &[u8]) -> Result<BayId, FrameRefusal>
    requires { 2 < length bytes.now }
    ensures { PassesOrRefuses result (receiver_test bytes.now ∷ []) (λ bay. bay ≡ bay_at bytes.now 2) }
{
    let number = bytes[2];
    if MOST_BAY < number || number == bytes[1] {
        return Err(FrameRefusal::Field { place: 2 });
    }
    Ok(BayId(number))
}

// The round at a place.
fn round_at(bytes: &[u8], place: u8) -> Result<u32, FrameRefusal>
    requires { place + 4 ≤ length bytes.now }
    ensures { PassesOrRefuses result (round_test bytes.now place ∷ []) (λ round. round ≡ round_at bytes.now place) }
{
    let round = number_at(bytes, usize::from(place));
    if round == 0 {
        return Err(FrameRefusal::Field { place });
    }
    Ok(round)
}

// The holder and its round.
fn busy(bytes: &[u8]) -> Result<Body, FrameRefusal>
    requires kind { slice_index bytes.now 0 ≡ 3 }
    requires size { first_refusal (size_tests bytes.now) ≡ None }
    ensures { PassesOrRefuses result (payload_tests bytes.now) (λ body. body ≡ body_at bytes.now) }
{
    let holder = bay_at(bytes, 9)?;
    let holder_round = round_at(bytes, 10)?;
    Ok(Body::Busy {
        holder,
        holder_round,
    })
}

// The summary behind the head.
fn summary(bytes: &[u8]) -> Summary
    requires kind { slice_index bytes.now 0 ≡ 2 }
    requires size { first_refusal (size_tests bytes.now) ≡ None }
    ensures { Body.Answer result ≡ body_at bytes.now }
{
    let (_, payload) = bytes.split_at(HEAD);
    Summary::new(payload).unwrap()
}

// What is told. Of the five kinds only Over is left in the last case.
fn body(bytes: &[u8]) -> Result<Body, FrameRefusal>
    requires { first_refusal (size_tests bytes.now) ≡ None }
    ensures { PassesOrRefuses result (payload_tests bytes.now) (λ body. body ≡ body_at bytes.now) }
{
    match bytes[0] {
        1 => Ok(Body::Reserve),
        2 => Ok(Body::Answer(summary(bytes))),
        3 => busy(bytes),
        4 => Ok(Body::Query),
        _ => Ok(Body::Over),
    }
}

// The fields of the bytes, where they pass each test.
pub(crate) fn read(bytes: &[u8]) -> Result<Frame, FrameRefusal>
    ensures { PassesOrRefuses result (size_tests bytes.now ++ field_tests bytes.now) (λ f. f ≡ frame_at bytes.now) }
{
    check_size(bytes)?;
    let from = bay_at(bytes, 1)?;
    let to = receiver(bytes)?;
    let round = round_at(bytes, 3)?;
    let body = body(bytes)?;
    Ok(Frame {
        from,
        to,
        round,
        body,
    })
}
