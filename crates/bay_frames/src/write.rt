//! Writing.
ghost use Rattle.std.specs.Prelude.{◌≡◌, ◌<◌, ◌≤◌, ◌+◌, ◌^◌, ◌∷◌, length, take, drop};
ghost use Rattle.std.specs.Int.{w32, to_be_bytes};
ghost use Rattle.bay_frames.specs.Row.{kind_number, row_of};

use crate::frame::{Body, Frame};
use ilk_base::BayId;

// The number of the kind.
fn kind_byte(body: &Body) -> u8
    ensures { result ≡ kind_number body.now }
{
    match body {
        Body::Reserve => 1,
        Body::Answer(_) => 2,
        Body::Busy { .. } => 3,
        Body::Query => 4,
        Body::Over => 5,
    }
}

// The payload of a Busy.
pub(crate) fn holder_row(holder: BayId, round: u32) -> [u8; 5]
    ensures row { result ≡ holder.0 ∷ to_be_bytes w32 round }
    ensures fits { round < 2 ^ 32 }
{
    let round = round.to_be_bytes();
    [holder.0, round[0], round[1], round[2], round[3]]
}

// Writes a frame with this payload, and says where it ends.
pub(crate) fn put(frame: &Frame, payload: &[u8], into: &mut [u8; 64]) -> usize
    requires { length payload.now ≤ 32 }
    ensures row { let f = frame.now in
        take result into.new ≡ row_of (kind_number f.body) f.from.0 f.to.0 f.round payload.now }
    ensures len { result ≡ 9 + length payload.now }
    ensures rest { drop result into.new ≡ drop result into.old }
    ensures fits { frame.now.round < 2 ^ 32 }
{
    let round = frame.round.to_be_bytes();
    let length = (payload.len() as u16).to_be_bytes();
    let head = [
        kind_byte(&frame.body),
        frame.from.0,
        frame.to.0,
        round[0],
        round[1],
        round[2],
        round[3],
        length[0],
        length[1],
    ];
    let end = 9 + payload.len();
    into[..9].copy_from_slice(&head);
    into[9..end].copy_from_slice(payload);
    end
}
