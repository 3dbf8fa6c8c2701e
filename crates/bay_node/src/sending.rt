//! What a step shows and sends.
ghost use Rattle.std.specs.Prelude.{◌≡◌, ◌↔◌, [], ◌∷◌, None, IfOk, IsTrue};
ghost use Rattle.station_graph.specs.Diagram.{part_count, IsStation};
ghost use Rattle.bay_protocol.specs.State.{others};
ghost use Rattle.bay_protocol.specs.Sends.{to_each};

use bay_frames::{Body, Frame, FrameList};
use bay_protocol::{NodeOutput, Outcome, is_other};
use ilk_base::{BayId, Memory};
use station_graph::Station;
use std::alloc::Global;

// An output that sends nothing.
pub(crate) fn says(alloc: Global, outcome: Outcome) -> NodeOutput
    ensures frames { result.frames ≡ [] }
    ensures outcome { result.outcome ≡ outcome }
    ensures keep { result.keep ≡ None }
{
    NodeOutput {
        keep: None,
        frames: FrameList::new(alloc),
        outcome,
    }
}

// An output that sends one frame and shows nothing.
pub(crate) fn sends(alloc: Global, frame: Frame) -> Result<NodeOutput, Memory>
    ensures { IfOk result (λ out. (out.outcome ≡ Outcome.Quiet) × (out.frames ≡ frame ∷ [])) }
{
    let mut frames = FrameList::new(alloc);
    frames.push(frame)?;
    Ok(NodeOutput {
        keep: None,
        frames,
        outcome: Outcome::Quiet,
    })
}

// How many parts the station has, of which there are few.
pub(crate) fn part_count(station: &Station) -> u8
    ensures count { result ≡ part_count station.now }
    ensures station { IsStation station.now }
{
    station.part_count() as u8
}

// The same to each other bay, in order of number.
pub(crate) fn to_others(
    alloc: Global,
    station: &Station,
    from: BayId,
    round: u32,
    body: &Body,
) -> Result<FrameList, Memory>
    ensures { IfOk result (λ l. l ≡ to_each from.0 round body.now (others station.now from.0)) }
{
    let mut frames = FrameList::new(alloc);
    for part in 0..part_count(station) {
        let to = BayId(part);
        if is_other(station, from, to) {
            frames.push(Frame {
                from,
                to,
                round,
                body: *body,
            })?;
        }
    }
    Ok(frames)
}
