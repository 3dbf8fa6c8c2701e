//! What comes of an event, held against what the line of a story says.
ghost use Rattle.std.specs.List.{All};
ghost use Rattle.bay_frames.specs.Row.{IsLawful};
ghost use Rattle.bay_protocol.specs.OutcomeLines.{OutcomeFits};
ghost use Rattle.reservation_core.specs.World.{OutputFits};

use crate::stories::Says;
use bay_frames::FrameList;
use bay_protocol::NodeOutput;
use ilk_base::BayId;
use reservation_core::WorldOutcome;
use station_graph::Station;
use std::alloc::Global;

// Whether the frames are these rows.
fn are_sent(frames: &FrameList, rows: &[&[u8]]) -> bool
    requires { All IsLawful frames.now }
{
    if frames.len() != rows.len() {
        return false;
    }
    for i in 0..rows.len() {
        let mut into = [0; 64];
        let len = frames.get(i).encode(&mut into);
        if &into[..len] != rows[i] {
            return false;
        }
    }
    true
}

// Whether the step of a bay shows these lines.
fn shows(alloc: Global, station: &Station, output: &NodeOutput, shown: &[u8]) -> bool
    requires { OutcomeFits station.now output.now.outcome }
{
    match output.outcome.lines(alloc, station, b"") {
        Ok(lines) => lines.bytes() == shown,
        Err(_) => false,
    }
}

// Whether the step of a bay shows and sends what the line says.
fn is_output(
    alloc: Global,
    station: &Station,
    says: Says,
    bay: BayId,
    first: u32,
    output: &NodeOutput,
) -> bool
    requires outcome { OutcomeFits station.now output.now.outcome }
    requires lawful { All IsLawful output.now.frames }
{
    match says {
        Says::Quiet(at, next) => {
            (bay.0, first) == (at, next)
                && shows(alloc, station, output, b"")
                && are_sent(&output.frames, &[])
        }
        Says::Shows(at, next, shown, sent) => {
            (bay.0, first) == (at, next)
                && shows(alloc, station, output, shown)
                && are_sent(&output.frames, sent)
        }
        Says::Premise(_) | Says::Drive => false,
    }
}

// Whether what comes of the event is what the line says.
pub(crate) fn is_outcome(
    alloc: Global,
    station: &Station,
    says: Says,
    outcome: &WorldOutcome,
) -> bool
    requires { OutputFits station.now outcome.now }
{
    match outcome {
        WorldOutcome::Premise(which) => {
            matches!(says, Says::Premise(number) if number == which.number())
        }
        WorldOutcome::Drive => matches!(says, Says::Drive),
        WorldOutcome::Node { bay, first, output } => {
            is_output(alloc, station, says, *bay, *first, output)
        }
    }
}
