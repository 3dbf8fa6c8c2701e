//! That the numbers of what is shown are of 32 bits: the types say so.
ghost use Rattle.std.specs.Prelude.{◌<◌, ◌^◌, All};
ghost use Rattle.bay_frames.specs.declared.frame.Frame.{Frame as AnyFrame};
ghost use Rattle.log_replay.specs.Telling.{Is32Bits, Are32Bits, AreNumbered};

use bay_frames::Frame;
use reservation_core::{Outcome, WorldOutcome};

// Its type says it.
fn is_number(number: u32)
    ensures { Is32Bits number }
{}

// The numbers of an outcome are such.
fn outcome_is_numbered(outcome: &Outcome)
    ensures { Are32Bits outcome.now }
{
    match outcome {
        Outcome::UnderWay { round } => is_number(*round),
        Outcome::HeldBy { bay, round } => {
            is_number(u32::from(bay.0));
            is_number(*round);
        }
        Outcome::There => {}
        Outcome::Spent => {}
        Outcome::Collecting { round } => is_number(*round),
        Outcome::Granted { round, .. } => is_number(*round),
        Outcome::Denied { round, .. } => is_number(*round),
        Outcome::BusyBy {
            round,
            bay,
            holder,
            holder_round,
        } => {
            is_number(*round);
            is_number(u32::from(bay.0));
            is_number(u32::from(holder.0));
            is_number(*holder_round);
        }
        Outcome::Finished { round } => is_number(*round),
        Outcome::Withdrawn { round } => is_number(*round),
        Outcome::Stopped { round } => is_number(*round),
        Outcome::Quiet => {}
    }
}

// The rounds of frames are such.
fn rounds_are_numbered(frames: &[Frame])
    ensures { All (λ (f : AnyFrame). Is32Bits f.round) frames.now }
{
    for i in 0..frames.len() {
        is_number(frames[i].round);
    }
}

/// The numbers of what comes of an event are of 32 bits, as its types say. It changes nothing; a caller cites its
/// clause. Time: the frames.
pub fn is_numbered(outcome: &Option<WorldOutcome>)
    ensures { AreNumbered outcome.now }
{
    if let Some(WorldOutcome::Node { output, .. }) = outcome {
        outcome_is_numbered(&output.outcome);
        rounds_are_numbered(output.frames.frames());
    }
}
