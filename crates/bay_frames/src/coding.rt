//! A frame as its row, and bytes as a frame.
ghost use Rattle.std.specs.Prelude.{◌≡◌, Some, None, Ok, IfOk, MatchResult, length, take, drop};
ghost use Rattle.bay_frames.specs.declared.frame.Frame.{Frame as AnyFrame};
ghost use Rattle.bay_frames.specs.Row.{frame_row, IsLawful, FitsRow};
ghost use Rattle.bay_frames.specs.Tests.{first_failure};

use crate::frame::{Body, Frame, FrameRefusal};
use crate::read::read;
use crate::write::{holder_row, put};

impl Frame {
    /// Writes the row of the frame at the front of `into` and says how long it is: 9 to 41 bytes.
    /// The bytes behind stay as they were. The fields must be lawful: then `decode` gives the frame
    /// again. In time of the row; takes no memory.
    pub fn encode(&self, into: &mut [u8; 64]) -> usize
        requires { IsLawful self.now }
        ensures row { take result into.new ≡ frame_row self.now }
        ensures len { result ≡ length (frame_row self.now) }
        ensures rest { drop result into.new ≡ drop result into.old }
        ensures fits { FitsRow self.now }
    {
        match self.body {
            Body::Answer(summary) => put(self, summary.bytes(), into),
            Body::Busy {
                holder,
                holder_round,
            } => put(self, &holder_row(holder, holder_round), into),
            Body::Reserve | Body::Query | Body::Over => put(self, &[], into),
        }
    }

    /// The frame whose row the bytes are; else the first test that they fail. It looks at 41 bytes
    /// at most; takes no memory.
    pub fn decode(bytes: &[u8]) -> Result<Frame, FrameRefusal>
        // What is read is lawful, and the bytes are its row.
        ensures row { IfOk result (λ f. bytes.now ≡ frame_row f) }
        ensures lawful { IfOk result (λ f. IsLawful f) }
        ensures fits { IfOk result (λ f. FitsRow f) }
        // Each row of a lawful frame is read as that frame.
        ensures only { (f : AnyFrame) → FitsRow f → IsLawful f → bytes.now ≡ frame_row f
            → result ≡ Ok f }
        // Bytes are refused exactly where they fail a test, by the first that they fail.
        ensures first { MatchResult result (λ _. first_failure bytes.now ≡ None)
            (λ e. first_failure bytes.now ≡ Some e) }
    {
        read(bytes)
    }
}
