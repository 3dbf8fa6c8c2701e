//! Frames.

use ilk_base::{BayId, Summary};
use std::error::Error;
use std::fmt;

/// What a bay tells another in a round.
#[derive(Clone, Copy, PartialEq, Eq)]
pub enum Body {
    /// kind 1: asks the receiver to hold still for the sender, and for its summary
    Reserve,
    /// kind 2: the receiver of a Reserve holds still; what it tells of its positions
    Answer(Summary),
    /// kind 3: the receiver of a Reserve is held already
    Busy {
        /// by which bay
        holder: BayId,
        /// in which of that bay's rounds, from 1
        holder_round: u32,
    },
    /// kind 4: asks whether the round is still open
    Query,
    /// kind 5: the round is over
    Over,
}

/// A frame from one bay to another: 9 bytes and a payload (docs/FORMATS.md).
#[derive(Clone, Copy, PartialEq, Eq)]
pub struct Frame {
    /// the sender, at most 199
    pub from: BayId,
    /// the receiver, at most 199 and not the sender
    pub to: BayId,
    /// the round of which the frame speaks, from 1
    pub round: u32,
    /// what is told
    pub body: Body,
}

/// Why bytes are no frame: the first test that they fail, in this order: `Short` with 9 bytes
/// wanted, `Kind`, `Length`, `Short` and `Long` with 9 bytes and the payload wanted, `Field`.
#[derive(Clone, Copy, Debug, PartialEq, Eq)]
pub enum FrameRefusal {
    /// 1: fewer bytes than there must be
    Short {
        /// how many there are
        have: usize,
        /// how many there must be
        want: usize,
    },
    /// 2: the byte at place 0 is the number of no kind
    Kind {
        /// the byte
        found: u8,
    },
    /// 3: no payload of this kind has the length that stands at place 7
    Length {
        /// that length
        length: u16,
    },
    /// 4: more bytes than there must be
    Long {
        /// how many there are
        have: usize,
        /// how many there must be
        want: usize,
    },
    /// 5: the first field that is not lawful
    Field {
        /// its place: 1 the sender, 2 the receiver, 3 the round, 9 the holder, 10 its round
        place: u8,
    },
}

impl fmt::Display for FrameRefusal {
    fn fmt<W: fmt::Write>(&self, f: &mut fmt::Formatter<W>) -> fmt::Result {
        match self {
            FrameRefusal::Short { have, want } => write!(f, "{have} bytes, {want} wanted"),
            FrameRefusal::Kind { found } => write!(f, "no kind has the number {found}"),
            FrameRefusal::Length { length } => {
                write!(f, "no payload of this kind has {length} bytes")
            }
            FrameRefusal::Long { have, want } => write!(f, "{have} bytes, only {want} wanted"),
            FrameRefusal::Field { place } => write!(f, "no lawful field at place {place}"),
        }
    }
}

impl Error for FrameRefusal {}
