//! What a node keeps, what happens to it, and what comes of it.
use bay_frames::{Frame, FrameList};
use ilk_base::{BayId, Dbpos, HeardList, Op, Rule, SwitchId};
use station_graph::Vector;

/// The last round of a bay. A bay that has used it opens no other.
pub const LAST_ROUND: u32 = 4_294_967_295;

/// A bay holds still for a round of another bay.
#[derive(Clone, Copy, PartialEq, Eq)]
pub struct Lock {
    /// the bay for which it holds still
    pub holder: BayId,
    /// that bay's round, from 1
    pub round: u32,
}

/// An operation that was granted and has not ended.
#[derive(Clone, Copy, PartialEq, Eq)]
pub struct Grant {
    /// the round in which it was granted, from 1
    pub round: u32,
    /// the operation
    pub op: Op,
}

/// What a node keeps over a restart.
#[derive(Clone, Copy, PartialEq, Eq)]
pub struct Kept {
    /// the highest round that it has opened, 0 at first
    pub highest: u32,
    /// the lock that it has given to another bay
    pub lock: Option<Lock>,
    /// its granted operation
    pub granted: Option<Grant>,
}

/// A round that is being collected: what the bay wants to do, and what it has heard so far. It is lost at
/// a restart.
#[derive(Drop)]
pub struct Collection {
    /// the round, from 1
    pub round: u32,
    /// the operation that was commanded
    pub op: Op,
    /// the summaries that other bays have sent in this round
    pub heard: HeardList,
}

/// What happens to a node.
#[derive(Clone, Copy, PartialEq, Eq)]
pub enum NodeEvent {
    /// an operation of a switch of the bay is commanded
    Command(Op),
    /// a position word of a switch of the bay is read
    Sense {
        /// the switch
        switch: SwitchId,
        /// the word
        word: Dbpos,
    },
    /// a frame arrives
    Frame(Frame),
    /// a time is over
    Tick,
    /// the operator takes the command back
    Withdraw,
    /// the node starts again with what it keeps
    Restart,
    /// the drive of the switch is without power and stopped where it stood
    Cut(SwitchId),
}

/// What a step of a node shows.
#[derive(Drop)]
pub enum Outcome {
    /// a command is refused: a round of the bay is under way
    UnderWay {
        /// that round
        round: u32,
    },
    /// a command is refused: the bay holds still for another
    HeldBy {
        /// that bay
        bay: BayId,
        /// that bay's round
        round: u32,
    },
    /// a command is refused: by its own reading the switch stands there already
    There,
    /// a command is refused: the last round is used
    Spent,
    /// a command has opened a round, and the other bays are asked
    Collecting {
        /// the round
        round: u32,
    },
    /// the operation is granted
    Granted {
        /// the round
        round: u32,
        /// the operation
        op: Op,
    },
    /// the operation is denied
    Denied {
        /// the round
        round: u32,
        /// the operation
        op: Op,
        /// the rule that it breaks
        rule: Rule,
        /// in this reading of what the bay knows
        reading: Vector,
    },
    /// the round has ended: another bay holds still already
    BusyBy {
        /// the round
        round: u32,
        /// the bay that could not be reserved
        bay: BayId,
        /// the bay for which it holds still, as the frame said
        holder: BayId,
        /// that bay's round, as the frame said
        holder_round: u32,
    },
    /// the granted operation has reached its end
    Finished {
        /// the round in which it was granted
        round: u32,
    },
    /// the round, or the granted operation of the round, was taken back
    Withdrawn {
        /// the round
        round: u32,
    },
    /// the granted operation has ended between its ends
    Stopped {
        /// the round in which it was granted
        round: u32,
    },
    /// nothing to show
    Quiet,
}

/// What comes of a step of a node.
#[derive(Drop)]
pub struct NodeOutput {
    /// the new record, exactly where what is kept has changed; it is to be stored before the frames are
    /// sent
    pub keep: Option<Kept>,
    /// the frames that are sent, in this order
    pub frames: FrameList,
    /// what the step shows
    pub outcome: Outcome,
}
