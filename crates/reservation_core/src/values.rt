//! What happens in a station, and what comes of it.
ghost use Rattle.std.specs.Prelude.{◌≡◌};
ghost use Rattle.reservation_core.specs.Premises.{number};

use bay_protocol::NodeOutput;
use ilk_base::{BayId, Dbpos, Op, SwitchId};

/// The most messages that may have been sent before an event: their numbers are 32 bits wide.
pub const MESSAGES: u32 = 4_000_000_000;

/// Where a switch truly stands.
#[derive(Clone, Copy, PartialEq, Eq)]
pub enum Position {
    /// open
    Open,
    /// closed
    Closed,
    /// between its ends: its drive runs, or was cut off on its way
    Between,
}

/// The premises, each named for the event that breaks it. Numbers: `number`.
#[derive(Clone, Copy, PartialEq, Eq)]
pub enum Which {
    /// 1: it is not told where a switch stands at first (found by whoever reads a log, not by a world)
    Start,
    /// 2: off or on is read and is not the true position
    Sensed,
    /// 3: a drive is begun where the switch has no open operation, its drive runs, or it is there already
    Begun,
    /// 4: a drive is ended where none of the switch runs
    Ended,
    /// 5: a granted operation is taken back while its drive runs
    Withdrawn,
    /// 6: a message is delivered that was not sent yet
    Unsent,
    /// 7: a drive is cut off where none of the switch runs
    Cut,
}

impl Which {
    /// The number of the premise, from 1 to 7. At once; takes no memory.
    pub fn number(&self) -> u8
        ensures { result ≡ number self.now }
    {
        match self {
            Which::Start => 1,
            Which::Sensed => 2,
            Which::Begun => 3,
            Which::Ended => 4,
            Which::Withdrawn => 5,
            Which::Unsent => 6,
            Which::Cut => 7,
        }
    }
}

/// What may happen next.
#[derive(Clone, Copy, PartialEq, Eq)]
pub enum WorldEvent {
    /// an operation is commanded at the bay of its switch
    Command(Op),
    /// the bay of a switch reads a position word of it
    Sense {
        /// the switch
        switch: SwitchId,
        /// the word
        word: Dbpos,
    },
    /// a message reaches the bay to which it was sent
    Deliver {
        /// its number: the first that was ever sent is 1
        message: u32,
    },
    /// a time is over at a bay
    Tick(BayId),
    /// the operator of a bay takes its command back
    Withdraw(BayId),
    /// a bay starts again with what it keeps
    Restart(BayId),
    /// the drive of a switch begins
    Begin(SwitchId),
    /// the drive of a switch reaches the end to which its operation moves it
    End(SwitchId),
    /// a message reaches the bay to which it was sent, but for its last bytes
    Part {
        /// its number
        message: u32,
        /// how many of its bytes arrive; where it has no more, all but the last
        bytes: u8,
    },
    /// the running drive of a switch is without power: it stops where it stands, and its bay is told
    Cut(SwitchId),
}

/// What a log may tell: where a switch stands at first, or what happens next.
#[derive(Clone, Copy, PartialEq, Eq)]
pub enum LogEvent {
    /// where a switch stands before anything happens
    At {
        /// the switch
        switch: SwitchId,
        /// whether it is closed
        closed: bool,
    },
    /// what happens next
    Step(WorldEvent),
}

/// What comes of an event.
#[derive(Drop)]
pub enum WorldOutcome {
    /// the event breaks this premise, and nothing has changed
    Premise(Which),
    /// a drive has begun or ended
    Drive,
    /// a bay took a step
    Node {
        /// the bay
        bay: BayId,
        /// the number of the first message that it sent, or the next free number where it sent none
        first: u32,
        /// what it kept, sent and showed
        output: NodeOutput,
    },
}
