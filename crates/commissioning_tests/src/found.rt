//! The positions that were found so far.

use crate::flips::Sweep;
use crate::open_turns::OpenTurn;
use crate::told::Told;
use crate::turn_index::TurnIndex;
use crate::values::TestPosition;
use std::alloc::Global;

// The positions that were found so far, what turns they show, for each walk at hand which may be shown yet, and room for
// guesses.
#[derive(Drop)]
pub(crate) struct Found {
    pub(crate) positions: Vec<TestPosition>,
    pub(crate) index: TurnIndex,
    pub(crate) open: Vec<Vec<OpenTurn>>,
    pub(crate) told: Told,
    pub(crate) sweep: Sweep,
}
