//! Where positions show that moving a switch turns an operation, kept so that it need not be sought.
ghost use Rattle.std.specs.Prelude.{IsTrue};
ghost use Rattle.commissioning_tests.specs.Covering.{TurnIsAmong, TurnIsShown};

use crate::answers::turns_at;
use crate::shown::is_turn;
use crate::values::{TestMove, TestPosition};
use ilk_base::{Memory, Rule, SwitchId};
use std::alloc::Global;

// A move of a position.
#[derive(Clone, Copy)]
struct MovePlace {
    position: usize,
    test_move: usize,
}

// For each operation and each switch a move of the switch that turns the operation, where one is noted. What it says is
// looked up in the positions, so nothing rests on it.
#[derive(Drop)]
pub(crate) struct TurnIndex {
    switches: usize,
    // operation by operation, switch by switch
    places: Vec<Option<MovePlace>>,
    // for each switch whether a move of it was noted since this was last cleared
    fresh: Vec<bool>,
}

impl TurnIndex {
    // Nothing is noted.
    pub(crate) fn new(
        alloc: Global,
        operations: usize,
        switches: u16,
    ) -> Result<TurnIndex, Memory> {
        let mut places = Vec::new(alloc);
        places.resize(operations.saturating_mul(usize::from(switches)), None)?;
        let mut fresh = Vec::new(alloc);
        fresh.resize(usize::from(switches), false)?;
        Ok(TurnIndex {
            switches: usize::from(switches),
            places,
            fresh,
        })
    }

    // Where the list has an operation and a switch.
    fn place(&self, k: usize, switch: SwitchId) -> usize {
        k.saturating_mul(self.switches)
            .saturating_add(usize::from(switch.0))
    }

    // The move that is noted.
    fn find(&self, k: usize, switch: SwitchId) -> Option<MovePlace> {
        let place = self.place(k, switch);
        if place < self.places.len() {
            self.places[place]
        } else {
            None
        }
    }

    // Whether a move of the switch that turns operation k is noted.
    pub(crate) fn has(&self, k: usize, switch: SwitchId) -> bool {
        self.find(k, switch).is_some()
    }

    // Whether a move of the switch was noted since this was last cleared.
    pub(crate) fn is_fresh(&self, switch: SwitchId) -> bool {
        let place = usize::from(switch.0);
        place < self.fresh.len() && self.fresh[place]
    }

    // Notes of each switch whether a move of it may have been noted since this was last cleared.
    pub(crate) fn put_fresh(&mut self, fresh: bool) {
        for place in 0..self.fresh.len() {
            if place < self.fresh.len() {
                self.fresh[place] = fresh;
            }
        }
    }

    // Notes that a move of the switch was noted.
    fn freshen(&mut self, switch: SwitchId) {
        let place = usize::from(switch.0);
        if place < self.fresh.len() {
            self.fresh[place] = true;
        }
    }

    // Notes a move for an operation, unless one is noted.
    fn put(&mut self, k: usize, switch: SwitchId, found: MovePlace) {
        let place = self.place(k, switch);
        if place < self.places.len() && self.places[place].is_none() {
            self.places[place] = Some(found);
        }
    }

    // Notes a move for each operation that it turns.
    fn note_move(&mut self, answers: &[Option<Rule>], test_move: &TestMove, found: MovePlace) {
        self.freshen(test_move.switch);
        for k in 0..answers.len() {
            if turns_at(answers, &test_move.answers, k) {
                self.put(k, test_move.switch, found);
            }
        }
    }

    // Notes each move of the position that stands at this number.
    pub(crate) fn note(&mut self, position: &TestPosition, number: usize) {
        for j in 0..position.moves.len() {
            let found = MovePlace {
                position: number,
                test_move: j,
            };
            self.note_move(&position.answers, &position.moves[j], found);
        }
    }
}

// Whether the move at this number is of this switch and turns operation k.
fn is_turn_at(
    answers: &[Option<Rule>],
    moves: &[TestMove],
    number: usize,
    k: usize,
    switch: SwitchId,
) -> bool
    ensures { IsTrue result → TurnIsAmong answers.now moves.now k switch.0 }
{
    number < moves.len() && is_turn(answers, &moves[number], k, switch)
}

// Whether the position has such a move at this number.
fn shows_turn_at(position: &TestPosition, number: usize, k: usize, switch: SwitchId) -> bool
    ensures { IsTrue result → TurnIsAmong position.now.answers.items position.now.moves.items k switch.0 }
{
    is_turn_at(&position.answers, &position.moves, number, k, switch)
}

// Whether the move at this place is of this switch and turns operation k.
fn is_there(positions: &[TestPosition], at: MovePlace, k: usize, switch: SwitchId) -> bool
    ensures { IsTrue result → TurnIsShown positions.now k switch.0 }
{
    at.position < positions.len() && shows_turn_at(&positions[at.position], at.test_move, k, switch)
}

// Whether one of the positions has a move of this switch that turns operation k, as far as it is noted.
pub(crate) fn is_turn_noted(
    positions: &[TestPosition],
    index: &TurnIndex,
    k: usize,
    switch: SwitchId,
) -> bool
    ensures { IsTrue result → TurnIsShown positions.now k switch.0 }
{
    match index.find(k, switch) {
        Some(at) => is_there(positions, at, k, switch),
        None => false,
    }
}

// Whether the positions show for each of so many operations that the switch turns it.
pub(crate) fn all_noted(
    positions: &[TestPosition],
    index: &TurnIndex,
    count: usize,
    switch: SwitchId,
) -> bool {
    for k in 0..count {
        if !is_turn_noted(positions, index, k, switch) {
            return false;
        }
    }
    true
}
