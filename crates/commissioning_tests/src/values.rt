//! What is tested of a bay.
use ilk_base::{BayId, Op, Rule, SwitchId};
use std::alloc::Global;

/// One switch moved in a position, and put back afterwards.
#[derive(Drop)]
pub struct TestMove {
    /// the switch
    pub switch: SwitchId,
    /// for each operation of the bay the rule that it breaks with the switch moved, none where it is released
    pub answers: Vec<Option<Rule>>,
    /// whether no node is both energisable and earthable with the switch moved
    pub sound: bool,
}

/// A position of all switches, and the moves from it.
#[derive(Drop)]
pub struct TestPosition {
    /// for each switch of the station whether it is closed
    pub closed: Vec<bool>,
    /// for each operation of the bay the rule that it breaks, none where it is released
    pub answers: Vec<Option<Rule>>,
    /// whether no node is both energisable and earthable
    pub sound: bool,
    /// the moves, each of which turns the release of some operation, in document order of the moved switches
    pub moves: Vec<TestMove>,
}

/// The tests of a bay.
#[derive(Drop)]
pub struct BayTests {
    /// the operations of the bay: for each of its switches in document order to open and to close it
    pub operations: Vec<Op>,
    /// those that are released in every position
    pub always: Vec<Op>,
    /// the switches of other bays on which an operation of the bay depends, in document order
    pub needs: Vec<SwitchId>,
    /// the positions, with their moves
    pub positions: Vec<TestPosition>,
}

/// The tests of a bay, and the bays whose tests they are too.
#[derive(Drop)]
pub struct SharedTests {
    /// the bay that is tested
    pub bay: BayId,
    /// the later bays that are like it, in document order: their tests are these with the two bays exchanged
    pub like: Vec<BayId>,
    /// its tests
    pub tests: BayTests,
}
