//! What positions show.
ghost use Rattle.std.specs.Prelude.{◌≡◌, ◌↔◌, IsTrue, Some, slice_get};
ghost use Rattle.commissioning_tests.specs.Answering.{TurnsAt};
ghost use Rattle.commissioning_tests.specs.Covering.{TurnIsAmong, TurnIsShown, RuleIsShown};

use crate::answers::turns_at;
use crate::values::{TestMove, TestPosition};
use ilk_base::{Rule, SwitchId};

// Whether the move is of this switch and turns operation k.
pub(crate) fn is_turn(
    answers: &[Option<Rule>],
    test_move: &TestMove,
    k: usize,
    switch: SwitchId,
) -> bool
    ensures { IsTrue result ↔ ((test_move.now.switch.0 ≡ switch.0) × TurnsAt k answers.now test_move.now.answers.items) }
{
    test_move.switch.0 == switch.0 && turns_at(answers, &test_move.answers, k)
}

// Whether one of the moves is of this switch and turns operation k.
fn is_turn_among(answers: &[Option<Rule>], moves: &[TestMove], k: usize, switch: SwitchId) -> bool
    ensures { IsTrue result ↔ TurnIsAmong answers.now moves.now k switch.0 }
{
    for j in 0..moves.len() {
        if is_turn(answers, &moves[j], k, switch) {
            return true;
        }
    }
    false
}

// Whether the position has such a move.
fn shows_turn(position: &TestPosition, k: usize, switch: SwitchId) -> bool
    ensures { IsTrue result ↔ TurnIsAmong position.now.answers.items position.now.moves.items k switch.0 }
{
    is_turn_among(&position.answers, &position.moves, k, switch)
}

// Whether one of the positions has a move of this switch that turns operation k.
pub(crate) fn is_turn_shown(positions: &[TestPosition], k: usize, switch: SwitchId) -> bool
    ensures { IsTrue result ↔ TurnIsShown positions.now k switch.0 }
{
    for i in 0..positions.len() {
        if shows_turn(&positions[i], k, switch) {
            return true;
        }
    }
    false
}

// Whether the answer is this rule.
fn is_rule(answer: Option<Rule>, rule: Rule) -> bool
    ensures { IsTrue result ↔ (answer ≡ Some rule) }
{
    match answer {
        Some(broken) => broken == rule,
        None => false,
    }
}

// Whether the answer of operation k is this rule.
fn breaks_at(answers: &[Option<Rule>], k: usize, rule: Rule) -> bool
    ensures { IsTrue result ↔ (slice_get answers.now k ≡ Some (Some rule)) }
{
    k < answers.len() && is_rule(answers[k], rule)
}

// Whether operation k breaks the rule in the position.
fn shows_rule(position: &TestPosition, k: usize, rule: Rule) -> bool
    ensures { IsTrue result ↔ (slice_get position.now.answers.items k ≡ Some (Some rule)) }
{
    breaks_at(&position.answers, k, rule)
}

// Whether operation k breaks the rule in one of the positions.
pub(crate) fn is_rule_shown(positions: &[TestPosition], k: usize, rule: Rule) -> bool
    ensures { IsTrue result ↔ RuleIsShown positions.now k rule }
{
    for i in 0..positions.len() {
        if shows_rule(&positions[i], k, rule) {
            return true;
        }
    }
    false
}
