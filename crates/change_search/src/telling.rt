//! What the labels of a walk tell.
ghost use Rattle.std.specs.Prelude.{◌≡◌, ◌↔◌, IsTrue};
ghost use Rattle.change_search.specs.Telling.{answer_of, load_rule, Tells};
ghost use Rattle.judge_pool.specs.Graphs.{gap_rule};

use graph_walks::Codes;
use ilk_base::{Direction, Rule};
use station_changes::Change;

// The rule that a label of a gap graph says.
fn gap_answer(label: u32) -> Option<Rule>
    ensures { result ≡ gap_rule label }
{
    if label == 1 {
        Some(Rule::R1)
    } else if label == 2 {
        Some(Rule::R2)
    } else {
        None
    }
}

// The third rule, where a label of a load graph says that it applies.
fn load_answer(label: u32) -> Option<Rule>
    ensures { result ≡ load_rule label }
{
    if label == 1 { Some(Rule::R3) } else { None }
}

/// The rule that a move in this direction breaks, as the labels of the gap graph and the load graph say it. Constant time.
pub fn answer(direction: Direction, gap: u32, load: u32) -> Option<Rule>
    ensures { result ≡ answer_of direction gap load }
{
    match direction {
        Direction::ToOff => load_answer(load),
        Direction::ToOn => match gap_answer(gap) {
            Some(rule) => Some(rule),
            None => load_answer(load),
        },
    }
}

// Whether the answer is none.
fn is_released(answer: Option<Rule>) -> bool
    ensures { IsTrue result ↔ (answer ≡ None) }
{
    match answer {
        Some(_) => false,
        None => true,
    }
}

// Whether the answer is this rule.
fn is_forbidden(answer: Option<Rule>, rule: Rule) -> bool
    ensures { IsTrue result ↔ (answer ≡ Some rule) }
{
    match answer {
        Some(broken) => broken == rule,
        None => false,
    }
}

/// Whether labels of the gap graphs of the old and of the new station, and of their load graphs, tell this change by this
/// rule. Constant time.
pub fn tells(direction: Direction, change: Change, rule: Rule, codes: Codes) -> bool
    ensures { IsTrue result ↔ Tells direction change rule codes }
{
    let old = answer(direction, codes.first, codes.third);
    let new = answer(direction, codes.second, codes.fourth);
    match change {
        Change::Stricter => is_released(old) && is_forbidden(new, rule),
        Change::Looser => is_forbidden(old, rule) && is_released(new),
    }
}
