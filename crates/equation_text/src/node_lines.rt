//! What the line of a node says.
ghost use Rattle.std.specs.Prelude.{◌≡◌, ◌≢◌, ◌≤◌, ◌↔◌, List, length, slice_get, Some, IfOk, IfSome, IfNone, IsTrue};
ghost use Rattle.std.specs.Prelude.{MatchOption};
ghost use Rattle.station_equations.specs.declared.goal.Goal.{Goal as GoalOf};
ghost use Rattle.station_equations.specs.declared.goal.TheConstants.{NUMBERS};
ghost use Rattle.station_equations.specs.EquationLines.{NodeLine};
ghost use Rattle.station_equations.specs.EquationForm.{IsLaterGoal, AreLaterGoals};
ghost use Rattle.station_equations.specs.EquationText.{goal_text};
ghost use Rattle.equation_text.specs.Beginnings.{goals_text, IsSwitchNode, IsPartNode, IsNodeLine};

use crate::words::{behind, behind_number, cut_word, first_word, goal};
use ilk_base::{BayId, Memory, SwitchId};
use station_equations::{Goal, Node};
use std::alloc::Global;
use text_lines::decimal_number;

// The goal of node n that the word is: a greater node, or an answer.
fn later_goal(word: &[u8], n: u32) -> Option<Goal>
    ensures some { IfSome result (λ g. IsLaterGoal NUMBERS n g × (word.now ≡ goal_text g)) }
    ensures none { IfNone result ((g : GoalOf) → IsLaterGoal NUMBERS n g → word.now ≢ goal_text g) }
{
    match goal(word) {
        Some(Goal::Node(k)) => { if k > n { Some(Goal::Node(k)) } else { None } }
        Some(Goal::Answer(answer)) => Some(Goal::Answer(answer)),
        None => None,
    }
}

// The goals of node n, each after a blank.
fn read_goals(alloc: Global, words: &[u8], n: u32) -> Result<Option<Vec<Goal>>, Memory>
    ensures { IfOk result (λ o. MatchOption o
        ((gs : List GoalOf) → AreLaterGoals NUMBERS n gs → words.now ≢ goals_text gs)
        (λ v. AreLaterGoals NUMBERS n v.items × (words.now ≡ goals_text v.items))) }
{
    let mut left = words;
    let mut goals = Vec::new(alloc);
    while !left.is_empty() {
        let Some(rest) = behind(left, b" ") else {
            return Ok(None);
        };
        let (word, rest) = first_word(rest);
        let Some(goal) = later_goal(word, n) else {
            return Ok(None);
        };
        goals.push(goal)?;
        left = rest;
    }
    Ok(Some(goals))
}

// Node n where its words are a switch and two goals.
fn read_switch_node(words: &[u8], n: u32, switches: u16) -> Option<Node>
    ensures some { IfSome result (IsSwitchNode switches n words.now) }
    ensures none { IfNone result ((x : NodeLine) → ¬ IsSwitchNode switches n words.now x) }
{
    let Some((word, rest)) = cut_word(words) else {
        return None;
    };
    let Some(switch) = decimal_number(word) else {
        return None;
    };
    let Some((word, rest)) = cut_word(rest) else {
        return None;
    };
    let Some(off) = later_goal(word, n) else {
        return None;
    };
    let Some(on) = later_goal(rest, n) else {
        return None;
    };
    if switch >= u32::from(switches) {
        return None;
    }
    Some(Node::of_switch(SwitchId(switch as u16), off, on))
}

// Whether there is a goal for each index of the part.
fn has_indices(counts: &[u16], part: u32, goals: &[Goal]) -> bool
    ensures { IsTrue result ↔ (slice_get counts.now part ≡ Some (length goals.now)) }
{
    match counts.get(part as usize) {
        Some(count) => usize::from(*count) == goals.len(),
        None => false,
    }
}

// Node n where its words are a part and a goal for each index of it.
fn read_part_node(
    alloc: Global,
    words: &[u8],
    n: u32,
    counts: &[u16],
) -> Result<Option<Node>, Memory>
    requires { length counts.now ≤ 256 }
    ensures { IfOk result (λ o. MatchOption o ((x : NodeLine) → ¬ IsPartNode counts.now n words.now x)
        (IsPartNode counts.now n words.now)) }
{
    let (word, rest) = first_word(words);
    let Some(part) = decimal_number(word) else {
        return Ok(None);
    };
    let found = read_goals(alloc, rest, n)?;
    let Some(goals) = found else {
        return Ok(None);
    };
    if !has_indices(counts, part, &goals) {
        return Ok(None);
    }
    Ok(Some(Node::of_part(BayId(part as u8), goals)))
}

// Node n, by its line, where the parts have so many indices.
pub(crate) fn read_node(
    alloc: Global,
    line: &[u8],
    n: u32,
    switches: u16,
    counts: &[u16],
) -> Result<Option<Node>, Memory>
    requires { length counts.now ≤ 256 }
    ensures { IfOk result (λ o. MatchOption o ((x : NodeLine) → ¬ IsNodeLine switches counts.now n line.now x)
        (IsNodeLine switches counts.now n line.now)) }
{
    let Some(rest) = behind_number(line, b"node ", n) else {
        return Ok(None);
    };
    if let Some(words) = behind(rest, b"part ") {
        let found = read_part_node(alloc, words, n, counts)?;
        let Some(node) = found else {
            return Ok(None);
        };
        return Ok(Some(node));
    }
    let Some(words) = behind(rest, b"switch ") else {
        return Ok(None);
    };
    let Some(node) = read_switch_node(words, n, switches) else {
        return Ok(None);
    };
    Ok(Some(node))
}
