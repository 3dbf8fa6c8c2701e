//! Whether one part is like another: the one is the other on other nodes.
ghost use Rattle.std.specs.Prelude.{◌≡◌, ℕ, ◌<◌, Some, length, slice_get, IsTrue};
ghost use Rattle.bay_contract.specs.declared.course.Turn.{Turn};
ghost use Rattle.bay_contract.specs.Courses.{AtOnePlace, AreRelated, IsLike, IsLikeTurn, IsLikeCourse};

use crate::course::{Course, Turn};
use contraction::Contraction;

// Whether the nodes stand at one place of two lists.
fn at_one_place(from: &[u16], to: &[u16], node: u16, other: u16) -> bool
    requires { length from.now ≡ length to.now }
    ensures { IsTrue result → AtOnePlace from.now to.now node other }
{
    for place in 0..from.len() {
        if from[place] == node && to[place] == other {
            return true;
        }
    }
    false
}

// Whether the entries of two lists stand so, place by place.
fn are_related(from: &[u16], to: &[u16], nodes: &[u16], others: &[u16]) -> bool
    requires { length from.now ≡ length to.now }
    ensures { IsTrue result → AreRelated (AtOnePlace from.now to.now) nodes.now others.now }
{
    if nodes.len() != others.len() {
        return false;
    }
    for i in 0..nodes.len() {
        if !at_one_place(from, to, nodes[i], others[i]) {
            return false;
        }
    }
    true
}

// Whether the values answer the same, on nodes that stand so.
fn is_like(from: &[u16], to: &[u16], value: &Contraction, other: &Contraction) -> bool
    requires { length from.now ≡ length to.now }
    ensures { IsTrue result → IsLike (AtOnePlace from.now to.now) value.now other.now }
{
    let related = are_related(from, to, value.nodes(), other.nodes());
    related && other.answers_as(value)
}

// Whether the second turn is like the first.
fn is_like_turn(from: &[u16], to: &[u16], turn: &Turn, other: &Turn) -> bool
    requires { length from.now ≡ length to.now }
    ensures { IsTrue result → IsLikeTurn (AtOnePlace from.now to.now) turn.now other.now }
{
    let off = is_like(from, to, &turn.off, &other.off);
    let on = is_like(from, to, &turn.on, &other.on);
    let kept = are_related(from, to, turn.kept.numbers(), other.kept.numbers());
    off && on && kept
}

// Whether the turns of one course are like those of another, place by place.
fn are_like_turns(from: &[u16], to: &[u16], turns: &[Turn], others: &[Turn]) -> bool
    requires { length from.now ≡ length to.now }
    ensures count { IsTrue result → length turns.now ≡ length others.now }
    ensures turns { IsTrue result → (j : ℕ) (s t : Turn) → slice_get turns.now j ≡ Some s
        → slice_get others.now j ≡ Some t → IsLikeTurn (AtOnePlace from.now to.now) s t }
{
    if turns.len() != others.len() {
        return false;
    }
    for j in 0..turns.len() {
        if !is_like_turn(from, to, &turns[j], &others[j]) {
            return false;
        }
    }
    true
}

// Whether the second course is like the first.
pub(crate) fn is_like_course(course: &Course, other: &Course) -> bool
    ensures { IsTrue result → IsLikeCourse course.now other.now }
{
    let from = course.nodes.numbers();
    let to = other.nodes.numbers();
    if from.len() != to.len() || !other.base.answers_as(&course.base) {
        return false;
    }
    are_like_turns(from, to, &course.turns, &other.turns)
}
