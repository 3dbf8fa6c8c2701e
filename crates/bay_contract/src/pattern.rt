//! What is built of a part, so that it serves each part that is like it.
ghost use Rattle.std.specs.Prelude.{◌≡◌, ◌≢◌, ℕ, ◌+◌, ◌<◌, ◌≤◌, Bool, List, [], ◌∷◌, ◌++◌, Some, length, slice_get};
ghost use Rattle.std.specs.Prelude.{IfOk, IfErr, IfSome};
ghost use Rattle.station_graph.specs.declared.limits.TheConstants.{BAY_SWITCHES};
ghost use Rattle.contraction.specs.Answers.{AreNodes};
ghost use Rattle.part_alphabets.specs.declared.limits.TheConstants.{CONTRACTIONS, LETTERS};
ghost use Rattle.bay_contract.specs.declared.pattern.Pattern.{Pattern};
ghost use Rattle.part_alphabets.specs.Layers.{rank, bits};
ghost use Rattle.bay_contract.specs.Building.{AreReversed};
ghost use Rattle.bay_contract.specs.Refusing.{IsRefusalOf};
ghost use Rattle.bay_contract.specs.Courses.{IsCourse, IsLikeCourse, IsPattern};

use crate::course::Course;
use crate::layer::{Layer, next_layer};
use crate::like::is_like_course;
use crate::refusal::PartsRefusal;
use contraction::Contraction;
use ilk_base::{BayId, Memory};
use part_alphabets::{CONTRACTIONS, Fork, LETTERS};
use station_graph::Station;
use std::alloc::Global;

// What is built of the first of like parts: its last values on its own nodes, the least position of each, and
// the steps that lead to them. A step tests a switch by its place in the part.
#[derive(Drop)]
pub(crate) struct Pattern {
    pub(crate) course: Course,
    pub(crate) values: Vec<Contraction>,
    pub(crate) examples: Vec<u32>,
    pub(crate) forks: Vec<Fork>,
}

// The positions of a rank as bits.
fn reversed(number: u32, count: u16) -> u32
    requires { count ≤ BAY_SWITCHES }
    ensures { (first : ℕ) (v : List Bool) → rank first count v ≡ number → bits first count v ≡ result }
{
    let mut rest = number;
    let mut out = 0u32;
    let mut left = count;
    'digits: while left > 0 {
        left -= 1;
        out = 2 * out + rest % 2;
        rest /= 2;
    }
    out
}

// The positions of these ranks as bits.
fn examples_of(alloc: Global, ranks: &[u32], count: u16) -> Result<Vec<u32>, Memory>
    requires { count ≤ BAY_SWITCHES }
    ensures { IfOk result (λ e. AreReversed count ranks.now e.items) }
{
    let mut examples = Vec::new(alloc);
    for number in ranks {
        examples.push(reversed(*number, count))?;
    }
    Ok(examples)
}

// The limit of values after step j + 1.
fn limit_after(j: u16, count: u16) -> usize
    requires { j < count }
    ensures last { j + 1 ≡ count → result ≡ LETTERS }
    ensures on_the_way { j + 1 ≢ count → result ≡ CONTRACTIONS }
    ensures most { result ≤ CONTRACTIONS }
{
    if j + 1 == count {
        LETTERS
    } else {
        CONTRACTIONS
    }
}

// The layer of no switch.
fn first_layer(alloc: Global, course: &Course) -> Result<Layer, Memory>
    requires nodes { AreNodes course.now.nodes }
    requires kept { course.now.base.kept ≡ course.now.nodes }
    ensures values { IfOk result (λ l. l.values.items ≡ course.now.base ∷ []) }
    ensures ranks { IfOk result (λ l. l.ranks.items ≡ 0 ∷ []) }
{
    let value = course.base.renamed(alloc, &course.nodes)?;
    let mut values = Vec::new(alloc);
    values.push(value)?;
    let mut ranks = Vec::new(alloc);
    ranks.push(0)?;
    Ok(Layer { values, ranks })
}

// What is built of the course of this part, whose switches are so many from the first on, or the first step
// at which it passes a limit.
pub(crate) fn pattern_of(
    alloc: Global,
    station: &Station,
    part: BayId,
    course: Course,
    first: u16,
    count: u16,
) -> Result<Pattern, PartsRefusal>
    requires course { IsCourse station.now part.0 first count course }
    ensures pattern { IfOk result (IsPattern station.now) }
    ensures course { IfOk result (λ f. f.course ≡ course) }
    ensures refusal { IfErr result (IsRefusalOf station.now part.0) }
{
    // called for its clause alone: this is a station
    station.switch_count();
    let mut layer = first_layer(alloc, &course)?;
    let mut forks = Vec::new(alloc);
    'switches: for j in 0..count {
        let limit = limit_after(j, count);
        let turn = &course.turns[j as usize];
        let next = next_layer(alloc, turn, j, limit, &layer, &mut forks)?;
        match next {
            Some(after) => {
                layer = after;
            }
            None => {
                return Err(PartsRefusal::Many {
                    part,
                    step: (j + 1) as u8,
                });
            }
        }
    }
    let examples = examples_of(alloc, &layer.ranks, count)?;
    Ok(Pattern {
        course,
        values: layer.values,
        examples,
        forks,
    })
}

// The place of a pattern whose course is like this one, if there is one.
pub(crate) fn like_pattern(patterns: &[Pattern], course: &Course) -> Option<usize>
    ensures within { IfSome result (λ at. at < length patterns.now) }
    ensures like { IfSome result (λ at. (f : Pattern) → slice_get patterns.now at ≡ Some f
        → IsLikeCourse f.course course.now) }
{
    for at in 0..patterns.len() {
        if is_like_course(&patterns[at].course, course) {
            return Some(at);
        }
    }
    None
}

// Puts one more pattern last.
pub(crate) fn remember(patterns: &mut Vec<Pattern>, pattern: Pattern) -> Result<(), Memory>
    ensures { IfOk result (λ _. patterns.new.items ≡ patterns.old.items ++ pattern ∷ []) }
{
    patterns.push(pattern)?;
    Ok(())
}
