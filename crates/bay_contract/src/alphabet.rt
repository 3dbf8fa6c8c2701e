//! The alphabet of one part.
ghost use Rattle.std.specs.Prelude.{◌≡◌, ℕ, ◌+◌, ◌^◌, ◌<◌, ◌≤◌, List, Some, length, map, slice_get, IfOk, IfErr};
ghost use Rattle.contraction.specs.Answers.{Answers, AreNodes};
ghost use Rattle.contraction.specs.Renaming.{renamed};
ghost use Rattle.part_alphabets.specs.declared.fork.Fork.{Fork};
ghost use Rattle.part_alphabets.specs.Counting.{PartFits, AreStepSizes};
ghost use Rattle.bay_contract.specs.Building.{IsBuiltFor};
ghost use Rattle.bay_contract.specs.Refusing.{IsRefusalOf};
ghost use Rattle.bay_contract.specs.Courses.{IsCourse, IsLikeCourse, IsPattern, ArePatterns, shifted};

use crate::course::{Course, course_of};
use crate::pattern::{Pattern, like_pattern, pattern_of, remember};
use crate::refusal::PartsRefusal;
use contraction::Contraction;
use ilk_base::{BayId, Memory, SwitchId};
use part_alphabets::Fork;
use station_graph::{NodeList, Station};
use std::alloc::Global;
use std::marker::Model;

// The alphabet of a part, seen as its switches, letters, examples and forks.
#[derive(Drop)]
pub(crate) struct Alphabet {
    pub(crate) switches: u16,
    pub(crate) first: u16,
    pub(crate) count: u16,
    pub(crate) letters: Vec<Contraction>,
    pub(crate) examples: Vec<u32>,
    pub(crate) forks: Vec<Fork>,
}

impl Model for Alphabet {
    ghost use Rattle.part_alphabets.specs.PartAlphabets.{PartAlphabet};
    ghost use Rattle.bay_contract.specs.Shapes.{IsShaped};

    ghost Value = { PartAlphabet };

    ghost use Rattle.bay_contract.specs.AlphabetInside.{seen_as};

    ghost view = { seen_as };

    ghost invariant = { λ a. IsShaped (seen_as a) };
}

// The values on these nodes, of which all hold one list.
fn values_on(
    alloc: Global,
    values: &[Contraction],
    nodes: &NodeList,
) -> Result<Vec<Contraction>, Memory>
    requires nodes { AreNodes nodes.now }
    requires sized { (i : ℕ) (c : Answers) → slice_get values.now i ≡ Some c → length c.kept ≡ length nodes.now }
    ensures { IfOk result (λ l. l.items ≡ map (renamed nodes.now) values.now) }
{
    let mut letters = Vec::with_capacity(alloc, values.len())?;
    let mut held = None;
    for i in 0..values.len() {
        let letter = values[i].on_held_nodes(alloc, nodes.numbers(), &mut held)?;
        letters.push(letter)?;
    }
    Ok(letters)
}

// The steps of the part whose first switch has this number.
fn steps_from(alloc: Global, forks: &[Fork], first: u16) -> Result<Vec<Fork>, Memory>
    requires { (i : ℕ) (f : Fork) → slice_get forks.now i ≡ Some f → first + f.switch.0 < 2 ^ 16 }
    ensures { IfOk result (λ l. l.items ≡ map (shifted first) forks.now) }
{
    let mut steps = Vec::with_capacity(alloc, forks.len())?;
    for i in 0..forks.len() {
        let fork = forks[i];
        steps.push(Fork {
            switch: SwitchId(first + fork.switch.0),
            off: fork.off,
            on: fork.on,
        })?;
    }
    Ok(steps)
}

// The alphabet of a part with this course, which is like that of the pattern.
fn alphabet_from(
    alloc: Global,
    station: &Station,
    pattern: &Pattern,
    course: &Course,
    first: u16,
    count: u16,
) -> Result<Alphabet, Memory>
    requires course { (part : ℕ) × IsCourse station.now part first count course.now }
    requires like { IsLikeCourse pattern.now.course course.now }
    requires pattern { IsPattern station.now pattern.now }
    ensures built { IfOk result (λ x. (part : ℕ) → IsCourse station.now part first count course.now
        → IsBuiltFor station.now part x) }
    ensures steps { IfOk result (λ x. (part : ℕ) → IsCourse station.now part first count course.now
        → AreStepSizes station.now part (length x.forks)) }
{
    Ok(Alphabet {
        switches: station.switch_count(),
        first,
        count,
        letters: values_on(alloc, &pattern.values, course.last_nodes())?,
        examples: Vec::from_slice(alloc, &pattern.examples)?,
        forks: steps_from(alloc, &pattern.forks, first)?,
    })
}

// The alphabet of the part, or the first step at which it passes a limit. It is that of a pattern whose part is
// like this one, if there is one, on the nodes of this part; else one more pattern is put last.
pub(crate) fn alphabet_of(
    alloc: Global,
    station: &Station,
    part: BayId,
    patterns: &mut Vec<Pattern>,
) -> Result<Alphabet, PartsRefusal>
    requires { ArePatterns station.now patterns.old.items }
    ensures patterns { IfOk result (λ _. ArePatterns station.now patterns.new.items) }
    ensures built { IfOk result (IsBuiltFor station.now part.0) }
    ensures steps { IfOk result (λ x. AreStepSizes station.now part.0 (length x.forks)) }
    ensures fits { IfOk result (λ _. PartFits station.now part.0) }
    ensures refusal { IfErr result (IsRefusalOf station.now part.0) }
{
    let (id, count) = station.switches_of(part);
    let first = id.0;
    let course = course_of(alloc, station, part, first, count)?;
    if let Some(at) = like_pattern(patterns, &course) {
        let alphabet = alphabet_from(alloc, station, &patterns[at], &course, first, count)?;
        return Ok(alphabet);
    }
    let pattern = pattern_of(alloc, station, part, course, first, count)?;
    let alphabet = alphabet_from(alloc, station, &pattern, &pattern.course, first, count)?;
    remember(patterns, pattern)?;
    Ok(alphabet)
}
