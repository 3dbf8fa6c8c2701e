//! The verdict by four graphs.
ghost use Rattle.std.specs.Prelude.{◌≡◌, ℕ, suc, ◌<◌, drop, length, slice_get, Some, IfOk, IfSome};
ghost use Rattle.station_graph.specs.Diagram.{part_count};
ghost use Rattle.central_rules.specs.Readings.{Decides};
ghost use Rattle.part_alphabets.specs.PartAlphabets.{size_of};
ghost use Rattle.part_alphabets.specs.Alphabets.{AreAlphabets};
ghost use Rattle.decision_graphs.specs.Reaching.{IsSet, set_at};
ghost use Rattle.judge_pool.specs.Lettered.{lettered};
ghost use Rattle.judge_pool.specs.Graphs.{other_of, IsOwn};
ghost use Rattle.release_compile.specs.Allowed.{GivesChoices};
ghost use Rattle.release_compile.specs.Possible.{AreAllWords, SetHolds};
ghost use Rattle.release_compile.specs.Deciding.{OthersAgree, WithinAll};
ghost use Rattle.release_compile.specs.Sides.{AreSides};

use crate::all_words::AllWords;
use crate::chain::Through;
use crate::placing::{place_others, place_own};
use crate::search::search;
use crate::sides::{Place, Sides};
use bay_contract::Parts;
use central_rules::Verdict;
use decision_graphs::ChoiceSets;
use double_points::{Readings, agrees};
use ilk_base::{Memory, Op};
use station_graph::{Station, Vector};
use std::alloc::Global;

// A vector that gives the choices; where the words of all switches are known, each other part agrees with them in it.
pub(crate) fn vector_of(
    alloc: Global,
    station: &Station,
    parts: &Parts,
    place: Place,
    op: Op,
    known: Option<&AllWords>,
    own: &Readings,
    choices: &Through,
) -> Result<Vector, Memory>
    requires lettered { AreAlphabets station.now parts.now }
    requires words { length own.now ≡ length station.now.switches }
    requires count { suc place.parts ≡ part_count station.now }
    requires bay { place.bay.0 < part_count station.now }
    requires own { IsOwn station.now place.bay.0 op.switch.0 place.first place.others }
    requires outer { length choices.now.outer ≡ place.parts }
    requires indices { (j c : ℕ) → slice_get choices.now.outer j ≡ Some c
        → c < size_of parts.now (other_of 0 place.bay.0 j) }
    requires known { IfSome known (λ w. AreAllWords (lettered station.now parts.now) w.now) }
    requires held { IfSome known (λ w. (j c : ℕ) → slice_get choices.now.outer j ≡ Some c
        → SetHolds w.now.possible.items (other_of 0 place.bay.0 j) c) }
    requires inner { length choices.now.inner ≡ suc place.others }
    requires small { (i c : ℕ) → slice_get (drop 1 choices.now.inner) i ≡ Some c → c < 2 }
    ensures gives { IfOk result (GivesChoices (lettered station.now parts.now) place.bay.0 op.switch.0 place.first
        own.now choices.now.outer (drop 1 choices.now.inner)) }
    ensures agree { IfOk result (λ v. IfSome known.entry (λ w. OthersAgree station.now place.bay.0 w.now.words.now
        place.parts v)) }
{
    let _count = station.switch_count();
    let mut vector = Vector::all_open(alloc, station)?;
    place_others(
        station,
        parts,
        place.bay,
        place.parts,
        known,
        &choices.outer,
        &mut vector,
    );
    place_own(
        place.first,
        op.switch.0,
        place.others,
        &choices.inner,
        &mut vector,
    );
    vector.set(op.switch, !agrees(own.word(op.switch), false));
    Ok(vector)
}

// The verdict over all vectors in which the bay's switches agree with its words and each other part has an allowed
// index. Where the words of all switches are known, the allowed indices are those that the parts can have by them, and
// a vector of a denial agrees with them all.
pub(crate) fn decide(
    alloc: Global,
    station: &Station,
    parts: &Parts,
    sides: &Sides,
    op: Op,
    known: Option<&AllWords>,
    own: &Readings,
    sets: &ChoiceSets,
) -> Result<Verdict, Memory>
    requires lettered { AreAlphabets station.now parts.now }
    requires words { length own.now ≡ length station.now.switches }
    requires sides { AreSides (lettered station.now parts.now) op.switch.0 own.now sets.now sides.now }
    requires known { IfSome known (λ w. AreAllWords (lettered station.now parts.now) w.now) }
    requires held { IfSome known (λ w. (j c : ℕ) → IsSet (set_at sets.now j) c
        → SetHolds w.now.possible.items (other_of 0 sides.now.place.bay.0 j) c) }
    ensures { IfOk result (Decides station.now (WithinAll known.entry (lettered station.now parts.now)
        sides.now.place.bay.0 own.now sets.now sides.now.place.parts) op) }
{
    match search(alloc, op.direction, &sides.gap, &sides.load, sets)? {
        None => Ok(Verdict::Release),
        Some(found) => {
            let place = sides.place;
            let reading = vector_of(alloc, station, parts, place, op, known, own, &found.choices)?;
            Ok(Verdict::Denied {
                rule: found.rule,
                reading,
            })
        }
    }
}
