//! A vector that gives the choices that were found.
ghost use Rattle.std.specs.Prelude.{◌≡◌, ℕ, ◌+◌, ◌<◌, ◌⊎◌, suc, drop, length, slice_get, Some, IfSome, ◌^◌};
ghost use Rattle.station_graph.specs.Diagram.{Diagram, part_count};
ghost use Rattle.part_alphabets.specs.PartAlphabets.{size_of};
ghost use Rattle.part_alphabets.specs.Alphabets.{AreAlphabets};
ghost use Rattle.judge_pool.specs.Lettered.{lettered};
ghost use Rattle.judge_pool.specs.Folding.{AreChosen};
ghost use Rattle.judge_pool.specs.Graphs.{other_of, PartChosen, SwitchChosen};
ghost use Rattle.release_compile.specs.Possible.{AreAllWords, SetHolds};
ghost use Rattle.release_compile.specs.Deciding.{IsPlaceFor, OthersAgree};

use crate::all_words::AllWords;
use bay_contract::Parts;
use decision_graphs::ChoiceList;
use ilk_base::{BayId, SwitchId};
use judge_intake::other_number;
use station_graph::{Station, Vector};

// A position of the part that has the index; where the words of all switches are known, one that agrees with them.
fn place_for(parts: &Parts, part: BayId, known: Option<&AllWords>, index: u8) -> u32
    requires part { part.0 < length parts.now.parts }
    requires index { index < size_of parts.now part.0 }
    requires held { IfSome known (λ w. SetHolds w.now.possible.items part.0 index) }
    ensures { (d : Diagram) → AreAlphabets d parts.now
        → IfSome known.entry (λ w. AreAllWords (lettered d parts.now) w.now)
        → IsPlaceFor known.entry d parts.now part.0 index result }
{
    match known {
        Some(all) => all.possible[usize::from(part.0)].position(index).unwrap(),
        None => parts.example(part, index),
    }
}

// Moves each other part to a position that has its index; where the words of all switches are known, to one that agrees
// with them.
pub(crate) fn place_others(
    station: &Station,
    parts: &Parts,
    bay: BayId,
    others: u16,
    known: Option<&AllWords>,
    choices: &ChoiceList,
    vector: &mut Vector,
)
    requires lettered { AreAlphabets station.now parts.now }
    requires whole { length vector.old ≡ length station.now.switches }
    requires count { suc others ≡ part_count station.now }
    requires bay { bay.0 < part_count station.now }
    requires len { length choices.now ≡ others }
    requires indices { (j c : ℕ) → slice_get choices.now j ≡ Some c → c < size_of parts.now (other_of 0 bay.0 j) }
    requires known { IfSome known (λ w. AreAllWords (lettered station.now parts.now) w.now) }
    requires held { IfSome known (λ w. (j c : ℕ) → slice_get choices.now j ≡ Some c
        → SetHolds w.now.possible.items (other_of 0 bay.0 j) c) }
    ensures count { length vector.new ≡ length vector.old }
    ensures chosen { AreChosen (PartChosen (lettered station.now parts.now) bay.0) vector.new choices.now }
    ensures agree { IfSome known.entry (λ w. OthersAgree station.now bay.0 w.now.words.now others vector.new) }
{
    let _count = station.part_count();
    for j in 0..others {
        let part = BayId(other_number(0, u16::from(bay.0), j) as u8);
        let index = choices.choice(j) as u8;
        let position = place_for(parts, part, known, index);
        parts.put(part, position, vector);
    }
}

// Moves each other switch of the bay to the position of its choice.
pub(crate) fn place_own(
    first: u16,
    moved: u16,
    others: u16,
    choices: &ChoiceList,
    vector: &mut Vector,
)
    requires within { first + others < length vector.old }
    requires few { length vector.old + 1 < 2 ^ 16 }
    requires len { length choices.now ≡ suc others }
    requires small { (i c : ℕ) → slice_get (drop 1 choices.now) i ≡ Some c → c < 2 }
    ensures count { length vector.new ≡ length vector.old }
    ensures chosen { AreChosen (SwitchChosen first moved) vector.new (drop 1 choices.now) }
    ensures stay { (i : ℕ) → (i < first) ⊎ ((first + others < i) ⊎ (i ≡ moved)) →
        slice_get vector.new i ≡ slice_get vector.old i }
{
    for i in 0..others {
        let closed = choices.choice(i + 1) == 1;
        vector.set(SwitchId(other_number(first, moved, i)), closed);
    }
}
