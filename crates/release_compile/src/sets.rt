//! Sets of allowed choices for the graphs of a bay.
ghost use Rattle.std.specs.Prelude.{◌≡◌, ◌≢◌, ◌+◌, ◌*◌, ◌<◌, ◌≤◌, ◌==◌, ◌⊎◌, ◌↔◌, ℕ, suc, List, [], Bool, true, length};
ghost use Rattle.std.specs.Prelude.{slice_get, Some, IfOk, IsTrue, ◌^◌};
ghost use Rattle.station_graph.specs.Diagram.{part_count};
ghost use Rattle.double_points.specs.Words.{Agrees};
ghost use Rattle.part_alphabets.specs.PartAlphabets.{size_of};
ghost use Rattle.part_alphabets.specs.Alphabets.{AreAlphabets, InSet};
ghost use Rattle.decision_graphs.specs.Label.{Layer, layer_at};
ghost use Rattle.decision_graphs.specs.Reaching.{AreSetsOf, MarksReached, IsSet, set_at};
ghost use Rattle.decision_graphs.specs.Marked.{AreMarksOf, PathsLead};
ghost use Rattle.judge_pool.specs.Lettered.{lettered};
ghost use Rattle.release_compile.specs.Chaining.{AreInARow, IsReady};
ghost use Rattle.judge_pool.specs.Graphs.{other_of};
ghost use Rattle.release_compile.specs.Allowed.{OwnAllowed};
ghost use Rattle.release_compile.specs.Possible.{AreAllWords};
ghost use Rattle.release_compile.specs.Summaries.{has_bit, HeardAllows, AreHeardSets, ArePossibleSets};

use crate::all_words::AllWords;
use crate::search::Side;
use crate::summary::bit_of;
use bay_contract::{IndexSet, Parts};
use decision_graphs::{ChoiceSets, Graph, Marks};
use double_points::{Readings, agrees};
use ilk_base::{BayId, Dbpos, HeardList, Memory, Summary, SwitchId};
use judge_intake::other_number;
use station_graph::Station;
use std::alloc::Global;

// Allows the choice in the layer, where the answer is yes.
fn allow_if(sets: &mut ChoiceSets, layer: u16, choice: u32, yes: bool)
    requires layer { layer < length sets.old }
    requires choice { choice < length (set_at sets.old layer) }
    ensures count { length sets.new ≡ length sets.old }
    ensures lens { (j : ℕ) → length (set_at sets.new j) ≡ length (set_at sets.old j) }
    ensures sets { (ls : List Layer) → AreSetsOf ls sets.old → AreSetsOf ls sets.new }
    ensures here { (c : ℕ) → IsSet (set_at sets.new layer) c ↔
        (IsSet (set_at sets.old layer) c ⊎ ((yes ≡ true) × (c ≡ choice))) }
    ensures others { (j : ℕ) → j ≢ layer → set_at sets.new j ≡ set_at sets.old j }
{
    if !yes {
        return;
    }
    sets.allow(layer, choice);
}

// Allows the marked choices in the layer.
pub(crate) fn allow_marked(sets: &mut ChoiceSets, layer: u16, marks: &[bool])
    requires layer { layer < length sets.old }
    requires marks { length marks.now ≡ length (set_at sets.old layer) }
    requires few { length marks.now < 2 ^ 32 }
    ensures count { length sets.new ≡ length sets.old }
    ensures lens { (j : ℕ) → length (set_at sets.new j) ≡ length (set_at sets.old j) }
    ensures sets { (ls : List Layer) → AreSetsOf ls sets.old → AreSetsOf ls sets.new }
    ensures here { (c : ℕ) → IsSet (set_at sets.new layer) c ↔ (IsSet (set_at sets.old layer) c ⊎ IsSet marks.now c) }
    ensures others { (j : ℕ) → j ≢ layer → set_at sets.new j ≡ set_at sets.old j }
{
    let count = marks.len();
    for choice in 0..count {
        let yes = marks[choice];
        allow_if(sets, layer, choice as u32, yes);
    }
}

// Whether the summary of these bytes allows the index: the empty one allows all.
fn allows_index(bytes: &[u8], index: usize) -> bool
    requires { (index < 8 * length bytes.now) ⊎ (bytes.now ≡ []) }
    ensures { IsTrue result ↔ ((has_bit bytes.now index ≡ true) ⊎ (bytes.now ≡ [])) }
{
    bytes.is_empty() || bit_of(bytes, index)
}

// Whether what was heard of a part allows the index.
fn heard_allows(what: Option<Summary>, index: u8) -> bool
    requires { (s : List ℕ) → what ≡ Some s → (index < 8 * length s) ⊎ (s ≡ []) }
    ensures { IsTrue result ↔ HeardAllows (Some what) index }
{
    match what {
        Some(summary) => allows_index(summary.bytes(), usize::from(index)),
        None => true,
    }
}

// Which indices of a part what was heard of it allows.
fn heard_marks(alloc: Global, size: u8, part: BayId, heard: &HeardList) -> Result<Vec<bool>, Memory>
    requires part { part.0 < length heard.now }
    requires fits { (s : List ℕ) → slice_get heard.now part.0 ≡ Some (Some s) → (size ≤ 8 * length s) ⊎ (s ≡ []) }
    ensures len { IfOk result (λ v. length v.items ≡ size) }
    ensures each { IfOk result (λ v. (c : ℕ) → IsSet v.items c ↔
        ((c < size) × HeardAllows (slice_get heard.now part.0) c)) }
{
    let mut marks = Vec::new(alloc);
    for index in 0..size {
        let yes = heard_allows(heard.get(part), index);
        marks.push(yes)?;
    }
    Ok(marks)
}

// The indices of each other part that what was heard of it allows.
pub(crate) fn heard_sets(
    alloc: Global,
    station: &Station,
    parts: &Parts,
    outer: &Graph,
    bay: BayId,
    others: u16,
    heard: &HeardList,
) -> Result<ChoiceSets, Memory>
    requires lettered { AreAlphabets station.now parts.now }
    requires count { suc others ≡ part_count station.now }
    requires bay { bay.0 < part_count station.now }
    requires layers { length outer.now.layers ≡ others }
    requires choices { (j : ℕ) → j < others →
        (layer_at outer.now.layers j).choices ≡ size_of parts.now (other_of 0 bay.0 j) }
    requires heard { length heard.now ≡ part_count station.now }
    requires fit { (part : ℕ) (s : List ℕ) → part ≢ bay.0 → slice_get heard.now part ≡ Some (Some s) →
        (size_of parts.now part ≤ 8 * length s) ⊎ (s ≡ []) }
    ensures sets { IfOk result (AreSetsOf outer.now.layers) }
    ensures heard { IfOk result (AreHeardSets (lettered station.now parts.now) bay.0 heard.now) }
{
    let _count = station.part_count();
    let mut sets = ChoiceSets::new(alloc, outer)?;
    for j in 0..others {
        let part = BayId(other_number(0, u16::from(bay.0), j) as u8);
        let marks = heard_marks(alloc, parts.size(part), part, heard)?;
        allow_marked(&mut sets, j, &marks);
    }
    Ok(sets)
}

// Which of so many indices are in the set.
fn marks_of(alloc: Global, size: u8, set: &IndexSet) -> Result<Vec<bool>, Memory>
    requires { length set.now ≡ size }
    ensures len { IfOk result (λ v. length v.items ≡ size) }
    ensures each { IfOk result (λ v. (c : ℕ) → IsSet v.items c ↔ InSet set.now c) }
{
    let mut marks = Vec::new(alloc);
    for index in 0..size {
        let yes = set.holds(index);
        marks.push(yes)?;
    }
    Ok(marks)
}

// The indices of each other part that are possible by the words.
pub(crate) fn possible_sets(
    alloc: Global,
    station: &Station,
    parts: &Parts,
    outer: &Graph,
    bay: BayId,
    others: u16,
    all: &AllWords,
) -> Result<ChoiceSets, Memory>
    requires lettered { AreAlphabets station.now parts.now }
    requires count { suc others ≡ part_count station.now }
    requires bay { bay.0 < part_count station.now }
    requires layers { length outer.now.layers ≡ others }
    requires choices { (j : ℕ) → j < others →
        (layer_at outer.now.layers j).choices ≡ size_of parts.now (other_of 0 bay.0 j) }
    requires all { AreAllWords (lettered station.now parts.now) all.now }
    ensures sets { IfOk result (AreSetsOf outer.now.layers) }
    ensures possible { IfOk result (ArePossibleSets (lettered station.now parts.now) bay.0 all.now.words.now) }
{
    let _count = station.part_count();
    let mut sets = ChoiceSets::new(alloc, outer)?;
    for j in 0..others {
        let part = BayId(other_number(0, u16::from(bay.0), j) as u8);
        let set = &all.possible[usize::from(part.0)];
        let marks = marks_of(alloc, parts.size(part), set)?;
        allow_marked(&mut sets, j, &marks);
    }
    Ok(sets)
}

// Allows in the first layer of an inner graph the labels that are marked.
fn allow_labels(outer: &Graph, marks: &Marks, inner: &mut ChoiceSets)
    requires marks { length marks.now.labels ≡ outer.now.labels }
    requires some { 0 < length inner.old }
    requires first { length (set_at inner.old 0) ≡ outer.now.labels }
    ensures count { length inner.new ≡ length inner.old }
    ensures lens { (j : ℕ) → length (set_at inner.new j) ≡ length (set_at inner.old j) }
    ensures sets { (ls : List Layer) → AreSetsOf ls inner.old → AreSetsOf ls inner.new }
    ensures here { (c : ℕ) → IsSet (set_at inner.new 0) c ↔ (IsSet (set_at inner.old 0) c ⊎ IsSet marks.now.labels c) }
    ensures others { (j : ℕ) → j ≢ 0 → set_at inner.new j ≡ set_at inner.old j }
{
    let count = outer.labels();
    for label in 0..count {
        let yes = marks.marked(label);
        allow_if(inner, 0, label, yes);
    }
}

// Allows in a layer of an inner graph the positions that agree with the word.
fn allow_positions(inner: &mut ChoiceSets, layer: u16, word: Dbpos)
    requires layer { layer < length inner.old }
    requires two { length (set_at inner.old layer) ≡ 2 }
    ensures count { length inner.new ≡ length inner.old }
    ensures lens { (j : ℕ) → length (set_at inner.new j) ≡ length (set_at inner.old j) }
    ensures sets { (ls : List Layer) → AreSetsOf ls inner.old → AreSetsOf ls inner.new }
    ensures here { (c : ℕ) → c < 2 → IsSet (set_at inner.new layer) c ↔
        (IsSet (set_at inner.old layer) c ⊎ Agrees word (c == 1)) }
    ensures others { (j : ℕ) → j ≢ layer → set_at inner.new j ≡ set_at inner.old j }
{
    let off = agrees(word, false);
    let on = agrees(word, true);
    allow_if(inner, layer, 0, off);
    allow_if(inner, layer, 1, on);
}

// Allows in the other layers of an inner graph the positions that agree with the words.
pub(crate) fn allow_own(inner: &mut ChoiceSets, own: &Readings, first: u16, moved: u16, others: u16)
    requires count { length inner.old ≡ suc others }
    requires two { (i : ℕ) → i < others → length (set_at inner.old (suc i)) ≡ 2 }
    requires bare { (i c : ℕ) → IsSet (set_at inner.old (suc i)) c → ⊥ }
    requires words { first + others < length own.now }
    requires few { length own.now + 1 < 2 ^ 16 }
    ensures sets { (ls : List Layer) → AreSetsOf ls inner.old → AreSetsOf ls inner.new }
    ensures own { OwnAllowed first moved others own.now inner.new }
    ensures first { set_at inner.new 0 ≡ set_at inner.old 0 }
{
    for i in 0..others {
        let id = SwitchId(other_number(first, moved, i));
        let word = own.word(id);
        allow_positions(inner, i + 1, word);
    }
}

// The graphs of one view of a switch, with what the outer one reaches by the sets and what is allowed in the inner one.
pub(crate) fn side<'a>(
    alloc: Global,
    outer: &'a Graph,
    inner: &'a Graph,
    sets: &ChoiceSets,
    marks: &'a Marks,
    own: &Readings,
    first: u16,
    moved: u16,
    others: u16,
) -> Result<Side<'a>, Memory>
    requires sets { AreSetsOf outer.now.layers sets.now }
    requires marks { AreMarksOf outer.now marks.now }
    requires reached { MarksReached outer.now sets.now marks.now.labels }
    requires paths { PathsLead outer.now sets.now marks.now }
    requires row { AreInARow outer.now inner.now }
    requires count { length inner.now.layers ≡ suc others }
    requires two { (i : ℕ) → i < others → (layer_at inner.now.layers (suc i)).choices ≡ 2 }
    requires words { first + others < length own.now }
    requires few { length own.now + 1 < 2 ^ 16 }
    ensures outer { IfOk result (λ s. s.outer.now ≡ outer.now) }
    ensures inner { IfOk result (λ s. s.inner.now ≡ inner.now) }
    ensures ready { IfOk result (λ s. IsReady s sets.now) }
    ensures own { IfOk result (λ s. OwnAllowed first moved others own.now s.inner_sets) }
{
    let mut inner_sets = ChoiceSets::new(alloc, inner)?;
    allow_labels(outer, marks, &mut inner_sets);
    allow_own(&mut inner_sets, own, first, moved, others);
    Ok(Side {
        outer,
        inner,
        marks,
        inner_sets,
    })
}
