//! The words of bays.
ghost use Rattle.std.specs.Prelude.{◌≡◌, ◌+◌, ◌<◌, ◌≤◌, length, slice_get, Some, IfOk};
ghost use Rattle.station_graph.specs.Diagram.{part_count, switches_in};
ghost use Rattle.station_compare.specs.Words.{worst, found_word};
ghost use Rattle.station_compare.specs.Bays.{WorstOf, Between, IsBayWord, AreBayWords, IsGoneBay, AreGoneBays, HasBay};
ghost use Rattle.station_compare.specs.Bays.{AreBays};
ghost use Rattle.station_compare.specs.Comparing.{IsComparison, AreHere};

use crate::found::{Comparison, Found};
use crate::word::Word;
use ilk_base::{BayId, Memory, SwitchId};
use station_graph::Station;
use std::alloc::Global;

/// The word of a part of the new station.
#[derive(Clone, Copy, PartialEq, Eq)]
pub enum BayWord {
    /// it has no switch, so it is no bay
    NoBay,
    /// it is a bay, and none of its switches is one of the old station
    New,
    /// the worst of the words of its operations that both stations have
    Common(Word),
}

/// What is found of the bays of two stations.
#[derive(Drop)]
pub struct BayWords {
    /// for each part of the new station its word
    pub here: Vec<BayWord>,
    /// for each part of the old station whether it is a bay, and no bay of the new one has its path
    pub gone: Vec<bool>,
}

// The word of a switch, if it has one.
fn found_word(found: &Found) -> Option<Word>
    ensures { result ≡ found_word found.now }
{
    match found {
        Found::OnlyNew => None,
        Found::InBoth(changes) => Some(changes.word()),
    }
}

// The worse of two words, if there are any.
fn worst(one: Option<Word>, other: Option<Word>) -> Option<Word>
    ensures { result ≡ worst one other }
{
    match one {
        None => other,
        Some(word) => match other {
            None => Some(word),
            Some(second) => Some(word.worse(second)),
        },
    }
}

// The worst word of so many switches of the new station, from the first on.
fn worst_between(
    old: &Station,
    new: &Station,
    here: &[Found],
    first: SwitchId,
    count: u16,
) -> Option<Word>
    requires here { AreHere old.now new.now here.now }
    requires within { first.0 + count ≤ length new.now.switches }
    ensures { WorstOf old.now new.now (Between first.0 (first.0 + count)) result }
{
    old.is_station();
    let _switches = new.switch_count();
    let mut word = None;
    for j in 0..count {
        let found = &here[usize::from(first.0 + j)];
        word = worst(word, found_word(found));
    }
    word
}

// The word of a part of the new station.
fn bay_word(old: &Station, new: &Station, here: &[Found], part: BayId) -> BayWord
    requires here { AreHere old.now new.now here.now }
    ensures { IsBayWord old.now new.now part.0 result }
{
    let (first, count) = new.switches_of(part);
    if count == 0 {
        return BayWord::NoBay;
    }
    match worst_between(old, new, here, first, count) {
        Some(word) => BayWord::Common(word),
        None => BayWord::New,
    }
}

// The words of the parts of the new station.
fn bay_words(
    alloc: Global,
    old: &Station,
    new: &Station,
    here: &[Found],
) -> Result<Vec<BayWord>, Memory>
    requires here { AreHere old.now new.now here.now }
    ensures { IfOk result (λ v. AreBayWords old.now new.now v.items) }
{
    let mut words = Vec::new(alloc);
    for p in 0..new.part_count() {
        words.push(bay_word(old, new, here, BayId(p as u8)))?;
    }
    Ok(words)
}

// Whether a part of the old station is a bay, and no bay of the new one has its path.
fn is_gone_bay(old: &Station, new: &Station, part: BayId) -> bool
    requires { part.0 < part_count old.now }
    ensures { IsGoneBay old.now new.now part.0 result }
{
    let (_, count) = old.switches_of(part);
    if count == 0 {
        return false;
    }
    match new.find_bay(old.part_path(part)) {
        Some(_) => false,
        None => true,
    }
}

// So for each of its parts.
fn gone_bays(alloc: Global, old: &Station, new: &Station) -> Result<Vec<bool>, Memory>
    ensures { IfOk result (λ v. AreGoneBays old.now new.now v.items) }
{
    let mut gone = Vec::new(alloc);
    for p in 0..old.part_count() {
        gone.push(is_gone_bay(old, new, BayId(p as u8)))?;
    }
    Ok(gone)
}

impl Comparison {
    /// The words of the bays of two stations, of which this is the comparison: of each bay of the new one the worst word of
    /// an operation of it that both have. Time: the switches, and the paths of the old station's parts.
    pub fn bays(&self, alloc: Global, old: &Station, new: &Station) -> Result<BayWords, Memory>
        requires { IsComparison old.now new.now self.now }
        ensures { IfOk result (AreBays old.now new.now) }
    {
        let here = bay_words(alloc, old, new, &self.here)?;
        let gone = gone_bays(alloc, old, new)?;
        Ok(BayWords { here, gone })
    }
}
