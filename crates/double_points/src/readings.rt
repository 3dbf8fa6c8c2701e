//! Words, one for each switch.
ghost use Rattle.std.specs.Prelude.{◌≡◌, ◌<◌, ◌≤◌, ◌+◌, ◌↔◌, ◌⊎◌, ℕ, List, length, Some, None, IfOk, IsTrue, slice_get};
ghost use Rattle.std.specs.Prelude.{slice_set, replicate};
ghost use Rattle.station_graph.specs.Diagram.{part_count};
ghost use Rattle.double_points.specs.Words.{word_of, Agrees, Forgets, AreWords, AreWordsOf};

use crate::bay_words::BayWords;
use ilk_base::{BayId, Dbpos, Memory, SwitchId};
use station_graph::Station;
use std::alloc::Global;
use std::marker::Model;

/// The word that a text spells; none where it spells none of the five.
pub fn word_from(text: &[u8]) -> Option<Dbpos>
    ensures { result ≡ word_of text.now }
{
    if text == b"intermediate".as_slice() {
        return Some(Dbpos::Intermediate);
    }
    if text == b"off".as_slice() {
        return Some(Dbpos::Off);
    }
    if text == b"on".as_slice() {
        return Some(Dbpos::On);
    }
    if text == b"bad".as_slice() {
        return Some(Dbpos::Bad);
    }
    if text == b"lost".as_slice() {
        return Some(Dbpos::Lost);
    }
    None
}

/// Whether the word agrees with a position: on with closed, off with open, and each other word with
/// both (IEC 61850-7-3, DPC).
pub fn agrees(word: Dbpos, closed: bool) -> bool
    ensures { IsTrue result ↔ Agrees word closed }
{
    match word {
        Dbpos::On => closed,
        Dbpos::Off => !closed,
        Dbpos::Intermediate | Dbpos::Bad | Dbpos::Lost => true,
    }
}

/// The words of all switches of a station, seen as a list with one entry for each switch.
#[derive(Drop)]
pub struct Readings {
    words: Vec<Dbpos>,
}

impl Model for Readings {
    ghost use Rattle.std.specs.Prelude.{List};
    ghost use Rattle.ilk_base.specs.declared.words.Dbpos.{Dbpos};

    ghost Value = { List Dbpos };

    ghost view = { λ r. r.words.items };
}

// Readings of these words.
pub(crate) fn readings_of(words: Vec<Dbpos>) -> Readings
    ensures { result ≡ words.items }
{
    Readings { words }
}

// Makes so many words lost, from the first on.
fn lose(words: &mut [Dbpos], first: usize, count: usize)
    requires { first + count ≤ length words.old }
    ensures count { length words.new ≡ length words.old }
    ensures those { (i : ℕ) → first ≤ i → i < first + count → slice_get words.new i ≡ Some Dbpos.Lost }
    ensures others { (i : ℕ) → i < first ⊎ first + count ≤ i → slice_get words.new i ≡ slice_get words.old i }
{
    for i in first..first + count {
        words[i] = Dbpos::Lost;
    }
}

impl Readings {
    /// The readings in which every word is lost. Time and memory: the switches.
    pub fn lost(alloc: Global, station: &Station) -> Result<Readings, Memory>
        ensures { IfOk result (λ r. r ≡ replicate (length station.now.switches) Dbpos.Lost) }
    {
        Ok(Readings {
            words: vec![in alloc; Dbpos::Lost; usize::from(station.switch_count())]?,
        })
    }

    /// The same readings once more. Time and memory: the switches.
    pub fn copy(&self, alloc: Global) -> Result<Readings, Memory>
        ensures { IfOk result (λ r. r ≡ self.now) }
    {
        Ok(Readings {
            words: Vec::from_slice(alloc, &self.words)?,
        })
    }

    /// The words of the bay, as a value of its own. Time: the bay's switches. Takes no memory.
    pub fn of_bay(&self, station: &Station, bay: BayId) -> BayWords
        requires { AreWords station.now self.now }
        ensures { AreWordsOf station.now bay.0 self.now result }
    {
        let (first, count) = station.switches_of(bay);
        let first = usize::from(first.0);
        BayWords::new(&self.words[first..first + usize::from(count)])
    }

    /// Sets the word of the switch, at once.
    pub fn sense(&mut self, id: SwitchId, word: Dbpos)
        requires { id.0 < length self.old }
        ensures { self.new ≡ slice_set self.old id.0 word }
    {
        self.words[usize::from(id.0)] = word;
    }

    /// The word of the switch, at once.
    pub fn word(&self, id: SwitchId) -> Dbpos
        requires { id.0 < length self.now }
        ensures { slice_get self.now id.0 ≡ Some result }
    {
        self.words[usize::from(id.0)]
    }

    /// Makes all words of the bay lost, and leaves those of the other bays. Time: the bay's
    /// switches.
    pub fn forget(&mut self, station: &Station, bay: BayId)
        requires each_switch { AreWords station.now self.old }
        requires in_range { bay.0 < part_count station.now }
        ensures { Forgets station.now bay.0 self.old self.new }
    {
        let (first, count) = station.switches_of(bay);
        lose(&mut self.words, usize::from(first.0), usize::from(count));
    }
}
