//! Lists of notes.
ghost use Rattle.std.specs.Prelude.{◌≡◌, ◌<◌, ◌++◌, ◌∷◌, [], ℕ, length, slice_index_or, replicate, IfOk, OnOk};
ghost use Rattle.central_rules.specs.Meaning.{bay_of};
ghost use Rattle.trip_core.specs.Trips.{lost as lost_note};
ghost use Rattle.trip_core.specs.Learning.{heard_note, learned_note, number_of};

use crate::values::{Learning, Note};
use ilk_base::{BayId, Dbpos, Memory, SwitchId};
use station_graph::Station;
use std::alloc::Global;
use std::marker::Model;

// A note for each switch, or none at all.
#[derive(Drop)]
pub(crate) struct NoteList {
    notes: Vec<Note>,
}

impl Model for NoteList {
    ghost use Rattle.std.specs.Prelude.{List};
    ghost use Rattle.trip_core.specs.declared.values.Note.{Note};

    ghost Value = { List Note };

    ghost view = { λ l. l.notes.items };
}

// The note where nothing is known.
fn lost() -> Note
    ensures { result ≡ lost_note }
{
    Note {
        word: Dbpos::Lost,
        at: 0,
    }
}

// What is heard of a switch of this bay.
fn heard(learning: Learning, bay: BayId, beside: Note, known: Note) -> Note
    ensures { result ≡ heard_note (number_of learning.from) learning.collected bay.0 beside known }
{
    if !learning.collected {
        return lost();
    }
    match learning.from {
        Some(from) => { if bay.0 == from.0 { beside } else { known } }
        None => known,
    }
}

// What a bay knows of a switch of this bay after a step of its node, after which it collects or not.
fn learned(
    learning: Learning,
    collects: bool,
    bay: BayId,
    of: BayId,
    own: Note,
    beside: Note,
    known: Note,
) -> Note
    ensures { result ≡ learned_note
        (number_of learning.from) learning.collected learning.granted collects bay.0 of.0 own beside known }
{
    if collects {
        return heard(learning, bay, beside, known);
    }
    if learning.granted {
        return known;
    }
    if bay.0 == of.0 {
        return own;
    }
    heard(learning, bay, beside, known)
}

impl NoteList {
    // No notes.
    pub(crate) fn new(alloc: Global) -> NoteList
        ensures { result ≡ [] }
    {
        NoteList {
            notes: Vec::new(alloc),
        }
    }

    // So many notes where nothing is known.
    pub(crate) fn lost(alloc: Global, count: usize) -> Result<NoteList, Memory>
        ensures { IfOk result (λ l. l ≡ replicate count lost_note) }
    {
        Ok(NoteList {
            notes: vec![in alloc; lost(); count]?,
        })
    }

    // Appends a note.
    pub(crate) fn push(&mut self, note: Note) -> Result<(), Memory>
        ensures { OnOk result (self.new ≡ self.old ++ note ∷ []) }
    {
        self.notes.push(note)?;
        Ok(())
    }

    // The note at a place; where there is none, that nothing is known.
    pub(crate) fn get(&self, i: usize) -> Note
        ensures { result ≡ slice_index_or self.now i lost_note }
    {
        match self.notes.get(i) {
            Some(note) => *note,
            None => lost(),
        }
    }

    // The same notes once more.
    pub(crate) fn copied(&self, alloc: Global) -> Result<NoteList, Memory>
        ensures { IfOk result (λ l. l ≡ self.now) }
    {
        Ok(NoteList {
            notes: Vec::from_slice(alloc, &self.notes)?,
        })
    }

    // What a bay knows after a step of its node.
    pub(crate) fn learn(
        &mut self,
        station: &Station,
        of: BayId,
        own: &NoteList,
        beside: &NoteList,
        learning: Learning,
        collects: bool,
    )
        requires { length self.old ≡ length station.now.switches }
        ensures len { length self.new ≡ length self.old }
        ensures each { (i : ℕ) → i < length station.now.switches → slice_index_or self.new i lost_note
            ≡ learned_note (number_of learning.from) learning.collected learning.granted collects
            (bay_of station.now i) of.0 (slice_index_or own.now i lost_note) (slice_index_or beside.now i lost_note)
            (slice_index_or self.old i lost_note) }
    {
        for i in 0..station.switch_count() {
            let place = usize::from(i);
            let bay = station.switch(SwitchId(i)).bay;
            let known = self.notes[place];
            self.notes[place] = learned(
                learning,
                collects,
                bay,
                of,
                own.get(place),
                beside.get(place),
                known,
            );
        }
    }
}
