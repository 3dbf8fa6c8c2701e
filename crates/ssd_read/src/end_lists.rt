//! A list of ends for each element.

ghost use Rattle.std.specs.Prelude.{◌≡◌, ℕ, ◌<◌, ◌≤◌, ◌++◌, List, [], ◌∷◌, length, IfOk, OnOk, slice_set};
ghost use Rattle.std.specs.Prelude.{slice_index_or, replicate};

use crate::terminal_place::TerminalPlace;
use ilk_base::Memory;
use std::alloc::Global;
use std::marker::Model;

// A list of ends for each element, seen as such.
#[derive(Drop)]
pub(crate) struct EndLists {
    lists: Vec<Vec<TerminalPlace>>,
}

impl Model for EndLists {
    ghost use Rattle.std.specs.Prelude.{List, map};
    ghost use Rattle.ssd_read.specs.declared.terminal_place.TerminalPlace.{TerminalPlace as AnEnd};

    ghost Value = { List (List AnEnd) };

    ghost view = { λ l. map (λ v. v.items) l.lists.items };
}

impl EndLists {
    pub(crate) fn new(alloc: Global, count: u32) -> Result<EndLists, Memory>
        ensures { IfOk result (λ l. l ≡ replicate count []) }
    {
        let mut lists = Vec::new(alloc);
        for _ in 0..count {
            lists.push(Vec::new(alloc))?;
        }
        Ok(EndLists { lists })
    }

    // Adds an end to the list of an element.
    pub(crate) fn push(&mut self, i: u32, end: TerminalPlace) -> Result<(), Memory>
        requires { i < length self.old }
        ensures len { length self.new ≡ length self.old }
        ensures added { OnOk result (self.new ≡ slice_set self.old i (slice_index_or self.old i [] ++ end ∷ [])) }
    {
        self.lists[i as usize].push(end)?;
        Ok(())
    }

    // The ends of an element.
    pub(crate) fn of(&self, i: u32) -> &[TerminalPlace]
        requires { i < length self.now }
        ensures { result.now ≡ slice_index_or self.now i [] }
    {
        &self.lists[i as usize]
    }
}
