//! Names that are taken. The tables are in order, so that no choice of names makes a search long.

ghost use Rattle.std.specs.Prelude.{◌≡◌, ℕ, ◌<◌, List, [], ◌∷◌, ◌++◌, length, IfOk, IfSome, Bool, not};
ghost use Rattle.std.specs.Prelude.{position, IsTrue, string_bytes};
ghost use Rattle.std.specs.List.{list_any};
ghost use Rattle.std.specs.Str.{bytes_eq};
ghost use Rattle.ssd_read.specs.Names.{same_pair};
ghost use Rattle.ssd_read.specs.SeenPaths.{AreNumbered, AddsPair};

use crate::role::Role;
use ilk_base::Memory;
use std::alloc::Global;
use std::collections::{BTreeMap, BTreeSet};
use std::marker::Model;

// Texts that differ, numbered in the order in which they were added.
#[derive(Drop)]
pub(crate) struct Names {
    numbers: BTreeMap<String, usize>,
}

impl Names {
    pub(crate) fn new(alloc: Global) -> Names
        ensures { AreNumbered result [] }
    {
        Names {
            numbers: BTreeMap::new(alloc),
        }
    }

    // Adds a text, and says whether it was not there. Where it was, the table is of no more use.
    pub(crate) fn add(&mut self, text: String) -> Result<bool, Memory>
        ensures new { IfOk result (λ b. (texts : List (List ℕ)) → AreNumbered self.old texts →
            b ≡ not (list_any (bytes_eq (string_bytes text)) texts)) }
        ensures added { IfOk result (λ b. IsTrue b → (texts : List (List ℕ)) → AreNumbered self.old texts →
            AreNumbered self.new (texts ++ string_bytes text ∷ [])) }
    {
        let number = self.numbers.len();
        let before = self.numbers.insert(text, number)?;
        Ok(before.is_none())
    }

    // The number of a text.
    pub(crate) fn find(&self, text: &str) -> Option<usize>
        ensures place { (texts : List (List ℕ)) → AreNumbered self.now texts →
            result ≡ position (bytes_eq text.now) texts }
        ensures within { (texts : List (List ℕ)) → AreNumbered self.now texts → IfSome result (λ i. i < length texts) }
    {
        self.numbers.get(text).copied()
    }
}

// A path of a kind of elements.
#[derive(Drop, PartialEq, Eq, PartialOrd, Ord)]
struct Key<'a> {
    kind: Role,
    path: &'a str,
}

// Paths of kinds that differ, seen as a list of them in some order.
#[derive(Drop)]
pub(crate) struct Paths<'a> {
    keys: BTreeSet<Key<'a>>,
}

impl<'a> Model for Paths<'a> {
    ghost use Rattle.std.specs.Prelude.{List, ℕ, map};
    ghost use Rattle.ssd_read.specs.declared.role.Role.{Role};

    ghost Value = { List (Role × List ℕ) };

    ghost use Rattle.ssd_read.specs.SeenKeys.{key_pair};

    ghost view = { λ p. map key_pair p.keys.keys };
}

impl<'a> Paths<'a> {
    pub(crate) fn new(alloc: Global) -> Paths<'a>
        ensures { result ≡ [] }
    {
        Paths {
            keys: BTreeSet::new(alloc),
        }
    }

    // Adds a path that is not there, and says whether it did.
    pub(crate) fn add(&mut self, kind: Role, path: &'a str) -> Result<bool, Memory>
        ensures new { IfOk result (λ b. b ≡ not (list_any (same_pair (kind, path.now)) self.old)) }
        ensures added { IfOk result (λ _. AddsPair (kind, path.now) self.old self.new) }
    {
        let new = self.keys.insert(Key { kind, path })?;
        Ok(new)
    }
}
