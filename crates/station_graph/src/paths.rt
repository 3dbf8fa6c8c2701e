//! The paths of one kind: of the nodes, of the parts or of the switches of a station.
ghost use Rattle.std.specs.Prelude.{◌≡◌, ◌<◌, ◌++◌, [], ◌∷◌, length, slice_get, Some, OnOk, OnErr, IfSome};
ghost use Rattle.std.specs.Prelude.{IfNone, IsTrue, ◌↔◌, Contains, string_bytes};

use ilk_base::Memory;
use std::alloc::Global;
use std::collections::BTreeMap;
use std::marker::Model;
use std::rc::RcStr;

// Paths in the order in which they were added, seen as their list. A path is found in time of its own
// length and of the logarithm of the others, whoever chose them.
#[derive(Drop)]
pub(crate) struct Paths {
    paths: Vec<RcStr>,
    places: BTreeMap<RcStr, usize>,
}

impl Model for Paths {
    ghost use Rattle.std.specs.Prelude.{List, ℕ, map};
    ghost use Rattle.std.specs.Rc.{rc_str_bytes};
    ghost use Rattle.station_graph.specs.Placing.{ArePlaces};

    ghost Value = { List (List ℕ) };

    ghost view = { λ p. map rc_str_bytes p.paths.items };

    ghost invariant = { λ p. ArePlaces p.places (map rc_str_bytes p.paths.items) };
}

impl Paths {
    pub(crate) fn new(alloc: Global) -> Paths
        ensures { result ≡ [] }
    {
        Paths {
            paths: Vec::new(alloc),
            places: BTreeMap::new(alloc),
        }
    }

    pub(crate) fn allocator(&self) -> Global {
        *self.paths.allocator()
    }

    pub(crate) fn len(&self) -> usize
        ensures { result ≡ length self.now }
    {
        self.paths.len()
    }

    // Adds a path that is not there.
    pub(crate) fn push(&mut self, path: String) -> Result<(), Memory>
        requires new { ¬ Contains self.old (string_bytes path) }
        ensures ok { OnOk result (self.new ≡ self.old ++ string_bytes path ∷ []) }
        ensures err { OnErr result (self.new ≡ self.old) }
    {
        let path = RcStr::from_string(path)?;
        let place = self.paths.len();
        self.paths.reserve(1)?;
        self.places.insert(path.clone()?, place)?;
        self.paths.push_reserved(path);
        Ok(())
    }

    pub(crate) fn get(&self, i: usize) -> &str
        requires { i < length self.now }
        ensures { slice_get self.now i ≡ Some result.now }
    {
        self.paths[i].as_str()
    }

    // The place of the path.
    pub(crate) fn find(&self, path: &str) -> Option<usize>
        ensures found { IfSome result (λ i. slice_get self.now i ≡ Some path.now) }
        ensures none { IfNone result (¬ Contains self.now path.now) }
    {
        self.places.get(path).copied()
    }

    pub(crate) fn is_new(&self, path: &str) -> bool
        ensures { IsTrue result ↔ (¬ Contains self.now path.now) }
    {
        match self.find(path) {
            Some(_) => false,
            None => true,
        }
    }
}
