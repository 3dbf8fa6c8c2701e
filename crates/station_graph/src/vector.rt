//! The positions of all switches.
ghost use Rattle.std.specs.Prelude.{◌≡◌, ℕ, ◌<◌, List, [], ◌∷◌, ◌++◌, length, slice_get, slice_set, replicate, IfOk};
ghost use Rattle.std.specs.Prelude.{Bool, false, Some};
ghost use Rattle.std.specs.Bool.{beq};
ghost use Rattle.std.specs.Cmp.{partial_equiv_from_equiv, bool_eq_equiv};
ghost use Rattle.std.specs.Cmp.Lexicographic.{pointwise, lists_equiv};
ghost use Rattle.station_graph.specs.Connection.{with_breakers_closed};
ghost use Rattle.station_graph.specs.Alike.{IsVector};

use crate::station::Station;
use ilk_base::{Kind, Memory, SwitchId};
use std::alloc::Global;
use std::marker::Model;

/// Which switches are closed, seen as a list with one entry for each switch of the station from
/// which it was made.
#[derive(Clone, Drop)]
pub struct Vector {
    closed: Vec<bool>,
}

impl Model for Vector {
    ghost use Rattle.std.specs.Prelude.{List, Bool};

    ghost Value = { List Bool };

    ghost view = { λ v. v.closed.items };
}

impl Vector {
    /// The vector in which each switch of the station is open. Time and memory: the switches.
    pub fn all_open(alloc: Global, station: &Station) -> Result<Vector, Memory>
        ensures { IfOk result (λ v. v ≡ replicate (length station.now.switches) false) }
    {
        Ok(Vector {
            closed: vec![in alloc; false; station.switch_count() as usize]?,
        })
    }

    /// The same vector once more. Time and memory: the switches.
    pub fn copy(&self, alloc: Global) -> Result<Vector, Memory>
        ensures { IfOk result (λ v. v ≡ self.now) }
    {
        Ok(Vector {
            closed: Vec::from_slice(alloc, &self.closed)?,
        })
    }

    /// The vector with this switch in this position. Time and memory: the switches.
    pub fn with(&self, alloc: Global, id: SwitchId, closed: bool) -> Result<Vector, Memory>
        requires { id.0 < length self.now }
        ensures { IfOk result (λ v. v ≡ slice_set self.now id.0 closed) }
    {
        let mut moved = self.copy(alloc)?;
        moved.set(id, closed);
        Ok(moved)
    }

    /// The vector with every breaker closed. Time and memory: the switches.
    pub fn with_breakers_closed(&self, alloc: Global, station: &Station) -> Result<Vector, Memory>
        requires { IsVector station.now self.now }
        ensures { IfOk result (λ v. v ≡ with_breakers_closed station.now self.now) }
    {
        let mut coupling = self.copy(alloc)?;
        for i in 0..station.switch_count() {
            if station.switch(SwitchId(i)).kind == Kind::Breaker {
                coupling.set(SwitchId(i), true);
            }
        }
        Ok(coupling)
    }

    /// Whether the switch is closed, at once.
    pub fn closed(&self, id: SwitchId) -> bool
        requires { id.0 < length self.now }
        ensures { slice_get self.now id.0 ≡ Some result }
    {
        self.closed[id.0 as usize]
    }

    /// Puts the switch into this position, at once and without memory.
    pub fn set(&mut self, id: SwitchId, closed: bool)
        requires { id.0 < length self.old }
        ensures { self.new ≡ slice_set self.old id.0 closed }
    {
        self.closed[id.0 as usize] = closed;
    }
}

impl PartialEq for Vector {
    ghost eq = { pointwise beq };

    ghost laws = { partial_equiv_from_equiv (lists_equiv bool_eq_equiv) };

    fn eq(&self, other: &Vector) -> bool {
        self.closed == other.closed
    }
}

impl Eq for Vector {
    ghost laws = { lists_equiv bool_eq_equiv };
}
