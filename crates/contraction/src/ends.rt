//! What the contraction of all other items says of moving a switch.
ghost use Rattle.std.specs.Prelude.{◌≡◌, ◌<◌, ◌↔◌, Bool, Some, List, length, slice_get, IsTrue};
ghost use Rattle.station_graph.specs.declared.items.Switch.{Switch};
ghost use Rattle.station_graph.specs.Alike.{IsVector};
ghost use Rattle.station_graph.specs.Connection.{a_switch};
ghost use Rattle.station_graph.specs.CentralRules.{Breaks, GapBreaks, LoadBreaks, Moves};
ghost use Rattle.contraction.specs.Answers.{Keeps};
ghost use Rattle.contraction.specs.Stands.{AllBut, GapStandsFor, LoadStandsFor, StandsFor};
ghost use Rattle.contraction.specs.Ends.{EndsKept, Meets, CarriesLoad, EndsEarthing, EndsFeeding, EndsClosing};
ghost use Rattle.contraction.specs.Ends.{EndsLoad, EndsGap};

use crate::value::Contraction;
use ilk_base::{Direction, Kind, NodeId, Op, Rule, SwitchId};
use station_graph::{Station, Switch};

impl Contraction {
    /// Whether the nodes of a switch are kept. Time: the kept nodes.
    pub fn keeps_ends(&self, station: &Station, id: SwitchId) -> bool
        requires { id.0 < length station.now.switches }
        ensures { IsTrue result ↔ ((x : Switch) → slice_get station.now.switches id.0 ≡ Some x
            → EndsKept self.now.kept x) }
    {
        let switch = station.switch(id);
        if !self.keeps(switch.first) {
            return false;
        }
        match switch.second {
            Some(second) => self.keeps(second),
            None => true,
        }
    }

    // Whether of two nodes one is energisable, and one is earthable.
    fn meets(&self, a: NodeId, b: NodeId) -> bool
        requires first { Keeps self.now.kept a.0 }
        requires second { Keeps self.now.kept b.0 }
        ensures { IsTrue result ↔ Meets self.now a.0 b.0 }
    {
        if !self.energisable(a) && !self.energisable(b) {
            return false;
        }
        self.earthable(a) || self.earthable(b)
    }

    // Whether a gap between two nodes makes or breaks load.
    fn carries_load(&self, a: NodeId, b: NodeId) -> bool
        requires first { Keeps self.now.kept a.0 }
        requires second { Keeps self.now.kept b.0 }
        ensures { IsTrue result ↔ CarriesLoad self.now a.0 b.0 }
    {
        if !self.is_fed(a) && !self.is_fed(b) {
            return false;
        }
        if !self.is_loaded(a) || !self.is_loaded(b) {
            return false;
        }
        !self.bonded(a, b)
    }

    // Whether an earthing switch is closed at a node that is energisable.
    fn ends_earthing(&self, moved: Switch, direction: Direction) -> bool
        requires { EndsKept self.now.kept moved }
        ensures { IsTrue result ↔ EndsEarthing self.now moved direction }
    {
        if direction != Direction::ToOn || moved.kind != Kind::Earthing {
            return false;
        }
        self.energisable(moved.first)
    }

    // Whether an infeed is set on at a node that is earthable.
    fn ends_feeding(&self, moved: Switch, direction: Direction) -> bool
        requires { EndsKept self.now.kept moved }
        ensures { IsTrue result ↔ EndsFeeding self.now moved direction }
    {
        if direction != Direction::ToOn || moved.kind != Kind::Infeed {
            return false;
        }
        self.earthable(moved.first)
    }

    // Whether a switch is closed between what is energisable and what is earthable.
    fn ends_closing(&self, moved: Switch, direction: Direction) -> bool
        requires { EndsKept self.now.kept moved }
        ensures { IsTrue result ↔ EndsClosing self.now moved direction }
    {
        if direction != Direction::ToOn {
            return false;
        }
        match moved.second {
            Some(second) => self.meets(moved.first, second),
            None => false,
        }
    }

    // Whether a disconnector makes or breaks load.
    fn ends_load(&self, moved: Switch) -> bool
        requires { EndsKept self.now.kept moved }
        ensures { IsTrue result ↔ EndsLoad self.now moved }
    {
        if moved.kind != Kind::Disconnector {
            return false;
        }
        match moved.second {
            Some(second) => self.carries_load(moved.first, second),
            None => false,
        }
    }

    // The first of the first two rules that moving the switch breaks, by what its ends say.
    fn ends_gap(&self, moved: Switch, direction: Direction) -> Option<Rule>
        requires { EndsKept self.now.kept moved }
        ensures { EndsGap self.now moved direction result }
    {
        if self.ends_earthing(moved, direction) {
            return Some(Rule::R1);
        }
        if self.ends_closing(moved, direction) || self.ends_feeding(moved, direction) {
            return Some(Rule::R2);
        }
        None
    }

    /// The gap half of `ends_break`: what the first two rules give, where the gap view is that of all
    /// items but the moved switch, whose nodes are kept. It follows from the gap view alone.
    pub fn ends_break_gap(&self, station: &Station, op: Op) -> Option<Rule>
        requires op { op.switch.0 < length station.now.switches }
        requires ends { (x : Switch) → Moves station.now op x → EndsKept self.now.kept x }
        ensures { (v : List Bool) → IsVector station.now v
            → GapStandsFor (AllBut (a_switch op.switch.0)) station.now v self.now
            → GapBreaks station.now v op result }
    {
        let _ = &self.kept;
        self.ends_gap(station.switch(op.switch), op.direction)
    }

    /// The load half of `ends_break`: whether the third rule applies, where the load view is that of
    /// all items but the moved switch, whose nodes are kept. It follows from the load view alone.
    pub fn ends_break_load(&self, station: &Station, op: Op) -> bool
        requires op { op.switch.0 < length station.now.switches }
        requires ends { (x : Switch) → Moves station.now op x → EndsKept self.now.kept x }
        ensures { (v : List Bool) → IsVector station.now v
            → LoadStandsFor (AllBut (a_switch op.switch.0)) station.now v self.now
            → IsTrue result ↔ LoadBreaks station.now v op }
    {
        let _ = &self.kept;
        self.ends_load(station.switch(op.switch))
    }

    /// The rule that the operation breaks, or none, where this is the contraction of all items but the
    /// moved switch, whose nodes are kept. Time: the kept nodes.
    pub fn ends_break(&self, station: &Station, op: Op) -> Option<Rule>
        requires op { op.switch.0 < length station.now.switches }
        requires ends { (x : Switch) → Moves station.now op x → EndsKept self.now.kept x }
        ensures { (v : List Bool) → IsVector station.now v
            → StandsFor (AllBut (a_switch op.switch.0)) station.now v self.now
            → Breaks station.now v op result }
    {
        if let Some(rule) = self.ends_break_gap(station, op) {
            return Some(rule);
        }
        if self.ends_break_load(station, op) {
            return Some(Rule::R3);
        }
        None
    }
}
