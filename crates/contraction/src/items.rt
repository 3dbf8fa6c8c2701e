//! The contractions of no item, and of one.
ghost use Rattle.std.specs.Prelude.{◌≡◌, ◌≢◌, ℕ, ◌<◌, ◌↔◌, min, max, Bool, true, Some, List, [], ◌∷◌, length};
ghost use Rattle.std.specs.Prelude.{slice_get, IfOk, IsTrue};
ghost use Rattle.station_graph.specs.declared.limits.TheConstants.{NODES};
ghost use Rattle.station_graph.specs.Diagram.{Diagram};
ghost use Rattle.station_graph.specs.Connection.{a_switch, a_link, a_tap, unless_breaker};
ghost use Rattle.station_graph.specs.Sharing.{Touches};
ghost use Rattle.contraction.specs.Answers.{Keeps, AreNodes, IsContraction};
ghost use Rattle.contraction.specs.Stands.{Among, StandsFor};
ghost use Rattle.contraction.specs.Single.{IsPair, IsSingle};

use crate::empty_views::EmptyViews;
use crate::kept_nodes::KeptNodes;
use crate::shared_row::{SharedRow, bonds_of_one, bonds_of_two};
use crate::value::Contraction;
use ilk_base::{Kind, Memory, SwitchId};
use station_graph::{NodeList, Station};
use std::alloc::Global;

// Whether a switch with two ends couples them.
fn couples(kind: Kind, closed: bool) -> bool
    ensures { result ≡ unless_breaker kind closed }
{
    match kind {
        Kind::Breaker => true,
        _ => closed,
    }
}

// Whether the switch is closed and of this kind.
fn acts_as(kind: Kind, wanted: Kind, closed: bool) -> bool
    ensures { IsTrue result ↔ ((kind ≡ wanted) × (closed ≡ true)) }
{
    closed && kind == wanted
}

// Two nodes as a rising list.
fn rising(alloc: Global, a: u16, b: u16) -> Result<KeptNodes, Memory>
    ensures { IfOk result (λ list. list ≡ min a b ∷ max a b ∷ []) }
{
    KeptNodes::of(alloc, &[a.min(b), a.max(b)])
}

impl Contraction {
    // Two nodes with what joins them.
    fn pair(
        alloc: Global,
        a: u16,
        b: u16,
        coupled: bool,
        joined: bool,
        bonded: bool,
    ) -> Result<Contraction, Memory>
        requires apart { a ≢ b }
        requires first { a < NODES }
        requires second { b < NODES }
        ensures pair { IfOk result (IsPair a b coupled joined bonded) }
        ensures contraction { IfOk result IsContraction }
    {
        Ok(Contraction {
            kept: rising(alloc, a, b)?,
            gap: SharedRow::of_two(alloc, coupled)?,
            load: SharedRow::of_two(alloc, joined)?,
            bonded: bonds_of_two(alloc, bonded)?,
        })
    }

    // One node with what supplies and earths it.
    fn single(
        alloc: Global,
        node: u16,
        energisable: bool,
        earthable: bool,
        fed: bool,
        loaded: bool,
    ) -> Result<Contraction, Memory>
        requires node { node < NODES }
        requires loaded { fed ≡ true → loaded ≡ true }
        ensures single { IfOk result (IsSingle node energisable earthable fed loaded) }
        ensures contraction { IfOk result IsContraction }
    {
        Ok(Contraction {
            kept: KeptNodes::of(alloc, &[node])?,
            gap: SharedRow::of_one(alloc, energisable, earthable)?,
            load: SharedRow::of_one(alloc, fed, loaded)?,
            bonded: bonds_of_one(alloc)?,
        })
    }

    /// The contraction of no item, on these nodes of a station, which rise. Time and memory: the nodes.
    pub fn empty(alloc: Global, kept: &NodeList) -> Result<Contraction, Memory>
        requires { AreNodes kept.now }
        ensures contraction { IfOk result IsContraction }
        ensures kept { IfOk result (λ c. c.kept ≡ kept.now) }
        ensures stands { IfOk result
            (λ c. (d : Diagram) (v : List Bool) → StandsFor (Among []) d v c) }
    {
        let list = KeptNodes::of(alloc, kept.numbers())?;
        let views = EmptyViews::of(alloc, list)?;
        Ok(Contraction {
            kept: views.kept,
            gap: views.row.share()?,
            load: views.row,
            bonded: views.bonded,
        })
    }

    /// The contraction of one switch in a position, on its nodes. A breaker couples its ends in each
    /// position. The tap that stands at the node of an infeed is no part of it; `of_tap` gives that.
    /// Takes a fixed time and memory.
    pub fn of_switch(
        alloc: Global,
        station: &Station,
        id: SwitchId,
        closed: bool,
    ) -> Result<Contraction, Memory>
        requires { id.0 < length station.now.switches }
        ensures contraction { IfOk result IsContraction }
        ensures kept { IfOk result
            (λ c. (n : ℕ) → Keeps c.kept n ↔ Touches station.now (a_switch id.0) n) }
        ensures stands { IfOk result (λ c. (v : List Bool) → slice_get v id.0 ≡ Some closed
            → StandsFor (Among (a_switch id.0 ∷ [])) station.now v c) }
    {
        let switch = station.switch(id);
        let a = switch.first.0;
        match switch.second {
            Some(second) => {
                let coupled = couples(switch.kind, closed);
                Contraction::pair(alloc, a, second.0, coupled, closed, closed)
            }
            None => {
                let feeds = acts_as(switch.kind, Kind::Infeed, closed);
                let earths = acts_as(switch.kind, Kind::Earthing, closed);
                Contraction::single(alloc, a, feeds, earths, feeds, feeds)
            }
        }
    }

    /// The contraction of one link, on its nodes. Takes a fixed time and memory.
    pub fn of_link(alloc: Global, station: &Station, i: u16) -> Result<Contraction, Memory>
        requires { i < length station.now.links }
        ensures contraction { IfOk result IsContraction }
        ensures kept { IfOk result
            (λ c. (n : ℕ) → Keeps c.kept n ↔ Touches station.now (a_link i) n) }
        ensures stands { IfOk result
            (λ c. (v : List Bool) → StandsFor (Among (a_link i ∷ [])) station.now v c) }
    {
        let link = station.link(i);
        Contraction::pair(alloc, link.first.0, link.second.0, true, true, link.bond)
    }

    /// The contraction of one tap, on its node. Takes a fixed time and memory.
    pub fn of_tap(alloc: Global, station: &Station, i: u16) -> Result<Contraction, Memory>
        requires { i < length station.now.taps }
        ensures contraction { IfOk result IsContraction }
        ensures kept { IfOk result
            (λ c. (n : ℕ) → Keeps c.kept n ↔ Touches station.now (a_tap i) n) }
        ensures stands { IfOk result
            (λ c. (v : List Bool) → StandsFor (Among (a_tap i ∷ [])) station.now v c) }
    {
        Contraction::single(alloc, station.tap(i).node.0, false, false, false, true)
    }
}
