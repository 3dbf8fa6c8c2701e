//! The lines of releases.
ghost use Rattle.std.specs.Prelude.{◌≡◌, ◌<◌, ◌≤◌, length, IfOk, OnOk};
ghost use Rattle.structured_text.specs.Within.{LinesWithin};
ghost use Rattle.program_text.specs.Releases.{known_in, pair_in, gap_denial_in, load_denial_in, release_in, MeansReleases};

use ilk_base::{Kind, Memory, SwitchId};
use short_equations::TermPair;
use station_graph::Station;
use std::alloc::Global;
use structured_text::{Formula, GapDenial, Line, LoadDenial, Name};

// What denies that a switch of this kind is closed.
fn gap_denial(kind: Kind, pair: TermPair) -> Option<GapDenial>
    ensures { result ≡ gap_denial_in kind pair }
{
    match kind {
        Kind::Breaker | Kind::Disconnector => match (pair.first, pair.second) {
            (Some(on), Some(earth)) => Some(GapDenial::Two(Name::May(on), Name::May(earth))),
            _ => None,
        },
        Kind::Earthing => match pair.first {
            Some(on) => Some(GapDenial::One(Name::May(on))),
            None => None,
        },
        Kind::Infeed => match pair.second {
            Some(earth) => Some(GapDenial::One(Name::May(earth))),
            None => None,
        },
    }
}

// What denies that a switch of this kind is moved.
fn load_denial(kind: Kind, load: TermPair, bond: TermPair) -> Option<LoadDenial>
    ensures { result ≡ load_denial_in kind load bond }
{
    if kind != Kind::Disconnector {
        return None;
    }
    match (load.first, load.second) {
        (Some(live), Some(both)) => match bond.first {
            Some(bonded) => Some(LoadDenial::Unbonded(
                Name::May(live),
                Name::May(both),
                Name::Sure(bonded),
            )),
            None => Some(LoadDenial::Loaded(Name::May(live), Name::May(both))),
        },
        _ => None,
    }
}

// Neither denial holds.
fn release(gap: Option<GapDenial>, load: Option<LoadDenial>) -> Formula
    ensures { result ≡ release_in gap load }
{
    match (gap, load) {
        (Some(gap), Some(load)) => Formula::Released(gap, load),
        (Some(gap), None) => Formula::Apart(gap),
        (None, Some(load)) => Formula::Unloaded(load),
        (None, None) => Formula::Always,
    }
}

// The formula, if it is one of so many, as it always is.
fn known(term: Option<usize>, count: usize) -> Option<usize>
    ensures { result ≡ known_in count term }
{
    match term {
        Some(number) if number < count => Some(number),
        _ => None,
    }
}

// The two formulas of a switch.
fn known_pair(pair: TermPair, count: usize) -> TermPair
    ensures { result ≡ pair_in count pair }
{
    TermPair {
        first: known(pair.first, count),
        second: known(pair.second, count),
    }
}

/// Two lines for each switch, in order: that opening it is released, and that closing it is.
pub(crate) fn release_lines(
    alloc: Global,
    station: &Station,
    gap: &[TermPair],
    load: &[TermPair],
    bond: &[TermPair],
    may: usize,
    sure: usize,
) -> Result<Vec<Line>, Memory>
    requires gap { length gap.now ≡ length station.now.switches }
    requires load { length load.now ≡ length station.now.switches }
    requires bond { length bond.now ≡ length station.now.switches }
    ensures means { IfOk result (λ r. MeansReleases station.now may sure gap.now load.now bond.now
        (length station.now.switches) r.items) }
    ensures within { IfOk result (λ r. LinesWithin station.now r.items) }
{
    let mut lines = Vec::new(alloc);
    for i in 0..station.switch_count() {
        let id = SwitchId(i);
        let kind = station.switch(id).kind;
        let coupled = known_pair(gap[i as usize], may);
        let loaded = known_pair(load[i as usize], may);
        let bonded = known_pair(bond[i as usize], sure);
        let moved = load_denial(kind, loaded, bonded);
        let closed = gap_denial(kind, coupled);
        let opens = release(None, moved);
        let closes = release(closed, moved);
        lines.push(Line {
            heading: None,
            name: Name::Opens(id),
            formula: opens,
        })?;
        lines.push(Line {
            heading: None,
            name: Name::Closes(id),
            formula: closes,
        })?;
    }
    Ok(lines)
}
