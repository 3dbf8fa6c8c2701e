//! The tables of names.
ghost use Rattle.std.specs.Prelude.{◌≡◌, ◌<◌, ◌++◌, slice_get, Some, IfOk, OnOk};
ghost use Rattle.station_graph.specs.Diagram.{part_count};
ghost use Rattle.path_names.specs.Tables.{paths_of, paths_of_both};

use ilk_base::{BayId, Memory, Text};
use station_graph::Station;
use station_names::switch_names;
use std::alloc::Global;

// The path of a part as a text.
fn path_text(alloc: Global, station: &Station, part: BayId) -> Result<Text, Memory>
    requires { part.0 < part_count station.now }
    ensures { IfOk result (λ t. slice_get station.now.part_paths part.0 ≡ Some t) }
{
    let mut text = Text::new(alloc);
    text.push(station.part_path(part).as_bytes())?;
    Ok(text)
}

// Appends the paths of the parts.
#[tactic(auto, using(crate::proofs::Taking::one_more))]
fn append_parts(alloc: Global, names: &mut Vec<Text>, station: &Station) -> Result<(), Memory>
    ensures { OnOk result (names.new.items ≡ names.old.items ++ station.now.part_paths) }
{
    for p in 0..station.part_count() {
        let path = path_text(alloc, station, BayId(p as u8))?;
        names.push(path)?;
    }
    Ok(())
}

/// The paths of the switches of a station in document order, and behind them those of its parts, as the names of a text
/// (`NamedText` of `piece_writer`). Time and memory: the paths, at most 64 MiB.
pub fn station_paths(alloc: Global, station: &Station) -> Result<Vec<Text>, Memory>
    ensures { IfOk result (λ v. v.items ≡ paths_of station.now) }
{
    let mut names = switch_names(alloc, station)?;
    append_parts(alloc, &mut names, station)?;
    Ok(names)
}

/// Those of the new station, and behind them those of the old one. Time and memory: the paths of both.
pub fn both_paths(alloc: Global, old: &Station, new: &Station) -> Result<Vec<Text>, Memory>
    ensures { IfOk result (λ v. v.items ≡ paths_of_both old.now new.now) }
{
    let mut names = station_paths(alloc, new)?;
    let mut behind = station_paths(alloc, old)?;
    names.append(&mut behind)?;
    Ok(names)
}
