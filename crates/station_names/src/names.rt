//! The paths of all switches, each once.
ghost use Rattle.std.specs.Prelude.{◌≡◌, ◌<◌, length, slice_get, Some, IfOk};

use ilk_base::{Memory, SwitchId, Text};
use station_graph::Station;
use std::alloc::Global;

// The path of a switch as a text.
fn path_text(alloc: Global, station: &Station, id: SwitchId) -> Result<Text, Memory>
    requires { id.0 < length station.now.switches }
    ensures { IfOk result (λ t. slice_get station.now.switch_paths id.0 ≡ Some t) }
{
    let mut text = Text::new(alloc);
    text.push(station.switch_path(id).as_bytes())?;
    Ok(text)
}

/// The paths of all switches in document order, as the names of a text (`NamedText` of `piece_writer`): the name of a
/// number is the path of the switch of that number. Time and memory: the paths, at most 64 MiB.
#[tactic(auto, using(crate::proofs::Taking::take_next))]
pub fn switch_names(alloc: Global, station: &Station) -> Result<Vec<Text>, Memory>
    ensures { IfOk result (λ v. v.items ≡ station.now.switch_paths) }
{
    let mut names = Vec::new(alloc);
    for i in 0..station.switch_count() {
        let path = path_text(alloc, station, SwitchId(i))?;
        names.push(path)?;
    }
    Ok(names)
}
