//! The least and the greatest reading of the positions.
ghost use Rattle.std.specs.Prelude.{◌≡◌, Bool, length, map, IfOk};
ghost use Rattle.double_points.specs.Words.{AreWords};
ghost use Rattle.station_state.specs.State.{closed_where, extreme};

use double_points::Readings;
use ilk_base::{Dbpos, Memory, SwitchId};
use station_graph::{Station, Vector};
use std::alloc::Global;

// Whether a switch with this word is closed, where one that may be both is so.
fn closed_where(uncertain: bool, word: Dbpos) -> bool
    ensures { result ≡ closed_where uncertain word }
{
    match word {
        Dbpos::On => true,
        Dbpos::Off => false,
        Dbpos::Intermediate | Dbpos::Bad | Dbpos::Lost => uncertain,
    }
}

// The reading in which each switch that may be both is closed, or is open: the greatest and the least.
pub(crate) fn extreme(
    alloc: Global,
    station: &Station,
    readings: &Readings,
    uncertain: bool,
) -> Result<Vector, Memory>
    requires { AreWords station.now readings.now }
    ensures { IfOk result (λ v. v ≡ extreme uncertain readings.now) }
{
    let mut vector = Vector::all_open(alloc, station)?;
    for i in 0..station.switch_count() {
        let id = SwitchId(i);
        vector.set(id, closed_where(uncertain, readings.word(id)));
    }
    Ok(vector)
}
