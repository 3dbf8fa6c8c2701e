//! Words that leave no position open.
ghost use Rattle.std.specs.Prelude.{◌≡◌, true, length, IfOk, IfSome, IfNone};
ghost use Rattle.central_rules.specs.Names.{is_uncertain};
ghost use Rattle.switching_orders.specs.Certain.{word_at, SayPositions, IsUnsure};

use double_points::Readings;
use ilk_base::{Dbpos, Memory, SwitchId};
use station_graph::{Station, Vector};
use std::alloc::Global;

// The position that a word says; none where it is neither off nor on.
fn position_said(word: Dbpos) -> Option<bool>
    ensures some { IfSome result (λ closed. word ≡ word_at closed) }
    ensures none { IfNone result (is_uncertain word ≡ true) }
{
    match word {
        Dbpos::Off => Some(false),
        Dbpos::On => Some(true),
        Dbpos::Intermediate | Dbpos::Bad | Dbpos::Lost => None,
    }
}

/// The positions that the words say; none where a word is neither off nor on. Time and memory: the
/// switches.
pub fn certain_positions(
    alloc: Global,
    station: &Station,
    readings: &Readings,
) -> Result<Option<Vector>, Memory>
    requires { length readings.now ≡ length station.now.switches }
    ensures some { IfOk result (λ o. IfSome o (λ v. SayPositions v readings.now)) }
    ensures count { IfOk result (λ o. IfSome o (λ v. length v ≡ length station.now.switches)) }
    ensures none { IfOk result (λ o. IfNone o (IsUnsure readings.now)) }
{
    let mut vector = Vector::all_open(alloc, station)?;
    for i in 0..station.switch_count() {
        let Some(closed) = position_said(readings.word(SwitchId(i))) else {
            return Ok(None);
        };
        vector.set(SwitchId(i), closed);
    }
    Ok(Some(vector))
}
