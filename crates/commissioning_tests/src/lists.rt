//! What is always released, and what a bay needs.
ghost use Rattle.std.specs.Prelude.{◌≡◌, ◌↔◌, ◌++◌, ◌∷◌, [], if◌then◌else◌, ℕ, ◌⊎◌, ◌+◌, ◌^◌, ◌<◌, ◌≤◌, IsTrue, IsFalse, Some, length, map, slice_get, IfOk, OnOk};
ghost use Rattle.std.specs.List.{range_with_len};
ghost use Rattle.ilk_base.specs.declared.words.Rule.{Rule as Broken};
ghost use Rattle.commissioning_tests.specs.Answering.{ArePositions};
ghost use Rattle.commissioning_tests.specs.Covering.{TurnIsShown, RuleIsShown, IsAlways, IsNeeded};
ghost use Rattle.commissioning_tests.specs.Growing.{AreCovered};
ghost use Rattle.commissioning_tests.specs.Listed.{AreThose, operations_from};
ghost use Rattle.commissioning_tests.specs.Standing.{AreStands};

use crate::shown::{is_rule_shown, is_turn_shown};
use crate::values::TestPosition;
use ilk_base::{Memory, Op, Rule, SwitchId};
use station_graph::Station;
use std::alloc::Global;

// Whether operation k breaks some rule in one of the positions.
fn is_denied(positions: &[TestPosition], k: usize) -> bool
    ensures { IsTrue result ↔ (rule : Broken) × RuleIsShown positions.now k rule }
{
    is_rule_shown(positions, k, Rule::R1)
        || is_rule_shown(positions, k, Rule::R2)
        || is_rule_shown(positions, k, Rule::R3)
}

// Appends the operation, unless it is left out.
fn push_unless(list: &mut Vec<Op>, left_out: bool, op: Op) -> Result<(), Memory>
    ensures { OnOk result (list.new.items ≡ (if left_out then list.old.items else list.old.items ++ op ∷ [])) }
{
    if !left_out {
        list.push(op)?;
    }
    Ok(())
}

// The operations that are released in every position of all switches.
pub(crate) fn always_of(
    alloc: Global,
    station: &Station,
    operations: &[Op],
    stands: &[u16],
    positions: &[TestPosition],
) -> Result<Vec<Op>, Memory>
    requires positions { ArePositions station.now operations.now positions.now }
    requires covered { AreCovered station.now operations.now stands.now positions.now (length operations.now) }
    ensures { IfOk result (λ v. AreThose (IsAlways station.now) operations.now v.items) }
{
    let _ = station;
    let _ = stands;
    let mut always = Vec::new(alloc);
    for k in 0..operations.len() {
        push_unless(&mut always, is_denied(positions, k), operations[k])?;
    }
    Ok(always)
}

// Whether moving the switch turns one of so many operations in one of the positions.
fn turns_some(positions: &[TestPosition], count: usize, switch: SwitchId) -> bool
    ensures shown { IsTrue result → (k : ℕ) × TurnIsShown positions.now k switch.0 }
    ensures none { IsFalse result → (k : ℕ) → k < count → ¬ TurnIsShown positions.now k switch.0 }
{
    for k in 0..count {
        if is_turn_shown(positions, k, switch) {
            return true;
        }
    }
    false
}

// Whether the switch is none of so many from the first on, and moving the one that stands for it turns one of the
// operations.
fn is_needed(
    positions: &[TestPosition],
    operations: usize,
    first: SwitchId,
    count: u16,
    switch: SwitchId,
    stand: SwitchId,
) -> bool
    requires { first.0 + count < 2 ^ 16 }
    ensures shown { IsTrue result → ((switch.0 < first.0) ⊎ (first.0 + count ≤ switch.0))
        × ((k : ℕ) × TurnIsShown positions.now k stand.0) }
    ensures none { IsFalse result → ((switch.0 < first.0) ⊎ (first.0 + count ≤ switch.0)) → (k : ℕ) → k < operations
        → ¬ TurnIsShown positions.now k stand.0 }
{
    (switch.0 < first.0 || first.0 + count <= switch.0) && turns_some(positions, operations, stand)
}

// What stands for a switch.
fn stand_of(stands: &[u16], s: u16) -> SwitchId
    requires { s < length stands.now }
    ensures { slice_get stands.now s ≡ Some result.0 }
{
    SwitchId(stands[usize::from(s)])
}

// Appends the switch, if it is needed.
fn push_switch(list: &mut Vec<SwitchId>, needed: bool, switch: SwitchId) -> Result<(), Memory>
    ensures { OnOk result (list.new.items ≡ (if needed then list.old.items ++ switch ∷ [] else list.old.items)) }
{
    if needed {
        list.push(switch)?;
    }
    Ok(())
}

// The switches of other bays on which one of the operations depends.
pub(crate) fn needs_of(
    alloc: Global,
    station: &Station,
    operations: &[Op],
    stands: &[u16],
    first: SwitchId,
    count: u16,
    positions: &[TestPosition],
) -> Result<Vec<SwitchId>, Memory>
    requires few { first.0 + count < 2 ^ 16 }
    requires operations { operations.now ≡ operations_from first.0 count }
    requires stands { AreStands station.now first.0 count stands.now }
    requires positions { ArePositions station.now operations.now positions.now }
    requires covered { AreCovered station.now operations.now stands.now positions.now (length operations.now) }
    ensures { IfOk result (λ v. AreThose (IsNeeded station.now operations.now first.0 count)
        (range_with_len 0 (length station.now.switches)) (map (λ s. s.0) v.items)) }
{
    let mut needs = Vec::new(alloc);
    for s in 0..station.switch_count() {
        let switch = SwitchId(s);
        let stand = stand_of(stands, s);
        let needed = is_needed(positions, operations.len(), first, count, switch, stand);
        push_switch(&mut needs, needed, switch)?;
    }
    Ok(needs)
}
