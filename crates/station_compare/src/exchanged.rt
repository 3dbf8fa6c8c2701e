//! What changes for the switches of a bay, known from a bay that is like it.
ghost use Rattle.std.specs.Prelude.{◌≡◌, ℕ, IfOk, option_map};
ghost use Rattle.ilk_base.specs.declared.words.Op.{Op};
ghost use Rattle.ilk_base.specs.declared.words.Rule.{Rule};
ghost use Rattle.station_graph.specs.Alike.{IsVector};
ghost use Rattle.station_changes.specs.declared.change.Change.{Change};
ghost use Rattle.station_changes.specs.Compare.{IsPart};
ghost use Rattle.release_dependence.specs.Exchange.{IsExchanged};
ghost use Rattle.like_bays.specs.Like.{led_by};
ghost use Rattle.change_search.specs.Showing.{witness_of};
ghost use Rattle.station_compare.specs.Comparing.{AreRuleChanges, AreChanges, AreSwitchChanges, IsFound};
ghost use Rattle.station_compare.specs.Likeness.{AreExchanged, AreExchangedOps};

use crate::found::{Found, OperationChanges, RuleChanges, SwitchChanges};
use crate::likeness::LikeBays;
use change_search::Shown;
use ilk_base::{Memory, SwitchId};
use like_bays::{exchanged_vector, led_to};
use station_graph::Station;
use std::alloc::Global;

// The position with both bays exchanged.
fn exchanged_shown(
    alloc: Global,
    like: &LikeBays,
    old: &Station,
    new: &Station,
    shown: &Shown,
) -> Result<Shown, Memory>
    requires { AreExchanged old.now new.now like.now }
    ensures old { IfOk result (λ s. IsVector old.now s.old_closed.items) }
    ensures new { IfOk result (λ s. IsVector new.now s.new_closed.items) }
    ensures isolated { IfOk result (λ s. s.isolated ≡ shown.now.isolated) }
    ensures old_exchanged { IfOk result (λ s. IsVector old.now shown.now.old_closed.items →
        IsExchanged (led_by like.now.old.items) shown.now.old_closed.items s.old_closed.items) }
    ensures new_exchanged { IfOk result (λ s. IsVector new.now shown.now.new_closed.items →
        IsExchanged (led_by like.now.new.items) shown.now.new_closed.items s.new_closed.items) }
{
    let old_closed = exchanged_vector(alloc, old, &like.old, &shown.old_closed)?;
    let new_closed = exchanged_vector(alloc, new, &like.new, &shown.new_closed)?;
    Ok(Shown {
        old_closed,
        new_closed,
        isolated: shown.isolated,
    })
}

// What is found of a change of an operation by a rule, for the exchanged operation.
fn exchanged_part(
    alloc: Global,
    like: &LikeBays,
    old: &Station,
    new: &Station,
    part: &Option<Shown>,
) -> Result<Option<Shown>, Memory>
    requires { AreExchanged old.now new.now like.now }
    ensures { IfOk result (λ found. (a b c d : Op) (change : Change) (rule : Rule) → AreExchangedOps like.now a b c d
        → IsPart old.now new.now a b change rule (option_map witness_of part.now)
        → IsPart old.now new.now c d change rule (option_map witness_of found)) }
{
    match part {
        Some(shown) => {
            let moved = exchanged_shown(alloc, like, old, new, shown)?;
            Ok(Some(moved))
        }
        None => Ok(None),
    }
}

// What is found of it by each rule.
fn exchanged_rules(
    alloc: Global,
    like: &LikeBays,
    old: &Station,
    new: &Station,
    rules: &RuleChanges,
) -> Result<RuleChanges, Memory>
    requires { AreExchanged old.now new.now like.now }
    ensures { IfOk result (λ found. (a b c d : Op) (change : Change) → AreExchangedOps like.now a b c d
        → AreRuleChanges old.now new.now a b change rules.now → AreRuleChanges old.now new.now c d change found) }
{
    let by_r1 = exchanged_part(alloc, like, old, new, &rules.by_r1)?;
    let by_r2 = exchanged_part(alloc, like, old, new, &rules.by_r2)?;
    let by_r3 = exchanged_part(alloc, like, old, new, &rules.by_r3)?;
    Ok(RuleChanges {
        by_r1,
        by_r2,
        by_r3,
    })
}

// What is found of an operation.
fn exchanged_changes(
    alloc: Global,
    like: &LikeBays,
    old: &Station,
    new: &Station,
    changes: &OperationChanges,
) -> Result<OperationChanges, Memory>
    requires { AreExchanged old.now new.now like.now }
    ensures { IfOk result (λ found. (a b c d : Op) → AreExchangedOps like.now a b c d
        → AreChanges old.now new.now a b changes.now → AreChanges old.now new.now c d found) }
{
    let stricter = exchanged_rules(alloc, like, old, new, &changes.stricter)?;
    let looser = exchanged_rules(alloc, like, old, new, &changes.looser)?;
    Ok(OperationChanges { stricter, looser })
}

// What is found of a switch that both have.
fn exchanged_switch(
    alloc: Global,
    like: &LikeBays,
    old: &Station,
    new: &Station,
    changes: &SwitchChanges,
) -> Result<SwitchChanges, Memory>
    requires { AreExchanged old.now new.now like.now }
    ensures { IfOk result (λ c. (k : ℕ) → AreSwitchChanges old.now new.now k changes.now →
        AreSwitchChanges old.now new.now (led_by like.now.new.items k) c) }
{
    let opening = exchanged_changes(alloc, like, old, new, &changes.opening)?;
    let closing = exchanged_changes(alloc, like, old, new, &changes.closing)?;
    Ok(SwitchChanges {
        old: SwitchId(led_to(&like.old, changes.old.0)),
        opening,
        closing,
    })
}

// What is found of the switch that stands for another one of the new station, of which this is found.
pub(crate) fn exchanged_found(
    alloc: Global,
    like: &LikeBays,
    old: &Station,
    new: &Station,
    found: &Found,
) -> Result<Found, Memory>
    requires { AreExchanged old.now new.now like.now }
    ensures { IfOk result (λ f. (k : ℕ) → IsFound old.now new.now k found.now →
        IsFound old.now new.now (led_by like.now.new.items k) f) }
{
    match found {
        Found::OnlyNew => Ok(Found::OnlyNew),
        Found::InBoth(changes) => {
            let moved = exchanged_switch(alloc, like, old, new, changes)?;
            Ok(Found::InBoth(moved))
        }
    }
}
