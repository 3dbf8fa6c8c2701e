//! The body of a block while it is read.
ghost use Rattle.std.specs.Prelude.{◌≡◌, ◌==◌, ◌||◌, ◌≤◌, ◌↔◌, ℕ, false, [], ◌∷◌, ◌++◌, length, IsTrue, IfOk, IfErr};
ghost use Rattle.equation_audit.specs.declared.block.TheConstants.{MOST_OWN};
ghost use Rattle.equation_audit.specs.Equations.{is_among, is_own, AllDiffer, HasFewOwn, IsBroad};
ghost use Rattle.equation_audit.specs.BlockLines.{Statement, body};
ghost use Rattle.equation_audit.specs.BlockFaults.{ForBroad};

use crate::block::{Alternative, Block, MOST_OWN};
use crate::condition::Condition;
use ilk_base::{Memory, Op, SwitchId};
use std::alloc::{AllocFailed, Global};
use std::marker::Model;

// Why a condition is not added.
#[derive(Clone, Copy, PartialEq, Eq)]
pub(crate) enum DraftFault {
    // There was not enough memory.
    Memory,
    // Its switch is one more than the most that a block may name.
    Broad,
}

impl<T: Drop> From<AllocFailed<T>> for DraftFault {
    ghost use Rattle.equation_audit.specs.declared.draft.DraftFault.TheVariants.{Memory};

    ghost from_gives = { λ _ e. e ≡ Memory };

    fn from(_: AllocFailed<T>) -> Self {
        DraftFault::Memory
    }
}

// Whether the switch is in the list.
pub(crate) fn is_among(ids: &[SwitchId], id: SwitchId) -> bool
    ensures { result ≡ is_among ids.now id.0 }
{
    ids.iter().any(|other| other.0 == id.0)
}

// The own switches with one that is named.
fn with_own(mut own: Vec<SwitchId>, id: SwitchId) -> Result<Vec<SwitchId>, DraftFault>
    requires differ { AllDiffer own.items }
    requires few { length own.items ≤ MOST_OWN }
    ensures differ { IfOk result (λ v. AllDiffer v.items) }
    ensures few { IfOk result (λ v. length v.items ≤ MOST_OWN) }
    ensures each { IfOk result (λ v. (i : ℕ) → is_among v.items i ≡ (is_among own.items i || (id.0 == i))) }
    ensures err { IfErr result (λ e. ForBroad e ((is_among own.items id.0 ≡ false) × (length own.items ≡ MOST_OWN))) }
{
    if is_among(&own, id) {
        return Ok(own);
    }
    if own.len() >= MOST_OWN {
        return Err(DraftFault::Broad);
    }
    own.push(id)?;
    Ok(own)
}

// What was read of a body that is not `never`, seen as its alternatives; one is always begun.
#[derive(Drop)]
pub(crate) struct Draft {
    // those before the last
    earlier: Vec<Alternative>,
    // the last
    last: Vec<Condition>,
    // the own switches
    own: Vec<SwitchId>,
}

impl Model for Draft {
    ghost use Rattle.std.specs.Prelude.{List, [], ◌∷◌, ◌++◌};
    ghost use Rattle.equation_audit.specs.declared.condition.Condition.{Condition};
    ghost use Rattle.equation_audit.specs.Equations.{AreFewOwn};

    ghost Value = { List (List Condition) };

    ghost view = { λ d. d.earlier.items ++ d.last.items ∷ [] };

    ghost invariant = { λ d. AreFewOwn (d.earlier.items ++ d.last.items ∷ []) d.own.items };
}

impl Draft {
    // The body of which no line was read.
    pub(crate) fn new(alloc: Global) -> Draft
        ensures fresh { result ≡ [] ∷ [] }
        ensures few { HasFewOwn result }
    {
        Draft {
            earlier: Vec::new(alloc),
            last: Vec::new(alloc),
            own: Vec::new(alloc),
        }
    }

    // Whether no line of it was read.
    pub(crate) fn is_fresh(&self) -> bool
        ensures { IsTrue result ↔ (self.now ≡ [] ∷ []) }
    {
        self.earlier.is_empty() && self.last.is_empty()
    }

    // With one more alternative, after a line `or`.
    pub(crate) fn with_alternative(self, alloc: Global) -> Result<Draft, Memory>
        ensures more { IfOk result (λ d. body d ≡ body self ++ Statement.Or ∷ []) }
        ensures own { IfOk result (λ d. (i : ℕ) → is_own d i ≡ is_own self i) }
        ensures few { IfOk result (λ d. HasFewOwn d) }
    {
        let Draft {
            mut earlier,
            last,
            own,
        } = self;
        earlier.push(Alternative { conditions: last })?;
        Ok(Draft {
            earlier,
            last: Vec::new(alloc),
            own,
        })
    }

    // With one more condition of the last alternative.
    pub(crate) fn with_condition(self, condition: Condition) -> Result<Draft, DraftFault>
        ensures more { IfOk result (λ d. body d ≡ body self ++ Statement.When condition ∷ []) }
        ensures own { IfOk result (λ d. (i : ℕ) → is_own d i ≡ (is_own self i || (condition.switch.0 == i))) }
        ensures few { IfOk result (λ d. HasFewOwn d) }
        ensures err { IfErr result (λ e. ForBroad e (IsBroad self condition.switch.0)) }
    {
        let Draft {
            earlier,
            mut last,
            own,
        } = self;
        let own = with_own(own, condition.switch)?;
        last.push(condition)?;
        Ok(Draft { earlier, last, own })
    }

    // The block of the operation with this body.
    pub(crate) fn finish(self, op: Op) -> Result<Block, Memory>
        ensures { IfOk result (λ b. b ≡ record { op = op; alternatives = self }) }
    {
        let Draft {
            mut earlier,
            last,
            own,
        } = self;
        earlier.push(Alternative { conditions: last })?;
        Ok(Block {
            op,
            alternatives: earlier,
            own,
        })
    }
}
