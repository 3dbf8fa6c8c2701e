//! Lists of kept nodes that lie in memory once for all contractions that hold them.
ghost use Rattle.std.specs.Prelude.{◌≡◌, IfOk, IfSome};

use crate::numbers::same_numbers;
use ilk_base::Memory;
use std::alloc::Global;
use std::marker::Model;
use std::rc::Rc;

/// A list of kept nodes that contractions hold together. Nearly all values that are made one after the other keep the
/// same nodes; the last list is at hand for the next of them. Contracts see it as the list.
#[derive(Drop)]
pub struct KeptNodes {
    held: Rc<Vec<u16>>,
}

impl Model for KeptNodes {
    ghost use Rattle.std.specs.Prelude.{ℕ, List};

    ghost Value = { List ℕ };

    ghost view = { λ k. k.held.value.items };
}

impl KeptNodes {
    // This list, held by one owner.
    pub(crate) fn new(alloc: Global, nodes: Vec<u16>) -> Result<KeptNodes, Memory>
        ensures { IfOk result (λ k. k ≡ nodes.items) }
    {
        let held = Rc::new(alloc, nodes)?;
        Ok(KeptNodes { held })
    }

    // These nodes, held by one owner.
    pub(crate) fn of(alloc: Global, nodes: &[u16]) -> Result<KeptNodes, Memory>
        ensures { IfOk result (λ k. k ≡ nodes.now) }
    {
        let list = Vec::from_slice(alloc, nodes)?;
        KeptNodes::new(alloc, list)
    }

    // The same list, held by one owner more.
    pub(crate) fn share(&self) -> Result<KeptNodes, Memory>
        ensures { IfOk result (λ k. k ≡ self.now) }
    {
        let held = self.held.clone()?;
        Ok(KeptNodes { held })
    }

    // The nodes, lent.
    pub(crate) fn nodes(&self) -> &[u16]
        ensures { result.now ≡ self.now }
    {
        self.held.as_ref().as_slice()
    }
}

// The list of these nodes, if it is at hand.
fn held_on(held: &Option<KeptNodes>, nodes: &[u16]) -> Result<Option<KeptNodes>, Memory>
    ensures { IfOk result (λ o. IfSome o (λ k. k ≡ nodes.now)) }
{
    match held {
        Some(kept) if same_numbers(kept.nodes(), nodes) => {
            let same = kept.share()?;
            Ok(Some(same))
        }
        _ => Ok(None),
    }
}

// The list of these nodes: that at hand, or a new one, which is at hand from now on.
pub(crate) fn kept_nodes_on(
    alloc: Global,
    held: &mut Option<KeptNodes>,
    nodes: &[u16],
) -> Result<KeptNodes, Memory>
    ensures { IfOk result (λ k. k ≡ nodes.now) }
{
    if let Some(kept) = held_on(held, nodes)? {
        return Ok(kept);
    }
    let kept = KeptNodes::of(alloc, nodes)?;
    let same = kept.share()?;
    *held = Some(same);
    Ok(kept)
}
