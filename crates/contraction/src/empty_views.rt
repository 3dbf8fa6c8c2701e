//! The views of no item, which values of one view have as their other one.
ghost use Rattle.std.specs.Prelude.{◌≡◌, ◌≤◌, ◌/◌, ℕ, List, length, IfOk, IfSome};
ghost use Rattle.station_graph.specs.declared.limits.TheConstants.{NODES};
ghost use Rattle.contraction.specs.Rows.{words};

use crate::kept_nodes::KeptNodes;
use crate::numbers::{are_told, numbers_of};
use crate::shared_row::{SharedLabels, SharedRow, bonds_apart};
use ilk_base::Memory;
use std::alloc::Global;
use std::marker::Model;

/// The views of no item on some nodes, with the list of these. Nearly all values that are made one after the other by
/// `of_gap_row` or `of_load_row` keep the same nodes, so they hold that list and one such view together. Contracts see
/// it as the list.
#[derive(Drop)]
pub struct EmptyViews {
    pub(crate) kept: KeptNodes,
    pub(crate) row: SharedRow,
    pub(crate) bonded: SharedLabels,
}

impl Model for EmptyViews {
    ghost use Rattle.std.specs.Prelude.{ℕ, List, length};

    ghost Value = { List ℕ };

    ghost use Rattle.contraction.specs.Single.{AreBare};

    ghost view = { λ b. b.kept };

    ghost invariant = { λ b. AreBare (length b.kept) b.row b.bonded };
}

impl EmptyViews {
    // The views on these nodes.
    pub(crate) fn of(alloc: Global, kept: KeptNodes) -> Result<EmptyViews, Memory>
        requires { length kept ≤ NODES }
        ensures { IfOk result (λ b. b ≡ kept) }
    {
        let count = kept.nodes().len() as u16;
        let row = SharedRow::bare(alloc, count)?;
        let bonded = bonds_apart(alloc, count)?;
        Ok(EmptyViews { kept, row, bonded })
    }

    // The same views on these nodes, which are as many.
    fn on_kept(&self, kept: KeptNodes) -> Result<EmptyViews, Memory>
        requires { length kept ≡ length self.now }
        ensures { IfOk result (λ b. b ≡ kept) }
    {
        let row = self.row.share()?;
        let bonded = self.bonded.share()?;
        Ok(EmptyViews { kept, row, bonded })
    }

    // The same views again.
    fn share(&self) -> Result<EmptyViews, Memory>
        ensures { IfOk result (λ b. b ≡ self.now) }
    {
        let kept = self.kept.share()?;
        self.on_kept(kept)
    }

    // The nodes, lent.
    fn nodes(&self) -> &[u16]
        ensures { result.now ≡ self.now }
    {
        self.kept.nodes()
    }
}

// The views on the nodes of which these are the bytes, if they are those at hand.
fn held_on(held: &Option<EmptyViews>, bytes: &[u8]) -> Result<Option<EmptyViews>, Memory>
    ensures { IfOk result (λ o. IfSome o (λ b. (list : List ℕ) → bytes.now ≡ words list → b ≡ list)) }
{
    match held {
        Some(views) if are_told(views.nodes(), bytes) => {
            let same = views.share()?;
            Ok(Some(same))
        }
        _ => Ok(None),
    }
}

// The views on these nodes: those at hand where they are on as many nodes, or new ones.
fn views_on(alloc: Global, held: &Option<EmptyViews>, kept: KeptNodes) -> Result<EmptyViews, Memory>
    requires { length kept ≤ NODES }
    ensures { IfOk result (λ b. b ≡ kept) }
{
    match held {
        Some(views) if views.nodes().len() == kept.nodes().len() => views.on_kept(kept),
        _ => EmptyViews::of(alloc, kept),
    }
}

// The views on the nodes of which these are the bytes: those at hand, or others, which are at hand from now on.
pub(crate) fn empty_views_on(
    alloc: Global,
    held: &mut Option<EmptyViews>,
    bytes: &[u8],
) -> Result<EmptyViews, Memory>
    requires { length bytes.now / 2 ≤ NODES }
    ensures { IfOk result (λ b. (list : List ℕ) → bytes.now ≡ words list → b ≡ list) }
{
    if let Some(views) = held_on(held, bytes)? {
        return Ok(views);
    }
    let nodes = numbers_of(alloc, bytes)?;
    let kept = KeptNodes::new(alloc, nodes)?;
    let views = views_on(alloc, held, kept)?;
    let same = views.share()?;
    *held = Some(same);
    Ok(views)
}
