//! The two views of a contraction.
ghost use Rattle.std.specs.Prelude.{◌≡◌, ◌↔◌, IfOk};
ghost use Rattle.contraction.specs.Answers.{Answers, IsContraction};
ghost use Rattle.contraction.specs.Renaming.{renamed};
ghost use Rattle.judge_pool.specs.Seen.{seen_row, SameSeen};

use contraction::Contraction;
use ilk_base::{Memory, Text};
use std::alloc::Global;

/// One of the two views of a contraction.
#[derive(Clone, Copy)]
pub enum View {
    /// what is coupled, energisable and earthable
    Gap,
    /// what is joined, bonded and supplied
    Load,
}

// The row of this view.
pub(crate) fn row_in(alloc: Global, view: View, value: &Contraction) -> Result<Text, Memory>
    ensures row { IfOk result (λ t. t ≡ seen_row view value.now) }
    ensures tells { IfOk result (λ t. (other : Answers) → IsContraction other
        → (t ≡ seen_row view other) ↔ SameSeen view value.now other) }
    ensures answers { IsContraction value.now }
{
    match view {
        View::Gap => value.gap_row(alloc),
        View::Load => value.load_row(alloc),
    }
}

// The row of this view of what the value is on these nodes in place of its own.
pub(crate) fn row_on(
    alloc: Global,
    view: View,
    value: &Contraction,
    nodes: &[u16],
) -> Result<Text, Memory>
    ensures { IfOk result (λ t. t ≡ seen_row view (renamed nodes.now value.now)) }
{
    match view {
        View::Gap => value.gap_row_on(alloc, nodes),
        View::Load => value.load_row_on(alloc, nodes),
    }
}
