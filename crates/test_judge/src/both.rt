//! Both rows of two contractions together, and the value that they tell.
ghost use Rattle.std.specs.Prelude.{◌≡◌, ◌⊎◌, ℕ, Contains};
ghost use Rattle.contraction.specs.Answers.{Keeps};

use crate::selected::is_row;
use contraction::{Contraction, Selection};
use ilk_base::Memory;
use std::alloc::Global;

// Whether both rows that are made at once are these, and the value that they tell has these rows and both as one.
pub(crate) fn has_both_rows(
    alloc: Global,
    x: &Contraction,
    y: &Contraction,
    selection: &Selection,
    gap: &[u8],
    load: &[u8],
) -> Result<bool, Memory>
    requires first { selection.now.first ≡ x.now.kept }
    requires second { selection.now.second ≡ y.now.kept }
    requires nodes { (n : ℕ) → Contains selection.now.nodes n → Keeps x.now.kept n ⊎ Keeps y.now.kept n }
{
    let rows = x.composed_rows(alloc, y, selection)?;
    let value = Contraction::of_rows(alloc, &rows)?;
    let whole = rows.whole(alloc)?;
    Ok(
        rows.gap.bytes() == gap
            && rows.load.bytes() == load
            && is_row(value.gap_row(alloc), gap)
            && is_row(value.load_row(alloc), load)
            && is_row(value.row(alloc), whole.bytes()),
    )
}
