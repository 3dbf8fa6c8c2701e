//! The rows of both views of one contraction.
ghost use Rattle.std.specs.Prelude.{◌≡◌, ◌⊎◌, ℕ, IfOk, Contains};
ghost use Rattle.contraction.specs.Answers.{Answers, Keeps};
ghost use Rattle.contraction.specs.Composing.{AreRowsOfBoth};
ghost use Rattle.contraction.specs.Rows.{whole_row, AreRows, AreRowsOf};

use crate::bytes::{LOAD_BYTES, WHOLE_BYTES};
use crate::selection::Selection;
use crate::value::Contraction;
use ilk_base::{Memory, Text};
use std::alloc::Global;

/// The rows of the two views of a contraction, each with its kept nodes. They tell all of it, in less memory.
#[derive(Drop)]
pub struct BothRows {
    /// the row of the gap view
    pub gap: Text,
    /// the row of the load view
    pub load: Text,
}

impl BothRows {
    /// The kept nodes and both views as one row, as `Contraction::row` gives it. Time and memory: the rows.
    pub fn whole(&self, alloc: Global) -> Result<Text, Memory>
        ensures { IfOk result (λ t. (c : Answers) → AreRowsOf c self.now.gap self.now.load → t ≡ whole_row c) }
    {
        let load = self.load.bytes();
        let count = load.len() / LOAD_BYTES;
        let mut text = Text::with_capacity(alloc, count.saturating_mul(WHOLE_BYTES))?;
        text.push(self.gap.bytes())?;
        text.push(&load[2 * count..])?;
        Ok(text)
    }
}

impl Contraction {
    /// The rows of what `compose` and then `keep_only` give, in less time than these take: the items of both together,
    /// on a selection of the nodes that either keeps. So who has made such a value before finds it by its rows, and
    /// makes it not again.
    ///
    /// Time: the kept nodes, times those that the value with fewer of them joins to others. Memory: the kept nodes.
    pub fn composed_rows(
        &self,
        alloc: Global,
        other: &Contraction,
        selection: &Selection,
    ) -> Result<BothRows, Memory>
        requires first { selection.now.first ≡ self.now.kept }
        requires second { selection.now.second ≡ other.now.kept }
        requires nodes { (n : ℕ) → Contains selection.now.nodes n
            → Keeps self.now.kept n ⊎ Keeps other.now.kept n }
        ensures { IfOk result (λ r. AreRowsOfBoth selection.now.nodes self.now other.now r.gap r.load) }
    {
        let gap = self.composed_gap_row(alloc, other, selection)?;
        let load = self.composed_load_row(alloc, other, selection)?;
        Ok(BothRows { gap, load })
    }

    /// The value that both rows tell. Time and memory: the rows.
    pub fn of_rows(alloc: Global, rows: &BothRows) -> Result<Contraction, Memory>
        requires { AreRows rows.now.gap rows.now.load }
        ensures { IfOk result (λ c. AreRowsOf c rows.now.gap rows.now.load) }
    {
        let mut held = None;
        let one = Contraction::of_gap_row(alloc, &rows.gap, &mut held)?;
        let other = Contraction::of_load_row(alloc, &rows.load, &mut held)?;
        Ok(Contraction {
            kept: one.kept,
            gap: one.gap,
            load: other.load,
            bonded: other.bonded,
        })
    }
}
