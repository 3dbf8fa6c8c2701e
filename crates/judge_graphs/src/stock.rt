//! What the graphs of one view are made of, over the whole station.
ghost use Rattle.std.specs.Prelude.{IfOk, OnOk};
ghost use Rattle.part_alphabets.specs.Alphabets.{AreAlphabets};
ghost use Rattle.judge_pool.specs.Lettered.{lettered};
ghost use Rattle.judge_intake.specs.SharedNodes.{AreShared};
ghost use Rattle.judge_graphs.specs.Stocking.{IsStock};

use crate::labelled::InnerNotes;
use crate::noted::Noted;
use bay_contract::Parts;
use decision_graphs::Folds;
use ilk_base::Memory;
use judge_intake::letter_rows;
use judge_pool::{Pool, View};
use station_graph::{NodeList, Station};
use std::alloc::Global;

// A stock of so many values is large.
const MANY_VALUES: usize = 400_000;

/// Values of one view, the numbers of each part's letters among them, layers that were folded, and the outer graphs of
/// bays and the inner ones of switches that were unlike all before them.
#[derive(Drop)]
pub struct Stock {
    pub(crate) pool: Pool,
    pub(crate) letters: Vec<Vec<usize>>,
    pub(crate) folds: Folds,
    pub(crate) outer: Vec<Noted>,
    pub(crate) inner: InnerNotes,
}

/// The letters of all parts, and no graphs yet.
pub fn stock_of(
    alloc: Global,
    view: View,
    station: &Station,
    parts: &Parts,
    shared: &[NodeList],
) -> Result<Stock, Memory>
    requires lettered { AreAlphabets station.now parts.now }
    requires shared { AreShared station.now shared.now }
    ensures { IfOk result (IsStock (lettered station.now parts.now) view) }
{
    let mut pool = Pool::new(alloc, view);
    let letters = letter_rows(alloc, &mut pool, station, parts, shared)?;
    Ok(Stock {
        pool,
        letters,
        folds: Folds::new(alloc),
        outer: Vec::new(alloc),
        inner: InnerNotes {
            graphs: Vec::new(alloc),
            labelled: Vec::new(alloc),
        },
    })
}

impl Stock {
    // Whether its values take more room than they save time.
    fn is_large(&self) -> bool {
        self.pool.values.len() >= MANY_VALUES
    }
}

/// Puts a new stock in place of a large one. What the next bays have in common with those before is then made again,
/// and what they have not takes no more room.
pub fn renew_large(
    alloc: Global,
    view: View,
    station: &Station,
    parts: &Parts,
    shared: &[NodeList],
    stock: &mut Stock,
) -> Result<(), Memory>
    requires lettered { AreAlphabets station.now parts.now }
    requires shared { AreShared station.now shared.now }
    requires stock { IsStock (lettered station.now parts.now) view stock.old }
    ensures { OnOk result (IsStock (lettered station.now parts.now) view stock.new) }
{
    if !stock.is_large() {
        return Ok(());
    }
    *stock = stock_of(alloc, view, station, parts, shared)?;
    Ok(())
}
