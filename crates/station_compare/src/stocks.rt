//! What the graphs of two stations are made of.
ghost use Rattle.std.specs.Prelude.{IfOk};
ghost use Rattle.step_graphs.specs.Steps.{AllFit};
ghost use Rattle.station_joints.specs.Joined.{HaveJointSteps};
ghost use Rattle.station_compare.specs.Walking.{AreStocks, IsPairStock};

use ilk_base::Memory;
use judge_pool::{Pool, View};
use station_graph::Station;
use station_joints::JointSteps;
use std::alloc::Global;
use step_graphs::{Step, step_rows};

// The values of the steps of both stations in one view, each once, and for each station their numbers. So what both have
// alike is composed once.
#[derive(Drop)]
pub(crate) struct PairStock {
    pub(crate) pool: Pool,
    pub(crate) old_rows: Vec<Vec<usize>>,
    pub(crate) new_rows: Vec<Vec<usize>>,
}

// The stocks of both views.
#[derive(Drop)]
pub(crate) struct Stocks {
    pub(crate) gap: PairStock,
    pub(crate) load: PairStock,
}

// The stock of these steps in one view.
fn pair_stock(
    alloc: Global,
    view: View,
    old: &Station,
    new: &Station,
    olds: &[Step],
    news: &[Step],
) -> Result<PairStock, Memory>
    requires olds { AllFit old.now olds.now }
    requires news { AllFit new.now news.now }
    ensures { IfOk result (IsPairStock view old.now new.now olds.now news.now) }
{
    let mut pool = Pool::new(alloc, view);
    let old_rows = step_rows(alloc, &mut pool, old, olds)?;
    let new_rows = step_rows(alloc, &mut pool, new, news)?;
    Ok(PairStock {
        pool,
        old_rows,
        new_rows,
    })
}

// The stocks of these steps.
pub(crate) fn stocks_of(
    alloc: Global,
    old: &Station,
    new: &Station,
    steps: &JointSteps,
) -> Result<Stocks, Memory>
    requires { HaveJointSteps old.now new.now steps.now }
    ensures { IfOk result (AreStocks old.now new.now steps.now) }
{
    let olds = steps.old_steps.as_slice();
    let news = steps.new_steps.as_slice();
    let gap = pair_stock(alloc, View::Gap, old, new, olds, news)?;
    let load = pair_stock(alloc, View::Load, old, new, olds, news)?;
    Ok(Stocks { gap, load })
}
