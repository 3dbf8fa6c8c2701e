//! The answers to the questions of a page about a station that is read and judged.
ghost use Rattle.std.specs.Prelude.{◌≡◌, false, IfOk, IfErr};
ghost use Rattle.ilk_base.specs.Inputs.{ForRefused};
ghost use Rattle.station_graph.specs.Alike.{IsVector};
ghost use Rattle.switching_orders.specs.OrderRuling.{AreOperations};
ghost use Rattle.page_questions.specs.Questions.{IsStart, SaysCheck, SaysState, SaysExplain, SaysWhy, SaysOrder};
ghost use Rattle.page_questions.specs.Questions.{RefusesPositions, RefusesExplain, RefusesStart, RefusesOrder};

use double_points::read_positions;
use ilk_base::{Direction, InputFault, Op, Text};
use operation_lines::switch_of_path;
use release_compile::GraphJudge;
use release_texts::{check_text, explain_text};
use station_graph::{Station, Vector};
use station_state::state_text;
use std::alloc::Global;
use switching_orders::{certain_positions, order_text, read_order};
use why_text::why_text;

/// A text, and whether what was judged differs from the rules.
#[derive(Drop)]
pub struct Answer {
    pub differs: bool,
    pub text: Text,
}

// An answer that differs from no rule.
fn plain(text: Text) -> Answer
    ensures { (result.differs ≡ false) × (result.text ≡ text) }
{
    Answer {
        differs: false,
        text,
    }
}

/// What `check` says by these positions.
pub fn check_answer(
    alloc: Global,
    judge: &GraphJudge,
    positions: &[u8],
) -> Result<Answer, InputFault>
    ensures ok { IfOk result (λ a. SaysCheck judge.now.diagram positions.now a.differs a.text) }
    ensures err { IfErr result (λ e. ForRefused e (RefusesPositions judge.now.diagram positions.now)) }
{
    let readings = read_positions(alloc, judge.station(), positions)?;
    Ok(plain(check_text(alloc, judge.station(), judge, &readings)?))
}

/// What `state` says by these positions.
pub fn state_answer(
    alloc: Global,
    station: &Station,
    positions: &[u8],
) -> Result<Answer, InputFault>
    ensures ok { IfOk result (λ a. SaysState station.now positions.now a.differs a.text) }
    ensures err { IfErr result (λ e. ForRefused e (RefusesPositions station.now positions.now)) }
{
    let readings = read_positions(alloc, station, positions)?;
    Ok(plain(state_text(alloc, station, &readings)?))
}

/// What `explain` says of moving the switch of this path.
pub fn explain_answer(
    alloc: Global,
    judge: &GraphJudge,
    positions: &[u8],
    direction: Direction,
    path: &[u8],
) -> Result<Answer, InputFault>
    ensures ok { IfOk result (λ a. SaysExplain judge.now.diagram positions.now direction path.now a.differs a.text) }
    ensures err { IfErr result (λ e. ForRefused e (RefusesExplain judge.now.diagram positions.now path.now)) }
{
    let readings = read_positions(alloc, judge.station(), positions)?;
    let Some(switch) = switch_of_path(judge.station(), path) else {
        return Err(InputFault::refused(11, 0));
    };
    let op = Op { switch, direction };
    Ok(plain(explain_text(alloc, judge.station(), judge, &readings, op)?))
}

/// What `why` says of moving the switch of this path.
pub fn why_answer(
    alloc: Global,
    judge: &GraphJudge,
    positions: &[u8],
    direction: Direction,
    path: &[u8],
) -> Result<Answer, InputFault>
    ensures ok { IfOk result (λ a. SaysWhy judge.now.diagram positions.now direction path.now a.differs a.text) }
    ensures err { IfErr result (λ e. ForRefused e (RefusesExplain judge.now.diagram positions.now path.now)) }
{
    let readings = read_positions(alloc, judge.station(), positions)?;
    let Some(switch) = switch_of_path(judge.station(), path) else {
        return Err(InputFault::refused(11, 0));
    };
    let op = Op { switch, direction };
    Ok(plain(why_text(alloc, judge.station(), judge, &readings, op)?))
}

// The vector that these positions say.
fn start_of(alloc: Global, station: &Station, positions: &[u8]) -> Result<Vector, InputFault>
    ensures ok { IfOk result (IsStart station.now positions.now) }
    ensures vector { IfOk result (IsVector station.now) }
    ensures err { IfErr result (λ e. ForRefused e (RefusesStart station.now positions.now)) }
{
    let readings = read_positions(alloc, station, positions)?;
    match certain_positions(alloc, station, &readings)? {
        Some(start) => Ok(start),
        None => Err(InputFault::refused(14, 0)),
    }
}

/// What `order` says of these steps.
pub fn order_answer(
    alloc: Global,
    station: &Station,
    positions: &[u8],
    order: &[u8],
) -> Result<Answer, InputFault>
    ensures ok { IfOk result (λ a. SaysOrder station.now positions.now order.now a.differs a.text) }
    ensures err { IfErr result (λ e. ForRefused e (RefusesOrder station.now positions.now order.now)) }
{
    let start = start_of(alloc, station, positions)?;
    let steps = read_order(alloc, station, order)?;
    let report = order_text(alloc, station, &start, &steps)?;
    Ok(Answer {
        differs: report.differs,
        text: report.text,
    })
}
