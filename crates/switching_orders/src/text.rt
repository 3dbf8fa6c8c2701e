//! The text of `order`.
ghost use Rattle.std.specs.Prelude.{◌≡◌, ◌<◌, ◌≤◌, ◌++◌, ◌+◌, [], length, take, slice_get, codes, decimal, Some, None};
ghost use Rattle.std.specs.Prelude.{IfOk, OnOk};
ghost use Rattle.station_graph.specs.CentralRules.{IsOperation};
ghost use Rattle.switching_orders.specs.OrderRuling.{after_all, IsRuling, AreOperations};
ghost use Rattle.switching_orders.specs.Undoing.{undone};
ghost use Rattle.switching_orders.specs.OrderText.{ruling_words, step_line, ok_lines, stop_of, back_line, TellsUndone};
ghost use Rattle.switching_orders.specs.OrderText.{IsOrderText};

use crate::judging::judge_order;
use crate::order::Order;
use crate::ruling::{Ruling, Step};
use central_rules::rule_name;
use denial_explain::operation_text;
use ilk_base::{Memory, Op, Text};
use station_graph::{Station, Vector};
use std::alloc::Global;

/// What is told of an order.
#[derive(Drop)]
pub struct OrderReport {
    /// the lines
    pub text: Text,
    /// whether a step of the order is denied or idle
    pub differs: bool,
}

// Appends what is written of a ruling.
fn push_ruling(text: &mut Text, step: Step) -> Result<(), Memory>
    ensures { OnOk result (text.new ≡ text.old ++ ruling_words step) }
{
    match step {
        Step::Ok => text.push(b" ok "),
        Step::Denied(rule) => {
            text.push(b" denied ")?;
            text.push(rule_name(rule))?;
            text.push(b" ")
        }
        Step::Idle => text.push(b" idle "),
    }
}

// Appends the line of a step.
fn push_step(
    alloc: Global,
    text: &mut Text,
    station: &Station,
    number: u32,
    step: Step,
    op: Op,
) -> Result<(), Memory>
    requires { IsOperation station.now op }
    ensures { OnOk result (text.new ≡ text.old ++ step_line station.now number step op) }
{
    text.push_decimal(number as usize)?;
    push_ruling(text, step)?;
    text.push(operation_text(alloc, station, op)?.bytes())
}

// Appends the lines of the first steps, which are ok.
fn push_passed(
    alloc: Global,
    text: &mut Text,
    station: &Station,
    order: &Order,
    passed: u32,
) -> Result<(), Memory>
    requires order { AreOperations station.now order.now }
    requires within { passed ≤ length order.now }
    ensures { OnOk result (text.new ≡ text.old ++ ok_lines station.now (take passed order.now)) }
{
    for i in 0..passed {
        push_step(alloc, text, station, i + 1, Step::Ok, order.step(i))?;
    }
    Ok(())
}

// Appends the line of the step that is not ok, if there is one.
fn push_stop(
    alloc: Global,
    text: &mut Text,
    station: &Station,
    order: &Order,
    ruling: Ruling,
) -> Result<(), Memory>
    requires order { AreOperations station.now order.now }
    ensures { OnOk result (text.new ≡ text.old ++ stop_of station.now order.now ruling) }
{
    let Some(step) = ruling.stopped else {
        return Ok(());
    };
    if ruling.passed >= order.len() {
        return Ok(());
    }
    push_step(
        alloc,
        text,
        station,
        ruling.passed + 1,
        step,
        order.step(ruling.passed),
    )
}

// Appends the ruling on the order undone.
fn push_back(
    alloc: Global,
    text: &mut Text,
    station: &Station,
    order: &Order,
    back: Ruling,
) -> Result<(), Memory>
    requires order { AreOperations station.now order.now }
    ensures { OnOk result (text.new ≡ text.old ++ back_line station.now order.now back back.stopped) }
{
    if back.stopped.is_none() {
        return text.push(b"back accepted\n");
    }
    text.push(b"back ")?;
    push_stop(alloc, text, station, order, back)
}

// Appends the count of the steps.
fn push_accepted(text: &mut Text, count: u32) -> Result<(), Memory>
    ensures { OnOk result (text.new ≡ text.old ++ codes "accepted " ++ decimal count ++ codes "\n") }
{
    text.push(b"accepted ")?;
    text.push_decimal(count as usize)?;
    text.push(b"\n")
}

// The ruling on the order undone, from the vector at the end of the order.
fn judge_back(
    alloc: Global,
    station: &Station,
    start: &Vector,
    order: &Order,
    back: &Order,
) -> Result<Ruling, Memory>
    requires start { length start.now ≡ length station.now.switches }
    requires order { AreOperations station.now order.now }
    requires back { AreOperations station.now back.now }
    ensures { IfOk result (IsRuling station.now (after_all start.now order.now) back.now) }
{
    let mut end = start.copy(alloc)?;
    order.apply(&mut end);
    judge_order(alloc, station, &end, back)
}

// Appends the ruling on the order undone, from the vector at the end of the order.
fn push_undone(
    alloc: Global,
    text: &mut Text,
    station: &Station,
    start: &Vector,
    order: &Order,
) -> Result<(), Memory>
    requires start { length start.now ≡ length station.now.switches }
    requires order { AreOperations station.now order.now }
    ensures { OnOk result (TellsUndone station.now start.now order.now text.old text.new) }
{
    let back = order.reversed(alloc)?;
    let ruling = judge_back(alloc, station, start, order, &back)?;
    push_back(alloc, text, station, &back, ruling)
}

// Writes the lines of an order, and says whether a step of it is denied or idle.
fn push_order(
    alloc: Global,
    text: &mut Text,
    station: &Station,
    start: &Vector,
    order: &Order,
) -> Result<bool, Memory>
    requires empty { text.old ≡ [] }
    requires start { length start.now ≡ length station.now.switches }
    requires order { AreOperations station.now order.now }
    ensures { IfOk result (λ differs. IsOrderText station.now start.now order.now
        (record { text = text.new; differs = differs })) }
{
    let ruling = judge_order(alloc, station, start, order)?;
    push_passed(alloc, text, station, order, ruling.passed)?;
    if ruling.stopped.is_some() {
        push_stop(alloc, text, station, order, ruling)?;
        return Ok(true);
    }
    push_accepted(text, order.len())?;
    push_undone(alloc, text, station, start, order)?;
    Ok(false)
}

/// The text of `order` for an order from a start: a line for each step that is ok; then the line of the
/// first that is not, or the count of the steps and the ruling on the order undone. The order and the start
/// are of the station. Time: that of `judge_order`, twice, and the text. Memory: the text, and that of
/// `judge_order`.
pub fn order_text(
    alloc: Global,
    station: &Station,
    start: &Vector,
    order: &Order,
) -> Result<OrderReport, Memory>
    requires start { length start.now ≡ length station.now.switches }
    requires order { AreOperations station.now order.now }
    ensures { IfOk result (IsOrderText station.now start.now order.now) }
{
    let mut text = Text::new(alloc);
    let differs = push_order(alloc, &mut text, station, start, order)?;
    Ok(OrderReport { text, differs })
}
