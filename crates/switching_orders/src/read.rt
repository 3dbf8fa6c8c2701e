//! The text of an order.
ghost use Rattle.std.specs.Prelude.{◌≡◌, ◌≤◌, length, IfOk, IfErr};
ghost use Rattle.switching_orders.specs.OrderRuling.{AreOperations};
ghost use Rattle.switching_orders.specs.OrderLines.{IsOrder, IsOrderFault};
ghost use Rattle.ilk_base.specs.Inputs.{ForRefused};

use crate::order::{MOST_STEPS, Order};
use ilk_base::FILE_BYTES;
use operation_lines::read_operation;
use station_graph::Station;
use std::alloc::Global;
use text_lines::Lines;

/// Why a text gave no order.
pub use ilk_base::InputFault as OrderFault;

/// Reads an order: a line `open PATH` or `close PATH` for each step (docs/FORMATS.md). Lines end with LF or
/// CR LF, and the last may end with the text; empty lines are passed over and counted. A text is refused at
/// its first line with a fault, with the fault's number and the line's, from 1. In one line the faults come
/// in this order: 9 it comes after `MOST_STEPS` steps; 10 it is not of the form; 2 no switch has its path.
/// 5, with line 0 and before all others: more than 8,388,608 bytes.
///
/// Time: the bytes. Memory: the steps.
pub fn read_order(alloc: Global, station: &Station, bytes: &[u8]) -> Result<Order, OrderFault>
    ensures ok { IfOk result (IsOrder station.now bytes.now) }
    ensures switches { IfOk result (AreOperations station.now) }
    ensures err { IfErr result (λ e. ForRefused e (IsOrderFault station.now bytes.now)) }
{
    if bytes.len() > FILE_BYTES {
        return Err(OrderFault::refused(5, 0));
    }
    let mut steps = Vec::new(alloc);
    let mut lines = Lines::new(bytes);
    while let Some((number, line)) = lines.next_filled() {
        if steps.len() >= MOST_STEPS {
            return Err(OrderFault::refused(9, number));
        }
        match read_operation(station, line) {
            Ok(op) => steps.push(op)?,
            Err(fault) => return Err(OrderFault::refused(fault.number(), number)),
        }
    }
    Ok(Order { steps })
}
