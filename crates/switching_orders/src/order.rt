//! An order.
ghost use Rattle.std.specs.Prelude.{◌≡◌, ◌<◌, ◌≤◌, ℕ, length, slice_get, Some, IfOk};
ghost use Rattle.switching_orders.specs.declared.order.TheConstants.{MOST_STEPS};
ghost use Rattle.station_graph.specs.CentralRules.{wanted_end};
ghost use Rattle.switching_orders.specs.OrderRuling.{after_all, MoveSwitches};
ghost use Rattle.switching_orders.specs.Undoing.{other_way, opposite, undone};

use ilk_base::{Direction, Memory, Op};
use station_graph::Vector;
use std::alloc::Global;
use std::marker::Model;

/// The most steps of an order.
pub const MOST_STEPS: usize = 20_000;

// The position to which an operation in this direction moves its switch.
pub(crate) fn wanted_end(direction: Direction) -> bool
    ensures { result ≡ wanted_end direction }
{
    match direction {
        Direction::ToOff => false,
        Direction::ToOn => true,
    }
}

// The other direction.
fn other_way(direction: Direction) -> Direction
    ensures { result ≡ other_way direction }
{
    match direction {
        Direction::ToOff => Direction::ToOn,
        Direction::ToOn => Direction::ToOff,
    }
}

// The operation in the other direction.
fn opposite(op: Op) -> Op
    ensures { result ≡ opposite op }
{
    Op {
        switch: op.switch,
        direction: other_way(op.direction),
    }
}

// The steps from the last to the first, each in the other direction.
fn undone(alloc: Global, steps: &[Op]) -> Result<Vec<Op>, Memory>
    ensures undone { IfOk result (λ v. v.items ≡ undone steps.now) }
    ensures switches { IfOk result (λ v. (count : ℕ) → MoveSwitches count steps.now → MoveSwitches count v.items) }
    ensures few { IfOk result (λ v. length v.items ≡ length steps.now) }
{
    Ok(steps.iter().rev().map(|op| opposite(*op)).collect(alloc)?)
}

// Moves the switches of all steps.
fn move_all(steps: &[Op], vector: &mut Vector)
    requires { MoveSwitches (length vector.old) steps.now }
    ensures count { length vector.new ≡ length vector.old }
    ensures moved { vector.new ≡ after_all vector.old steps.now }
{
    for op in steps {
        vector.set(op.switch, wanted_end(op.direction));
    }
}

/// An order of switching, seen as the list of its steps. It is made by `read_order`, and has at most
/// `MOST_STEPS` steps.
#[derive(Drop)]
pub struct Order {
    pub(crate) steps: Vec<Op>,
}

impl Model for Order {
    ghost use Rattle.std.specs.Prelude.{List, length, ◌≤◌};
    ghost use Rattle.ilk_base.specs.declared.words.Op.{Op};
    ghost use Rattle.switching_orders.specs.declared.order.TheConstants.{MOST_STEPS};

    ghost Value = { List Op };

    ghost view = { λ o. o.steps.items };

    ghost invariant = { λ o. length o.steps.items ≤ MOST_STEPS };
}

impl Order {
    /// How many steps there are, at once.
    pub fn len(&self) -> u32
        ensures count { result ≡ length self.now }
        ensures few { length self.now ≤ MOST_STEPS }
    {
        self.steps.len() as u32
    }

    /// The step at this place, from 0, at once.
    pub fn step(&self, i: u32) -> Op
        requires { i < length self.now }
        ensures { slice_get self.now i ≡ Some result }
    {
        self.steps[i as usize]
    }

    /// Moves the switch of each step in turn, whatever the rules say. Every step is of the station of the
    /// vector. Time: the steps. Takes no memory.
    pub fn apply(&self, vector: &mut Vector)
        requires { MoveSwitches (length vector.old) self.now }
        ensures count { length vector.new ≡ length vector.old }
        ensures moved { vector.new ≡ after_all vector.old self.now }
    {
        move_all(&self.steps, vector);
    }

    /// The order undone: the steps from the last to the first, each in the other direction. Time and
    /// memory: the steps.
    pub fn reversed(&self, alloc: Global) -> Result<Order, Memory>
        ensures undone { IfOk result (λ o. o ≡ undone self.now) }
        ensures switches { IfOk result (λ o. (count : ℕ) → MoveSwitches count self.now → MoveSwitches count o) }
    {
        Ok(Order {
            steps: undone(alloc, &self.steps)?,
        })
    }
}
