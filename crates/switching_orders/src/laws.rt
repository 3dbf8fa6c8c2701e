//! The laws on orders.
ghost use Rattle.std.specs.Prelude.{◌≡◌, ℕ, List, Bool, take, slice_get, Some};
ghost use Rattle.ilk_base.specs.declared.words.Op.{Op};
ghost use Rattle.station_graph.specs.Diagram.{Diagram};
ghost use Rattle.station_graph.specs.Supply.{Apart};
ghost use Rattle.switching_orders.specs.OrderRuling.{after_all, IsIdle, IsAcceptedFrom, AreOperations};
ghost use Rattle.switching_orders.specs.Undoing.{undone};

use station_graph::soundness_is_kept;

/// An order undone gives the start: from a vector from which an order is accepted, its steps and then the
/// steps of the order undone lead back to that vector, and no step of the order undone is idle.
pub fn undone_gives_start()
    ensures start { (d : Diagram) (v : List Bool) (ops : List Op) → IsAcceptedFrom d v ops →
        after_all (after_all v ops) (undone ops) ≡ v }
    ensures never_idle { (d : Diagram) (v : List Bool) (ops : List Op) → IsAcceptedFrom d v ops
        → (k : ℕ) (op : Op) → slice_get (undone ops) k ≡ Some op →
        ¬ IsIdle (after_all (after_all v ops) (take k (undone ops))) op }
{}

/// An accepted order keeps apart what is energisable and earthable: from a vector in which no node is both,
/// each vector on the way of an accepted order is again one in which no node is both.
pub fn accepted_keeps_apart()
    ensures { (d : Diagram) (v : List Bool) (ops : List Op) → AreOperations d ops → Apart d v → IsAcceptedFrom d v ops
        → (k : ℕ) → Apart d (after_all v (take k ops)) }
{
    soundness_is_kept();
}
