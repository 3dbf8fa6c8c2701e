//! A law on the room of walks, a call that does nothing.
ghost use Rattle.std.specs.Prelude.{ℕ};
ghost use Rattle.decision_graphs.specs.Label.{Layered};
ghost use Rattle.graph_walks.specs.Telling.{TellAlike};
ghost use Rattle.graph_walks.specs.Walks.{HasWalkRoom, IsWideWalk};

/// Whether four graphs can be walked within a budget depends on nothing but on which lists of choices each of them tells
/// apart: where four have room, no four that tell the same apart are too wide. So a walk that is too wide has no room,
/// whatever numbers its nodes have.
pub fn room_excludes_width()
    ensures { (g h k l p q r s : Layered) (n budget : ℕ) → TellAlike n g p → TellAlike n h q → TellAlike n k r
        → TellAlike n l s → HasWalkRoom g h k l n budget → ¬ IsWideWalk p q r s n budget }
{}
