//! What the labels tell, as a law.
ghost use Rattle.std.specs.Prelude.{◌≡◌, ◌↔◌, ℕ, Bool, List, slice_get, Some};
ghost use Rattle.ilk_base.specs.declared.words.Op.{Op};
ghost use Rattle.ilk_base.specs.declared.words.Rule.{Rule};
ghost use Rattle.station_graph.specs.Diagram.{Diagram};
ghost use Rattle.station_changes.specs.declared.change.Change.{Change};
ghost use Rattle.station_changes.specs.Compare.{IsCommon, IsJoint, IsChange};
ghost use Rattle.decision_graphs.specs.Label.{Layered, label_of};
ghost use Rattle.graph_walks.specs.declared.codes.Codes.{Codes};
ghost use Rattle.step_graphs.specs.declared.step.Step.{Step};
ghost use Rattle.station_joints.specs.Together.{AreJointlyGiven};
ghost use Rattle.change_search.specs.Telling.{IsSwitchWalk};
ghost use Rattle.change_search.specs.Searching.{LeadsToChange};

/// The choices that stand for a position of all switches lead to labels that tell a change exactly where the position
/// shows it. So a change by a rule is shown by some position exactly where some choices lead to it, and by an isolated one
/// exactly where isolating choices do. This is a law: the call does nothing.
pub fn labels_tell_changes()
    ensures { (o n : Diagram) (old_steps new_steps : List Step) (place : ℕ) (walk : Layered) (codes : List Codes)
        (a b : Op) (change : Change) (rule : Rule) (u v : List Bool) (cs : List ℕ)
        → IsSwitchWalk o n old_steps new_steps place a.switch.0 b.switch.0 walk codes → IsCommon o n a b
        → IsJoint o n u v → AreJointlyGiven old_steps new_steps place u v cs
        → LeadsToChange walk codes a.direction change rule cs ↔ IsChange o n a b change rule u v }
{}
