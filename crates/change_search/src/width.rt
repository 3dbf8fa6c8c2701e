//! That a walk which keeps its limit is not too wide, as a law.
ghost use Rattle.std.specs.Prelude.{◌≡◌, ℕ, List, length};
ghost use Rattle.station_graph.specs.Diagram.{Diagram};
ghost use Rattle.step_graphs.specs.declared.step.Step.{Step};
ghost use Rattle.step_graphs.specs.Steps.{AreSteps};
ghost use Rattle.change_search.specs.Passing.{IsWideSwitchWalk, KeepsSwitchWalk};

/// The walk of a switch along given steps of both stations does not both keep its limit and pass it: the views that are
/// distinct are counted once, and the graphs that are walked tell the same apart whatever numbers their nodes have. This
/// is a law: the call does nothing.
pub fn keeping_excludes_passing()
    ensures { (o n : Diagram) (old_steps new_steps : List Step) (b i k limit : ℕ)
        → AreSteps o old_steps → AreSteps n new_steps → length old_steps ≡ length new_steps
        → KeepsSwitchWalk o n old_steps new_steps b i k limit
        → ¬ IsWideSwitchWalk o n old_steps new_steps b i k limit }
{}
