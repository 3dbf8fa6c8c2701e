//! A law on the width of walks: a call that does nothing.
ghost use Rattle.std.specs.Prelude.{ℕ, List};
ghost use Rattle.station_graph.specs.Diagram.{Diagram};
ghost use Rattle.step_graphs.specs.declared.step.Step.{Step};
ghost use Rattle.step_graphs.specs.Steps.{AreSteps};
ghost use Rattle.dependence_search.specs.Width.{IsNarrow, IsTooWide};

use change_search::keeping_excludes_passing;

/// Along given steps the walk of a switch is not both narrow and too wide. This is a law: the call does nothing.
pub fn narrow_excludes_wide()
    ensures { (d : Diagram) (steps : List Step) (m limit : ℕ) → AreSteps d steps → IsNarrow d steps m limit
        → ¬ IsTooWide d steps m limit }
{
    keeping_excludes_passing();
}
