//! Which choices are isolating.
ghost use Rattle.std.specs.Prelude.{◌≡◌, ℕ, suc, Bool, true, List, length, map, replicate};
ghost use Rattle.graph_walks.specs.Walks.{set_for};
ghost use Rattle.step_graphs.specs.declared.step.Step.{Step};
ghost use Rattle.change_search.specs.Showing.{AreFree, AllowIsolating, AllowAll};

/// The sets that `graph_walks::allowed_sets` makes allow exactly the isolating choices where the steps of switches of both
/// stations are free, and all choices where all are. This is a law: the call does nothing.
pub fn free_steps_allow()
    ensures isolating { (old_steps new_steps : List Step) (place : ℕ) (free : List Bool)
        → length old_steps ≡ length new_steps → AreFree old_steps new_steps place free
        → AllowIsolating old_steps new_steps place (map set_for free) }
    ensures all { (old_steps : List Step) (others : ℕ) → suc others ≡ length old_steps
        → AllowAll old_steps (map set_for (replicate others true)) }
{}
