//! Laws on tests, each a call that does nothing.
ghost use Rattle.std.specs.Prelude.{◌≡◌, ℕ, List, Some, slice_get};
ghost use Rattle.ilk_base.specs.declared.words.Op.{Op as Operation};
ghost use Rattle.ilk_base.specs.declared.words.Rule.{Rule as AnyRule};
ghost use Rattle.station_graph.specs.Diagram.{Diagram, IsStation};
ghost use Rattle.release_dependence.specs.Depends.{DependsOn};
ghost use Rattle.central_rules.specs.Meaning.{IsBay};
ghost use Rattle.like_bays.specs.Like.{AreLike};
ghost use Rattle.step_graphs.specs.declared.step.Step.{Step};
ghost use Rattle.commissioning_tests.specs.Controllers.{Controller, Differs, FindsStuck, LeavesOut, Matters};
ghost use Rattle.commissioning_tests.specs.Covering.{AreTestsOf};
ghost use Rattle.commissioning_tests.specs.Likewise.{AreTestsOfLike};
ghost use Rattle.commissioning_tests.specs.Refusing.{IsNarrowBy, IsWideBy};
ghost use Rattle.commissioning_tests.specs.Shared.{AreStationTests, IsTestedBy};
ghost use Rattle.commissioning_tests.specs.declared.values.BayTests.{BayTests as Tests};
ghost use Rattle.commissioning_tests.specs.declared.values.SharedTests.{SharedTests as Shared};

use dependence_search::narrow_excludes_wide;

/// In the tests of a station each bay has its own tests, or is listed as one that is like an earlier bay that has. This is
/// a law: the call does nothing.
pub fn each_bay_is_tested()
    ensures { (d : Diagram) (all : List Shared) (p : ℕ) → AreStationTests d all → IsBay d p → IsTestedBy d all p }
{}

/// The tests of a bay, with all switches exchanged as the two bays are, are tests of a bay that is like it: each line is
/// what the rules say of the exchanged operation in the exchanged vector, and none is missing. This is a law: the call
/// does nothing.
pub fn like_bays_are_tested()
    ensures { (d : Diagram) (one other : ℕ) (t : Tests) (like : AreLike d one other) → AreTestsOf d one t
        → AreTestsOfLike d like.exchange.switch_to other t }
{}

/// The tests of a bay find each stuck input that matters: where the release of one of its operations depends on a switch,
/// every controller that takes this switch, or one that stands for it, for always open or always closed differs from the
/// tests in some line. Of the bay's own switches each stands for itself alone. This is a law: the call does nothing.
pub fn stuck_inputs_are_found()
    ensures { (d : Diagram) (bay : ℕ) (t : Tests) (are : AreTestsOf d bay t) (k s : ℕ) (op : Operation)
        → slice_get t.operations.items k ≡ Some op → DependsOn d op s → FindsStuck d are.first are.count t s }
{}

/// The tests of a bay find each rule that is left out, if it matters to one of its operations: a controller that knows the
/// other two rules alone differs from the tests in some line. This is a law: the call does nothing.
pub fn left_out_rules_are_found()
    ensures { (d : Diagram) (bay : ℕ) (t : Tests) → IsStation d → AreTestsOf d bay t → (k : ℕ) (op : Operation)
        → slice_get t.operations.items k ≡ Some op → (releases : Controller) (rule : AnyRule)
        → LeavesOut d rule releases → Matters d op rule → Differs releases t }
{}

/// Along given steps no bay is both narrow and too wide. This is a law: the call does nothing.
pub fn narrow_bays_are_not_wide()
    ensures { (d : Diagram) (steps : List Step) (bay limit : ℕ) → IsNarrowBy d steps bay limit
        → ¬ IsWideBy d steps bay limit }
{
    narrow_excludes_wide();
}
