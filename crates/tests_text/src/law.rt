//! Laws on tests that can be written.
ghost use Rattle.std.specs.Prelude.{ℕ, List, All};
ghost use Rattle.station_graph.specs.Diagram.{Diagram};
ghost use Rattle.commissioning_tests.specs.Covering.{AreTestsOf};
ghost use Rattle.commissioning_tests.specs.declared.values.BayTests.{BayTests as Tests};
ghost use Rattle.commissioning_tests.specs.declared.values.SharedTests.{SharedTests as Shared};
ghost use Rattle.commissioning_tests.specs.Shared.{AreStationTests};
ghost use Rattle.tests_text.specs.Fitting.{SharedFit, TestsFit};

/// Tests of a bay of a station fit the station, so that `tests_text` can write them. This is a law: the call does
/// nothing.
pub fn tests_fit()
    ensures { (d : Diagram) (bay : ℕ) (t : Tests) → AreTestsOf d bay t → TestsFit d t }
{}

/// Tests of a station fit it, so that `station_tests_text` can write them. This is a law: the call does nothing.
pub fn station_tests_fit()
    ensures { (d : Diagram) (all : List Shared) → AreStationTests d all → All (SharedFit d) all }
{}
