//! What the operations of a bay break in a position.
ghost use Rattle.std.specs.Prelude.{◌≡◌, ◌↔◌, ℕ, IsTrue, Some, slice_get, IfOk};
ghost use Rattle.ilk_base.specs.declared.words.Op.{Op as Operation};
ghost use Rattle.station_graph.specs.Alike.{IsVector};
ghost use Rattle.station_graph.specs.CentralRules.{IsOperation};
ghost use Rattle.commissioning_tests.specs.Answering.{AreAnswers, TurnsAt};

use central_rules::breaks;
use dependence_search::one_is_none;
use ilk_base::{Memory, Op, Rule, SwitchId};
use station_graph::{Station, Vector};
use std::alloc::Global;

// The positions as a vector of the station.
pub(crate) fn vector_of(alloc: Global, station: &Station, closed: &[bool]) -> Result<Vector, Memory>
    requires { IsVector station.now closed.now }
    ensures { IfOk result (λ v. v ≡ closed.now) }
{
    let mut vector = Vector::all_open(alloc, station)?;
    for i in 0..station.switch_count() {
        vector.set(SwitchId(i), closed[usize::from(i)]);
    }
    Ok(vector)
}

// For each operation the rule that it breaks in the vector.
pub(crate) fn answers_in(
    alloc: Global,
    station: &Station,
    operations: &[Op],
    vector: &Vector,
) -> Result<Vec<Option<Rule>>, Memory>
    requires vector { IsVector station.now vector.now }
    requires operations { (k : ℕ) (op : Operation) → slice_get operations.now k ≡ Some op → IsOperation station.now op }
    ensures { IfOk result (λ v. AreAnswers station.now operations.now vector.now v.items) }
{
    let mut answers = Vec::new(alloc);
    for k in 0..operations.len() {
        answers.push(breaks(alloc, station, vector, operations[k])?)?;
    }
    Ok(answers)
}

// Whether of the answers of operation k one is none.
pub(crate) fn turns_at(answers: &[Option<Rule>], others: &[Option<Rule>], k: usize) -> bool
    ensures { IsTrue result ↔ TurnsAt k answers.now others.now }
{
    k < answers.len() && k < others.len() && one_is_none(answers[k], others[k])
}
