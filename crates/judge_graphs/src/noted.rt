//! Graphs that were made before, so that bays that look the same share them.
ghost use Rattle.std.specs.Prelude.{◌≡◌, ℕ, suc, ◌+◌, ◌*◌, ◌<◌, ◌≤◌, ◌⊎◌, length, map, slice_get, Some, IfOk, IfErr, IfSome};
ghost use Rattle.std.specs.Prelude.{OnOk, IsTrue};
ghost use Rattle.contraction.specs.Renaming.{KeepsOrder};
ghost use Rattle.judge_pool.specs.Pooling.{IsPool, GrewTo, Extends};
ghost use Rattle.judge_pool.specs.Places.{pool_on};
ghost use Rattle.judge_pool.specs.Plans.{Plan, PlanFits, PlanPasses, AreLinked};
ghost use Rattle.judge_graphs.specs.Noting.{letter_rows, SameIntake, IsNoted, AreRight, AreOuter, IsTaken};
ghost use Rattle.judge_graphs.specs.declared.noted.Noted.{Noted as Note};
ghost use Rattle.judge_pool.specs.declared.layer.Trouble.TheVariants.{Wide};
ghost use Rattle.judge_pool.specs.declared.limits.TheConstants.{BAY_EDGES};
ghost use Rattle.decision_graphs.specs.declared.limits.TheConstants.{LAYERS};

use decision_graphs::{Folds, Graph};
use ilk_base::Memory;
use judge_pool::{Pool, Trouble, fold_layers};
use std::alloc::Global;
use std::rc::Rc;

// What the layers of a graph take in, by the numbers of a pool: the start, the letters of each layer, and the
// nodes kept before each and after the last.
#[derive(Drop)]
pub(crate) struct Intake {
    pub(crate) start: usize,
    pub(crate) letters: Vec<Vec<usize>>,
    pub(crate) keeps: Vec<usize>,
}

// A graph, the values that its labels name, what its layers took in, and how many edges these have.
#[derive(Drop)]
pub(crate) struct Noted {
    pub(crate) intake: Intake,
    pub(crate) graph: Rc<Graph>,
    pub(crate) names: Vec<usize>,
    pub(crate) edges: usize,
}

// A noted graph, which its note holds too, the values that its labels name, and how many edges are left of those that
// may be made.
#[derive(Drop)]
pub(crate) struct TakenGraph {
    pub(crate) graph: Rc<Graph>,
    pub(crate) names: Vec<usize>,
    pub(crate) left: usize,
}

// The place of a note, and how many edges are left beside those of its graph.
#[derive(Clone, Copy)]
pub(crate) struct NotePlace {
    pub(crate) place: usize,
    pub(crate) left: usize,
}

// Whether two lists of numbers are the same.
fn same_row(one: &Vec<usize>, other: &Vec<usize>) -> bool
    ensures { IsTrue result → one.now.items ≡ other.now.items }
{
    one == other
}

// Whether two lists of rows are the same.
fn same_rows(one: &[Vec<usize>], other: &[Vec<usize>]) -> bool
    ensures { IsTrue result → map (λ v. v.items) one.now ≡ map (λ v. v.items) other.now }
{
    if one.len() != other.len() {
        return false;
    }
    for place in 0..one.len() {
        if !same_row(&one[place], &other[place]) {
            return false;
        }
    }
    true
}

// Whether layers take in the same.
fn same_intake(one: &Intake, other: &Intake) -> bool
    ensures { IsTrue result → SameIntake one.now other.now }
{
    one.start == other.start
        && same_row(&one.keeps, &other.keeps)
        && same_rows(&one.letters, &other.letters)
}

// The graph, to be held by more than one owner.
fn shared(alloc: Global, graph: Graph) -> Result<Rc<Graph>, Memory>
    ensures { IfOk result (λ r. r.value ≡ graph) }
{
    let held = Rc::new(alloc, graph)?;
    Ok(held)
}

// The graph of layers that take this in. It is too wide where they have more than so many edges.
fn note(
    alloc: Global,
    pool: &mut Pool,
    folds: &mut Folds,
    intake: Intake,
    budget: usize,
) -> Result<Noted, Trouble>
    requires pool { IsPool pool.old }
    requires linked { AreLinked pool.old intake.start (letter_rows intake) intake.keeps.items }
    requires few { length (letter_rows intake) ≤ LAYERS }
    requires budget { budget ≤ 2 * BAY_EDGES + 1 }
    ensures grew { OnOk result (GrewTo pool.old pool.new) }
    ensures noted { IfOk result (IsNoted pool.new) }
    ensures few { IfOk result (λ n. length n.names.items ≤ suc budget) }
    ensures intake { IfOk result (λ n. n.intake ≡ intake) }
    ensures within { IfOk result (λ n. n.edges ≤ budget) }
    ensures wide { IfErr result (λ e. e ≡ Wide → (f : ℕ → ℕ) (plan : Plan) → KeepsOrder f →
        PlanFits plan (pool_on f pool.old) intake.start (letter_rows intake) intake.keeps.items
        → PlanPasses pool.old.view plan (letter_rows intake) budget) }
{
    let drafts = fold_layers(
        alloc,
        pool,
        intake.start,
        &intake.letters,
        &intake.keeps,
        budget,
    )?;
    let states = drafts.states.as_slice();
    let whole = Graph::from_layers(alloc, states.len() as u32, &drafts.layers)?;
    let reduced = whole.reduce_by(alloc, folds)?;
    let graph = shared(alloc, reduced)?;
    let edges = budget - drafts.left;
    Ok(Noted {
        intake,
        graph,
        names: drafts.states,
        edges,
    })
}

// How many of so many edges are left beside those of a noted graph. It is too wide where it has more.
fn edges_left(noted: &Noted, budget: usize) -> Result<usize, Trouble>
    ensures all { IfOk result (λ left. noted.now.edges + left ≡ budget) }
    ensures wide { IfErr result (λ e. e ≡ Wide → budget < noted.now.edges) }
{
    if noted.edges > budget {
        return Err(Trouble::Wide);
    }
    Ok(budget - noted.edges)
}

// A noted graph with its names. It is too wide where its layers have more than so many edges.
fn take_noted(alloc: Global, noted: &Noted, budget: usize) -> Result<TakenGraph, Trouble>
    ensures graph { IfOk result (λ o. o.graph.value ≡ noted.now.graph.value) }
    ensures names { IfOk result (λ o. o.names.items ≡ noted.now.names.items) }
    ensures all { IfOk result (λ o. noted.now.edges + o.left ≡ budget) }
    ensures wide { IfErr result (λ e. e ≡ Wide → budget < noted.now.edges) }
{
    let left = edges_left(noted, budget)?;
    Ok(TakenGraph {
        graph: noted.graph.clone()?,
        names: Vec::from_slice(alloc, &noted.names)?,
        left,
    })
}

// The place of the note of layers that take this in, if there is one.
fn find_noted(notes: &[Noted], intake: &Intake) -> Option<usize>
    ensures { IfSome result (λ k. (n : Note) × (slice_get notes.now k ≡ Some n) × SameIntake n.intake intake.now) }
{
    for place in 0..notes.len() {
        if same_intake(&notes[place].intake, intake) {
            return Some(place);
        }
    }
    None
}

// The place of the note of layers that take this in. Their graph is made and noted only where there is none.
fn noted_at(
    alloc: Global,
    pool: &mut Pool,
    folds: &mut Folds,
    notes: &mut Vec<Noted>,
    intake: Intake,
    budget: usize,
) -> Result<usize, Trouble>
    requires pool { IsPool pool.old }
    requires notes { AreRight pool.old notes.old.items }
    requires linked { AreLinked pool.old intake.start (letter_rows intake) intake.keeps.items }
    requires few { length (letter_rows intake) ≤ LAYERS }
    requires budget { budget ≤ 2 * BAY_EDGES + 1 }
    ensures grew { OnOk result (GrewTo pool.old pool.new) }
    ensures notes { OnOk result (AreRight pool.new notes.new.items) }
    ensures more { OnOk result (Extends notes.old.items notes.new.items) }
    ensures new { OnOk result ((k : ℕ) (n : Note) → slice_get notes.new.items k ≡ Some n
        → (slice_get notes.old.items k ≡ Some n) ⊎ (length n.names.items ≤ suc budget)) }
    ensures noted { IfOk result (λ k. (n : Note) × (slice_get notes.new.items k ≡ Some n)
        × SameIntake n.intake intake) }
    ensures wide { IfErr result (λ e. e ≡ Wide → (f : ℕ → ℕ) (plan : Plan) → KeepsOrder f →
        PlanFits plan (pool_on f pool.old) intake.start (letter_rows intake) intake.keeps.items
        → PlanPasses pool.old.view plan (letter_rows intake) budget) }
{
    let held = notes.as_slice();
    if let Some(place) = find_noted(held, &intake) {
        return Ok(place);
    }
    let place = held.len();
    let noted = note(alloc, pool, folds, intake, budget)?;
    notes.push(noted)?;
    Ok(place)
}

// The note of layers that take this in, made only where there is none. It is too wide where its layers have more than
// so many edges.
pub(crate) fn taken_again(
    alloc: Global,
    pool: &mut Pool,
    folds: &mut Folds,
    notes: &mut Vec<Noted>,
    intake: Intake,
    budget: usize,
) -> Result<NotePlace, Trouble>
    requires pool { IsPool pool.old }
    requires notes { AreRight pool.old notes.old.items }
    requires linked { AreLinked pool.old intake.start (letter_rows intake) intake.keeps.items }
    requires few { length (letter_rows intake) ≤ LAYERS }
    requires budget { budget ≤ 2 * BAY_EDGES + 1 }
    ensures grew { OnOk result (GrewTo pool.old pool.new) }
    ensures notes { OnOk result (AreRight pool.new notes.new.items) }
    ensures more { OnOk result (Extends notes.old.items notes.new.items) }
    ensures taken { IfOk result (λ t. (n : Note) × (slice_get notes.new.items t.place ≡ Some n)
        × SameIntake n.intake intake × (n.edges + t.left ≡ budget)) }
    ensures wide { IfErr result (λ e. e ≡ Wide → (f : ℕ → ℕ) (plan : Plan) → KeepsOrder f →
        PlanFits plan (pool_on f pool.old) intake.start (letter_rows intake) intake.keeps.items
        → PlanPasses pool.old.view plan (letter_rows intake) budget) }
{
    let place = noted_at(alloc, pool, folds, notes, intake, budget)?;
    let held = notes.as_slice();
    let left = edges_left(&held[place], budget)?;
    Ok(NotePlace { place, left })
}

// The graph of layers that take this in, with what its labels name; it is made only where none that is noted took in
// the same.
pub(crate) fn taken(
    alloc: Global,
    pool: &mut Pool,
    folds: &mut Folds,
    notes: &mut Vec<Noted>,
    intake: Intake,
    budget: usize,
) -> Result<TakenGraph, Trouble>
    requires pool { IsPool pool.old }
    requires notes { AreOuter pool.old notes.old.items }
    requires linked { AreLinked pool.old intake.start (letter_rows intake) intake.keeps.items }
    requires few { length (letter_rows intake) ≤ LAYERS }
    requires budget { budget ≤ BAY_EDGES }
    ensures grew { OnOk result (GrewTo pool.old pool.new) }
    ensures notes { OnOk result (AreOuter pool.new notes.new.items) }
    ensures taken { IfOk result (IsTaken pool.new intake budget) }
    ensures few { IfOk result (λ o. length o.names.items ≤ BAY_EDGES + 1) }
    ensures wide { IfErr result (λ e. e ≡ Wide → (f : ℕ → ℕ) (plan : Plan) → KeepsOrder f →
        PlanFits plan (pool_on f pool.old) intake.start (letter_rows intake) intake.keeps.items
        → PlanPasses pool.old.view plan (letter_rows intake) budget) }
{
    let place = noted_at(alloc, pool, folds, notes, intake, budget)?;
    let held = notes.as_slice();
    let outer = take_noted(alloc, &held[place], budget)?;
    Ok(outer)
}
