//! One layer of a graph: from the values of its nodes to those of the next.
ghost use Rattle.std.specs.Prelude.{◌≡◌, [], ◌∷◌, ℕ, suc, ◌+◌, ◌*◌, ◌<◌, ◌≤◌, length, map, slice_get, sum_by, List, ◌++◌};
ghost use Rattle.std.specs.Prelude.{Some, IfOk, IfErr, OnOk, IsTrue, IsFalse};
ghost use Rattle.decision_graphs.specs.Finished.{AreFinished};
ghost use Rattle.contraction.specs.Renaming.{KeepsOrder, mapped};
ghost use Rattle.judge_pool.specs.Pooling.{IsPool, GrewTo, EitherKeeps};
ghost use Rattle.judge_pool.specs.Places.{pool_on};
ghost use Rattle.judge_pool.specs.Layering.{AreSeats, AreAdded, NameAll, at_places, values_at};
ghost use Rattle.judge_pool.specs.Pooling.{AreEdges};
ghost use Rattle.judge_pool.specs.Counted.{Spends};
ghost use Rattle.judge_pool.specs.Folding.{IsExact, ReachesMore};
ghost use Rattle.judge_pool.specs.declared.layer.Trouble.TheVariants.{Wide};
ghost use Rattle.judge_pool.specs.Plans.{Plan, PlanFits, PlanHas, PlanPasses, AreLinked, plan_diagram, ChosenBy};
ghost use Rattle.judge_pool.specs.Plans.{items_of, NeededBy, layers_of};
ghost use Rattle.judge_pool.specs.declared.limits.TheConstants.{ALL_EDGES};

use crate::pool::Pool;
use crate::seats::add_places;
use ilk_base::Memory;
use std::alloc::{AllocError, AllocFailed, Global};

/// Why layers were not built.
#[derive(Clone, Copy, PartialEq, Eq)]
pub enum Trouble {
    /// there was not enough memory
    Memory,
    /// they have too many edges
    Wide,
}

impl From<Memory> for Trouble {
    ghost use Rattle.std.specs.Prelude.{◌≡◌};
    ghost use Rattle.judge_pool.specs.declared.layer.Trouble.TheVariants.{Memory};

    ghost from_gives = { λ _ e. e ≡ Memory };

    fn from(_: Memory) -> Trouble {
        Trouble::Memory
    }
}

impl From<AllocError> for Trouble {
    ghost use Rattle.std.specs.Prelude.{◌≡◌};
    ghost use Rattle.judge_pool.specs.declared.layer.Trouble.TheVariants.{Memory};

    ghost from_gives = { λ _ e. e ≡ Memory };

    fn from(_: AllocError) -> Trouble {
        Trouble::Memory
    }
}

impl<T: Drop> From<AllocFailed<T>> for Trouble {
    ghost use Rattle.std.specs.Prelude.{◌≡◌};
    ghost use Rattle.judge_pool.specs.declared.layer.Trouble.TheVariants.{Memory};

    ghost from_gives = { λ _ e. e ≡ Memory };

    fn from(_: AllocFailed<T>) -> Trouble {
        Trouble::Memory
    }
}

// The edges of a layer, state by state, and the values to which they lead.
#[derive(Drop)]
pub(crate) struct Step {
    pub(crate) next: Vec<usize>,
    pub(crate) edges: Vec<u32>,
}

// The letters of a layer, each once, and for each choice the place of its letter among them.
#[derive(Drop)]
struct Distinct {
    letters: Vec<usize>,
    places: Vec<usize>,
}

// The letters, each once. Letters that differ in the other view alone are one value here.
fn each_once(alloc: Global, seats: &mut Vec<usize>, letters: &[usize]) -> Result<Distinct, Memory>
    ensures { IfOk result (λ d. AreAdded [] [] letters.now d.letters.items d.places.items) }
{
    let mut once = Vec::new(alloc);
    let mut places = Vec::new(alloc);
    add_places(&mut once, seats, &mut places, letters)?;
    Ok(Distinct {
        letters: once,
        places,
    })
}

// Adds the edges of a state: for each choice the place to which its letter leads.
fn add_edges(edges: &mut Vec<u32>, ends: &[usize], places: &[usize]) -> Result<(), Memory>
    requires within { (c k : ℕ) → slice_get places.now c ≡ Some k → k < length ends.now }
    requires short { (k t : ℕ) → slice_get ends.now k ≡ Some t → t < ALL_EDGES }
    ensures { OnOk result (edges.new.items ≡ edges.old.items ++ at_places ends.now places.now) }
{
    for c in 0..places.len() {
        let to = ends[places[c]];
        edges.push(to as u32)?;
    }
    Ok(())
}

// Adds the edges of a state, which each letter leads to one of these values. They are put at the end of the next layer
// where it has not got them. Their places there are held in a list that serves each state.
fn add_state(
    next: &mut Vec<usize>,
    seats: &mut Vec<usize>,
    ends: &mut Vec<usize>,
    edges: &mut Vec<u32>,
    ids: &[usize],
    places: &[usize],
) -> Result<(), Memory>
    requires seats { AreSeats next.old.items seats.old.items }
    requires few { length next.old.items + length ids.now ≤ ALL_EDGES }
    requires places { NameAll (length ids.now) places.now }
    ensures seats { OnOk result (AreSeats next.new.items seats.new.items) }
    ensures added { OnOk result
        (AreAdded next.old.items edges.old.items (at_places ids.now places.now) next.new.items edges.new.items) }
{
    ends.clear();
    add_places(next, seats, ends, ids)?;
    add_edges(edges, ends, places)?;
    Ok(())
}

// From the values of a layer, by the letters of its choices, to those of the next layer. It is too wide, and no more of
// it is made, as soon as the next layer has more than so many values. Any seats do.
pub(crate) fn next_layer(
    alloc: Global,
    pool: &mut Pool,
    seats: &mut Vec<usize>,
    states: &[usize],
    letters: &[usize],
    keep: usize,
    most: usize,
) -> Result<Step, Trouble>
    requires pool { IsPool pool.old }
    requires states { (k i : ℕ) → slice_get states.now k ≡ Some i → i < length pool.old.values.items }
    requires letters { (c j : ℕ) → slice_get letters.now c ≡ Some j → j < length pool.old.values.items }
    requires some { 0 < length letters.now }
    requires few { length states.now * length letters.now ≤ ALL_EDGES }
    requires keep { keep < length pool.old.keeps.items }
    requires nodes { (k c i j : ℕ) → slice_get states.now k ≡ Some i → slice_get letters.now c ≡ Some j →
        EitherKeeps pool.old i j keep }
    ensures grew { OnOk result (GrewTo pool.old pool.new) }
    ensures few { IfOk result (λ s. length s.next.items ≤ length states.now * length letters.now) }
    ensures edges { IfOk result (λ s. (nodes : List ℕ) → slice_get pool.old.keeps.items keep ≡ Some nodes
        → AreEdges pool.new.view pool.new.values.items nodes states.now letters.now s.next.items s.edges.items
        (length states.now * length letters.now)) }
    ensures wide { IfErr result (λ e. e ≡ Wide → (nodes : List ℕ) → slice_get pool.old.keeps.items keep ≡ Some nodes
        → ReachesMore pool.old.view nodes (values_at pool.old.values.items states.now)
        (values_at pool.old.values.items letters.now) most) }
{
    let mut next = Vec::new(alloc);
    let mut edges = Vec::with_capacity(alloc, states.len() * letters.len())?;
    let mut ids = Vec::new(alloc);
    let mut ends = Vec::new(alloc);
    let by = each_once(alloc, seats, letters)?;
    let once = by.letters.as_slice();
    let places = by.places.as_slice();
    let number = pool.note_letters(alloc, once)?;
    let shared = pool.select_all(alloc, states, once, keep)?;
    'states: for k in 0..states.len() {
        if next.len() > most {
            return Err(Trouble::Wide);
        }
        let start = pool.batch(alloc, &mut ids, states[k], once, number, keep, &shared)?;
        let end = start + once.len();
        add_state(
            &mut next,
            seats,
            &mut ends,
            &mut edges,
            &pool.made[start..end],
            places,
        )?;
    }
    Ok(Step { next, edges })
}
