//! The layers of a graph, one after another.
ghost use Rattle.std.specs.Prelude.{◌≡◌, [], ◌∷◌, ℕ, suc, ◌+◌, ◌*◌, ◌<◌, ◌≤◌, length, map, slice_get, sum_by, List};
ghost use Rattle.std.specs.Prelude.{Some, IfOk, IfErr, OnOk, IsTrue, IsFalse};
ghost use Rattle.decision_graphs.specs.Finished.{AreFinished};
ghost use Rattle.contraction.specs.Renaming.{KeepsOrder, mapped};
ghost use Rattle.judge_pool.specs.Pooling.{IsPool, GrewTo, EitherKeeps};
ghost use Rattle.judge_pool.specs.Places.{pool_on};
ghost use Rattle.judge_pool.specs.Layering.{IsPlaced, AreAdded, values_at};
ghost use Rattle.judge_pool.specs.Pooling.{AreEdges};
ghost use Rattle.judge_pool.specs.Counted.{Spends};
ghost use Rattle.judge_pool.specs.Folding.{IsExact, ReachesMore};
ghost use Rattle.judge_pool.specs.declared.layer.Trouble.TheVariants.{Wide};
ghost use Rattle.judge_pool.specs.Plans.{Plan, PlanFits, PlanHas, PlanPasses, AreLinked, plan_diagram, ChosenBy};
ghost use Rattle.judge_pool.specs.Plans.{items_of, NeededBy, layers_of};
ghost use Rattle.judge_pool.specs.declared.limits.TheConstants.{ALL_EDGES};

use crate::known::LayerKey;
use crate::layer::Trouble;
use crate::past::step_from;
use crate::pool::Pool;
use decision_graphs::FinishedLayer;
use ilk_base::Memory;
use std::alloc::Global;

/// Layers of a graph that has no labels yet.
#[derive(Drop)]
pub struct Drafts {
    /// the layers
    pub layers: Vec<FinishedLayer>,
    /// the numbers of the values to which the last layer leads
    pub states: Vec<usize>,
    /// how many edges are left of those that may be made
    pub left: usize,
}

// The list of one number.
fn list_of(alloc: Global, id: usize) -> Result<Vec<usize>, Memory>
    ensures { IfOk result (λ v. v.items ≡ id ∷ []) }
{
    let mut list = Vec::new(alloc);
    list.push(id)?;
    Ok(list)
}

// Whether so many nodes with so many choices have more than so many edges.
fn too_many(nodes: usize, choices: usize, most: usize) -> bool
    ensures few { IsFalse result → nodes * choices ≤ most }
    ensures many { IsTrue result → most < nodes * choices }
{
    choices != 0 && nodes > most / choices
}

// How many nodes may have the choices of this layer where so many edges are left: so many that one more has too many
// edges, and any number where there is no such layer.
fn most_nodes(letters: &[Vec<usize>], j: usize, left: usize) -> usize
    ensures many { (n : ℕ) (ids : List ℕ) → slice_get (map (λ v. v.items) letters.now) j ≡ Some ids → 0 < length ids →
        result < n → left < n * length ids }
    ensures last { length letters.now ≤ j → result ≡ 18446744073709551615 }
{
    if j >= letters.len() {
        return usize::MAX;
    }
    let choices = letters[j].len();
    if choices == 0 {
        return usize::MAX;
    }
    left / choices
}

/// The layers of a graph, from a start value and the letters of each layer, and the values of its labels, whatever
/// nodes in the same order stand in place of those that the values keep. It is too wide where they have more than so
/// many edges. Time and memory: those of the edges, each once, and of the compositions that the pool has not got.
pub fn fold_layers(
    alloc: Global,
    pool: &mut Pool,
    start: usize,
    letters: &[Vec<usize>],
    keeps: &[usize],
    budget: usize,
) -> Result<Drafts, Trouble>
    requires pool { IsPool pool.old }
    requires linked { AreLinked pool.old start (map (λ v. v.items) letters.now) keeps.now }
    requires budget { budget ≤ ALL_EDGES }
    ensures grew { OnOk result (GrewTo pool.old pool.new) }
    ensures wide { IfErr result (λ e. e ≡ Wide → (f : ℕ → ℕ) (plan : Plan) → KeepsOrder f →
        PlanFits plan (pool_on f pool.old) start (map (λ v. v.items) letters.now) keeps.now
        → PlanPasses pool.old.view plan (map (λ v. v.items) letters.now) budget) }
    ensures spent { IfOk result (λ r. (f : ℕ → ℕ) (plan : Plan) → KeepsOrder f →
        PlanFits plan (pool_on f pool.old) start (map (λ v. v.items) letters.now) keeps.now
        → Spends (PlanHas pool.old.view plan (map (λ v. v.items) letters.now) (length letters.now)) (plan_diagram plan)
        budget r.left) }
    ensures exact { IfOk result (λ r. (f : ℕ → ℕ) (plan : Plan) → KeepsOrder f →
        PlanFits plan (pool_on f pool.old) start (map (λ v. v.items) letters.now) keeps.now
        → IsExact pool.old.view (plan_diagram plan) (ChosenBy plan) (items_of plan) (NeededBy plan) (length letters.now)
        (layers_of r.layers.items) (values_at (map (mapped f) pool.new.values.items) r.states.items)) }
    ensures finished { IfOk result (λ r. AreFinished (length r.states.items) r.layers.items) }
    ensures choices { IfOk result (λ r. map (λ (l : FinishedLayer). l.choices) r.layers.items
        ≡ map length (map (λ v. v.items) letters.now)) }
    ensures few { IfOk result (λ r. sum_by (λ (l : FinishedLayer). l.nodes) r.layers.items + r.left ≤ budget) }
    ensures states_few { IfOk result (λ r. length r.states.items ≤ suc budget) }
    ensures states_in { IfOk result (λ r. (t i : ℕ) → slice_get r.states.items t ≡ Some i →
        i < length pool.new.values.items) }
{
    let mut layers = Vec::new(alloc);
    let mut states = list_of(alloc, start)?;
    let mut kept = Vec::from_slice(alloc, pool.values[start].nodes())?;
    let mut number = pool.note_letters(alloc, &states)?;
    let mut left = budget;
    'layers: for j in 0..letters.len() {
        let row = letters[j].as_slice();
        let held = states.as_slice();
        let nodes = held.len();
        let choices = row.len();
        if too_many(nodes, choices, left) {
            return Err(Trouble::Wide);
        }
        left -= nodes * choices;
        let most = most_nodes(letters, j + 1, left);
        let lying = pool.lie(alloc, held, number, &kept, row, keeps[j + 1])?;
        let key = LayerKey {
            states: lying.before,
            letters: lying.by,
            keep: lying.keep,
        };
        let step = step_from(alloc, pool, &lying.states, &lying.letters, key, most)?;
        let layer = FinishedLayer {
            choices: choices as u32,
            nodes: nodes as u32,
            edges: step.edges,
        };
        layers.push(layer)?;
        states = step.next;
        number = step.number;
        kept = lying.kept;
    }
    let states = pool.all_back(alloc, &states, &kept)?;
    Ok(Drafts {
        layers,
        states,
        left,
    })
}
