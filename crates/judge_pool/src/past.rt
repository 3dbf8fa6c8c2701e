//! Layers that are made as one before them was, in whichever graph that stands.
ghost use Rattle.std.specs.Prelude.{◌≡◌, ℕ, ◌*◌, ◌<◌, ◌≤◌, length, slice_get, List};
ghost use Rattle.std.specs.Prelude.{Some, IfOk, IfErr, IfSome, OnOk, IsTrue};
ghost use Rattle.judge_pool.specs.Pooling.{IsPool, GrewTo, EitherKeeps, AreEdges, LeadsOn, IsKeyOf, SameKey};
ghost use Rattle.judge_pool.specs.Numbered.{letter_lists};
ghost use Rattle.judge_pool.specs.Layering.{values_at};
ghost use Rattle.judge_pool.specs.Folding.{ReachesMore};
ghost use Rattle.judge_pool.specs.declared.known.KnownLayer.{KnownLayer as Known};
ghost use Rattle.judge_pool.specs.declared.layer.Trouble.TheVariants.{Wide};
ghost use Rattle.judge_pool.specs.declared.limits.TheConstants.{ALL_EDGES};

use crate::batch::ListStand;
use crate::known::{KnownLayer, KnownStep, LayerKey};
use crate::layer::{Trouble, next_layer};
use crate::lists::{list_at, widened};
use crate::pool::Pool;
use decision_graphs::SharedNumbers;
use ilk_base::Memory;
use number_hash::NumberMap;
use std::alloc::Global;

// Whether the layer was made of this.
fn is_made_of(layer: &KnownLayer, key: LayerKey) -> bool
    ensures { IsTrue result → SameKey layer.now.key key }
{
    if layer.key.states != key.states {
        return false;
    }
    if layer.key.letters != key.letters {
        return false;
    }
    layer.key.keep == key.keep
}

// The place, if a layer that was made of this stands there.
fn layer_at(layers: &[KnownLayer], place: usize, key: LayerKey) -> Option<usize>
    ensures { IfSome result (λ k. (l : Known) × (slice_get layers.now k ≡ Some l) × SameKey l.key key) }
{
    if place >= layers.len() {
        return None;
    }
    if is_made_of(&layers[place], key) {
        Some(place)
    } else {
        None
    }
}

// The place of a layer that was made of this, which is looked for where it was noted.
fn find_layer(
    places: &NumberMap<LayerKey, usize>,
    layers: &[KnownLayer],
    key: LayerKey,
) -> Option<usize>
    ensures { IfSome result (λ k. (l : Known) × (slice_get layers.now k ≡ Some l) × SameKey l.key key) }
{
    match places.get(&key) {
        Some(place) => layer_at(layers, *place, key),
        None => None,
    }
}

// The same states and edges again.
fn step_again(
    alloc: Global,
    next: &[u32],
    number: usize,
    edges: &SharedNumbers,
) -> Result<KnownStep, Memory>
    ensures next { IfOk result (λ s. s.next.items ≡ next.now) }
    ensures number { IfOk result (λ s. s.number ≡ number) }
    ensures edges { IfOk result (λ s. s.edges ≡ edges.now) }
{
    Ok(KnownStep {
        next: widened(alloc, next)?,
        number,
        edges: edges.share()?,
    })
}

impl Pool {
    // The edges and states of the layer at a place, again.
    fn layer_again(&self, alloc: Global, place: usize) -> Result<KnownStep, Memory>
        requires pool { IsPool self.now }
        requires place { place < length self.now.layers.items }
        ensures next { IfOk result (λ s. (l : Known) → slice_get self.now.layers.items place ≡ Some l →
            slice_get (letter_lists self.now) l.next ≡ Some s.next.items) }
        ensures noted { IfOk result (λ s. slice_get (letter_lists self.now) s.number ≡ Some s.next.items) }
        ensures edges { IfOk result (λ s. (l : Known) → slice_get self.now.layers.items place ≡ Some l →
            s.edges ≡ l.edges) }
    {
        let layer = &self.layers[place];
        let lists = self.letters.as_slice();
        let next = list_at(lists, layer.next);
        let step = step_again(alloc, next, layer.next, &layer.edges)?;
        Ok(step)
    }

    // Remembers a layer, so that it is not made again. It is the number of the list of the states to which it leads.
    fn note_layer(
        &mut self,
        alloc: Global,
        key: LayerKey,
        next: &[usize],
        edges: &SharedNumbers,
    ) -> Result<usize, Memory>
        requires pool { IsPool self.old }
        requires leads { (states : List ℕ) × ((row : List ℕ) × IsKeyOf self.old states row key.keep key
            × LeadsOn self.old key.keep states row next.now edges.now) }
        ensures grew { OnOk result (GrewTo self.old self.new) }
        ensures noted { IfOk result (λ n. slice_get (letter_lists self.new) n ≡ Some next.now) }
    {
        let number = self.note_letters(alloc, next)?;
        let own = ListStand {
            list: number,
            keep: key.keep,
        };
        self.note_own_list(next, own)?;
        let edges = edges.share()?;
        let place = self.layers.len();
        self.layer_places.insert(key, place)?;
        self.layers.push(KnownLayer {
            key,
            next: number,
            edges,
        })?;
        Ok(number)
    }

    // A layer that is made now, and remembered.
    fn new_layer(
        &mut self,
        alloc: Global,
        states: &[usize],
        row: &[usize],
        key: LayerKey,
        most: usize,
    ) -> Result<KnownStep, Trouble>
        requires pool { IsPool self.old }
        requires key { IsKeyOf self.old states.now row.now key.keep key }
        requires states { (k i : ℕ) → slice_get states.now k ≡ Some i → i < length self.old.values.items }
        requires letters { (c j : ℕ) → slice_get row.now c ≡ Some j → j < length self.old.values.items }
        requires some { 0 < length row.now }
        requires few { length states.now * length row.now ≤ ALL_EDGES }
        requires keep { key.keep < length self.old.keeps.items }
        requires nodes { (k c i j : ℕ) → slice_get states.now k ≡ Some i → slice_get row.now c ≡ Some j →
            EitherKeeps self.old i j key.keep }
        ensures grew { OnOk result (GrewTo self.old self.new) }
        ensures few { IfOk result (λ s. length s.next.items ≤ length states.now * length row.now) }
        ensures noted { IfOk result (λ s. slice_get (letter_lists self.new) s.number ≡ Some s.next.items) }
        ensures edges { IfOk result (λ s. (nodes : List ℕ) → slice_get self.old.keeps.items key.keep ≡ Some nodes
            → AreEdges self.new.view self.new.values.items nodes states.now row.now s.next.items s.edges
            (length states.now * length row.now)) }
        ensures wide { IfErr result (λ e. e ≡ Wide → (nodes : List ℕ) →
            slice_get self.old.keeps.items key.keep ≡ Some nodes
            → ReachesMore self.old.view nodes (values_at self.old.values.items states.now)
            (values_at self.old.values.items row.now) most) }
    {
        let held = self.seats.take();
        let mut seats = held.unwrap_or(Vec::new(alloc));
        let step = next_layer(alloc, self, &mut seats, states, row, key.keep, most)?;
        self.seats = Some(seats);
        let edges = SharedNumbers::new(alloc, step.edges)?;
        let number = self.note_layer(alloc, key, &step.next, &edges)?;
        Ok(KnownStep {
            next: step.next,
            number,
            edges,
        })
    }
}

// From the values of a layer to those of the next one: as in a layer that was made with the same states, letters and
// nodes, or else made now.
pub(crate) fn step_from(
    alloc: Global,
    pool: &mut Pool,
    states: &[usize],
    row: &[usize],
    key: LayerKey,
    most: usize,
) -> Result<KnownStep, Trouble>
    requires pool { IsPool pool.old }
    requires key { IsKeyOf pool.old states.now row.now key.keep key }
    requires states { (k i : ℕ) → slice_get states.now k ≡ Some i → i < length pool.old.values.items }
    requires letters { (c j : ℕ) → slice_get row.now c ≡ Some j → j < length pool.old.values.items }
    requires some { 0 < length row.now }
    requires few { length states.now * length row.now ≤ ALL_EDGES }
    requires keep { key.keep < length pool.old.keeps.items }
    requires nodes { (k c i j : ℕ) → slice_get states.now k ≡ Some i → slice_get row.now c ≡ Some j →
        EitherKeeps pool.old i j key.keep }
    ensures grew { OnOk result (GrewTo pool.old pool.new) }
    ensures few { IfOk result (λ s. length s.next.items ≤ length states.now * length row.now) }
    ensures noted { IfOk result (λ s. slice_get (letter_lists pool.new) s.number ≡ Some s.next.items) }
    ensures edges { IfOk result (λ s. (nodes : List ℕ) → slice_get pool.old.keeps.items key.keep ≡ Some nodes
        → AreEdges pool.new.view pool.new.values.items nodes states.now row.now s.next.items s.edges
        (length states.now * length row.now)) }
    ensures wide { IfErr result (λ e. e ≡ Wide → (nodes : List ℕ) → slice_get pool.old.keeps.items key.keep ≡ Some nodes
        → ReachesMore pool.old.view nodes (values_at pool.old.values.items states.now)
        (values_at pool.old.values.items row.now) most) }
{
    match find_layer(&pool.layer_places, &pool.layers, key) {
        Some(place) => {
            let step = pool.layer_again(alloc, place)?;
            Ok(step)
        }
        None => {
            let step = pool.new_layer(alloc, states, row, key, most)?;
            Ok(step)
        }
    }
}
