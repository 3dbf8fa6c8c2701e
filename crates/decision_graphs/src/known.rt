//! Layers that were folded before, in whichever graph.
ghost use Rattle.std.specs.Prelude.{◌≡◌, Some, slice_get, IfOk, IfSome, IsTrue};
ghost use Rattle.decision_graphs.specs.FoldedView.{folding_of};
ghost use Rattle.decision_graphs.specs.Alone.{IsFoldedAlone, CanFoldAlone, IsMadeOf, IsKnown, AreKnown};
ghost use Rattle.decision_graphs.specs.declared.known.Known.{Known as Layer};

use crate::fold::{Folded, fold_layer};
use crate::same::same_edges;
use crate::shape::Shape;
use crate::shared_numbers::{SharedNumbers, mixed};
use ilk_base::Memory;
use number_hash::{NumberHash, NumberMap};
use std::alloc::Global;
use std::collections::HashMap;

// So many edges of folded layers are held, and not many more.
const MANY: usize = 4_000_000;

// A layer that was folded: how many choices and nodes it has, its edges, the classes of what came after it and how many
// these are, and what it became.
#[derive(Drop)]
pub(crate) struct Known {
    pub(crate) choices: u32,
    pub(crate) nodes: u32,
    pub(crate) edges: SharedNumbers,
    pub(crate) next: SharedNumbers,
    pub(crate) bound: u32,
    pub(crate) folded: Folded,
}

// Layers that were folded, where each stands by its hash, and how many edges they have; and whether layers are noted at
// all, or each is folded anew.
#[derive(Drop)]
pub(crate) struct KnownList {
    pub(crate) layers: Vec<Known>,
    pub(crate) places: NumberMap<u64, usize>,
    pub(crate) held: usize,
    pub(crate) notes: bool,
}

// A layer to be folded, by itself: how many choices and nodes it has, its edges, the classes of what comes after it and
// how many these are.
#[derive(Clone, Copy)]
pub(crate) struct Lone<'a> {
    pub(crate) choices: u32,
    pub(crate) nodes: u32,
    pub(crate) edges: &'a SharedNumbers,
    pub(crate) next: &'a SharedNumbers,
    pub(crate) bound: u32,
}

// A hash of the layer: layers that are the same have the same one, and others mostly have others.
fn hash_of(layer: &Lone<'_>) -> u64 {
    let counts = mixed(u64::from(layer.choices), u64::from(layer.bound));
    mixed(mixed(counts, layer.edges.hash()), layer.next.hash())
}

// Whether a known layer is the same, and what came after it was folded the same.
fn is_made_of(known: &Known, layer: &Lone<'_>) -> bool
    ensures { IsTrue result → IsMadeOf known.now layer.now }
{
    if known.choices != layer.choices {
        return false;
    }
    if known.nodes != layer.nodes {
        return false;
    }
    if known.bound != layer.bound {
        return false;
    }
    same_edges(known.edges.as_slice(), layer.edges.as_slice())
        && same_edges(known.next.as_slice(), layer.next.as_slice())
}

// The place, if a layer that is the same stands there.
fn layer_at(layers: &[Known], place: usize, layer: &Lone<'_>) -> Option<usize>
    ensures { IfSome result (λ p. (k : Layer) × (slice_get layers.now p ≡ Some k) × IsMadeOf k layer.now) }
{
    if place >= layers.len() {
        return None;
    }
    if is_made_of(&layers[place], layer) {
        Some(place)
    } else {
        None
    }
}

// The place of a layer that is the same, which is looked for by its hash.
fn find_known(
    places: &NumberMap<u64, usize>,
    layers: &[Known],
    hash: u64,
    layer: &Lone<'_>,
) -> Option<usize>
    ensures { IfSome result (λ p. (k : Layer) × (slice_get layers.now p ≡ Some k) × IsMadeOf k layer.now) }
{
    match places.get(&hash) {
        Some(place) => layer_at(layers, *place, layer),
        None => None,
    }
}

impl Folded {
    // The same, held by one owner more.
    fn share(&self) -> Result<Folded, Memory>
        ensures { IfOk result (λ f. folding_of f ≡ folding_of self.now) }
    {
        Ok(Folded {
            count: self.count,
            rows: self.rows.share()?,
            classes: self.classes.share()?,
        })
    }
}

// The folding of a known layer that is the same, if there is one.
fn known_fold(
    places: &NumberMap<u64, usize>,
    layers: &[Known],
    hash: u64,
    layer: &Lone<'_>,
) -> Result<Option<Folded>, Memory>
    requires { AreKnown layers.now }
    ensures { IfOk result (λ o. IfSome o (λ f. IsFoldedAlone layer.now (folding_of f))) }
{
    match find_known(places, layers, hash, layer) {
        Some(place) => {
            let copy = layers[place].folded.share()?;
            Ok(Some(copy))
        }
        None => Ok(None),
    }
}

// A layer with its folding, to be known.
fn known_of(layer: &Lone<'_>, folded: &Folded) -> Result<Known, Memory>
    requires { IsFoldedAlone layer.now (folding_of folded.now) }
    ensures { IfOk result IsKnown }
{
    let edges = layer.edges.share()?;
    let next = layer.next.share()?;
    let copy = folded.share()?;
    Ok(Known {
        choices: layer.choices,
        nodes: layer.nodes,
        edges,
        next,
        bound: layer.bound,
        folded: copy,
    })
}

impl KnownList {
    // No layers, and whether those that are folded are to be noted.
    pub(crate) fn new(alloc: Global, notes: bool) -> KnownList
        ensures { AreKnown result.layers.items }
    {
        KnownList {
            layers: Vec::new(alloc),
            places: HashMap::with_hasher(alloc, NumberHash::new()),
            held: 0,
            notes,
        }
    }
}

// Forgets all layers where they have many edges.
fn forget_many(list: &mut KnownList)
    requires { AreKnown list.old.layers.items }
    ensures { AreKnown list.new.layers.items }
{
    if list.held < MANY {
        return;
    }
    list.layers.clear();
    list.places.clear();
    list.held = 0;
}

// Puts a layer last.
fn put_last(list: &mut KnownList, hash: u64, known: Known) -> Result<(), Memory>
    requires list { AreKnown list.old.layers.items }
    requires known { IsKnown known }
    ensures { AreKnown list.new.layers.items }
{
    let place = list.layers.len();
    list.held = list.held.saturating_add(known.edges.as_slice().len());
    list.places.insert(hash, place)?;
    list.layers.push(known)?;
    Ok(())
}

// Makes the list know a layer that was folded.
fn note(list: &mut KnownList, hash: u64, layer: &Lone<'_>, folded: &Folded) -> Result<(), Memory>
    requires list { AreKnown list.old.layers.items }
    requires folded { IsFoldedAlone layer.now (folding_of folded.now) }
    ensures { AreKnown list.new.layers.items }
{
    let known = known_of(layer, folded)?;
    forget_many(list);
    put_last(list, hash, known)
}

// The folding of a layer, made now.
fn fold_alone(alloc: Global, layer: &Lone<'_>) -> Result<Folded, Memory>
    requires { CanFoldAlone layer.now }
    ensures { IfOk result (λ f. IsFoldedAlone layer.now (folding_of f)) }
{
    let shape = Shape {
        choices: layer.choices,
        nodes: layer.nodes,
        first: 0,
        base: 0,
    };
    fold_layer(
        alloc,
        shape,
        layer.edges.as_slice(),
        layer.next.as_slice(),
        layer.bound,
    )
}

// The folding of a layer, which is noted and made only where none that is the same is known.
fn fold_noted(alloc: Global, list: &mut KnownList, layer: &Lone<'_>) -> Result<Folded, Memory>
    requires list { AreKnown list.old.layers.items }
    requires layer { CanFoldAlone layer.now }
    ensures list { AreKnown list.new.layers.items }
    ensures folded { IfOk result (λ f. IsFoldedAlone layer.now (folding_of f)) }
{
    let hash = hash_of(layer);
    if let Some(folded) = known_fold(&list.places, &list.layers, hash, layer)? {
        return Ok(folded);
    }
    let folded = fold_alone(alloc, layer)?;
    note(list, hash, layer, &folded)?;
    Ok(folded)
}

// The folding of a layer, which is made only where none that is the same is known.
pub(crate) fn fold_once(
    alloc: Global,
    list: &mut KnownList,
    layer: &Lone<'_>,
) -> Result<Folded, Memory>
    requires list { AreKnown list.old.layers.items }
    requires layer { CanFoldAlone layer.now }
    ensures list { AreKnown list.new.layers.items }
    ensures folded { IfOk result (λ f. IsFoldedAlone layer.now (folding_of f)) }
{
    if list.notes {
        fold_noted(alloc, list, layer)
    } else {
        fold_alone(alloc, layer)
    }
}
