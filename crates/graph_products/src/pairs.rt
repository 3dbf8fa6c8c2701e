//! The pairs of nodes of a layer, each once.
ghost use Rattle.std.specs.Prelude.{◌≡◌, [], ◌*◌, ◌^◌, ◌<◌, ◌≤◌, length, IfOk};
ghost use Rattle.graph_products.specs.Layering.{IsPlaced};
ghost use Rattle.graph_products.specs.Seating.{AreSeats, IsSeating, listed_in, seat_of};

use crate::pair::Pair;
use ilk_base::Memory;
use indexmap::IndexSet;
use number_hash::NumberHash;
use std::alloc::Global;
use std::marker::Model;

// A table may have so many seats for each edge of its layer.
const SEATS_PER_EDGE: usize = 4;

// So many seats a table may have besides.
const SEATS_BESIDES: usize = 1024;

// The pairs in order, and a seat for each pair that may come: 0, or its place in the list plus 1.
#[derive(Drop)]
pub(crate) struct SeatTable {
    pub(crate) list: Vec<Pair>,
    pub(crate) seats: Vec<u32>,
}

// The pairs in order, with seats or hashed.
#[derive(Drop)]
pub(crate) enum Seating {
    Table(SeatTable),
    Hashed(IndexSet<Pair, NumberHash>),
}

// The pairs of a layer in the order in which they came, each once. Their first nodes are below the height, and their
// second ones below the width.
#[derive(Drop)]
pub(crate) struct PairSet {
    height: usize,
    width: usize,
    seating: Seating,
}

impl Model for PairSet {
    ghost use Rattle.graph_products.specs.Seating.{Pairs, IsSeating, listed_in};

    ghost Value = { Pairs };

    ghost view = { λ s. record { height = s.height; width = s.width; keys = listed_in s.seating } };

    ghost invariant = { λ s. IsSeating s.height s.width s.seating };
}

// A list without pairs, with a free seat for each pair that may come.
fn table_for(alloc: Global, height: usize, width: usize, states: usize) -> Result<Seating, Memory>
    requires few { height * width < 2 ^ 64 }
    ensures seating { IfOk result (IsSeating height width) }
    ensures none { IfOk result (λ s. listed_in s ≡ []) }
{
    let list = Vec::with_capacity(alloc, states)?;
    let mut seats = Vec::new(alloc);
    seats.resize(height * width, 0)?;
    Ok(Seating::Table(SeatTable { list, seats }))
}

// A hashed list without pairs.
fn hash_for(alloc: Global, height: usize, width: usize, states: usize) -> Result<Seating, Memory>
    ensures seating { IfOk result (IsSeating height width) }
    ensures none { IfOk result (λ s. listed_in s ≡ []) }
{
    let pairs = IndexSet::with_capacity_and_hasher(alloc, states, NumberHash::new())?;
    Ok(Seating::Hashed(pairs))
}

// A list without pairs; it has seats where there are not many more of them than edges of so many states and rows.
fn seating_for(
    alloc: Global,
    height: u32,
    width: u32,
    states: usize,
    rows: usize,
) -> Result<Seating, Memory>
    requires few { states * rows ≤ 4294967295 }
    ensures seating { IfOk result (IsSeating height width) }
    ensures none { IfOk result (λ s. listed_in s ≡ []) }
{
    let height = height as usize;
    let width = width as usize;
    if height * width <= states * rows * SEATS_PER_EDGE + SEATS_BESIDES {
        return table_for(alloc, height, width, states);
    }
    hash_for(alloc, height, width, states)
}

// The seat of a pair in rows of so many seats.
fn seat_in(width: usize, pair: Pair) -> usize
    requires few { seat_of width pair < 2 ^ 64 }
    ensures { result ≡ seat_of width pair }
{
    pair.first as usize * width + pair.second as usize
}

// The place of the pair in a list with seats, at the end where it is new.
fn place_by_seat(table: &mut SeatTable, width: usize, pair: Pair) -> Result<usize, Memory>
    requires seats { AreSeats width table.old.seats.items table.old.list.items }
    requires second { pair.second < width }
    requires seat { seat_of width pair < length table.old.seats.items }
    requires few { length table.old.list.items < 4294967295 }
    ensures count { length table.new.seats.items ≡ length table.old.seats.items }
    ensures seats { AreSeats width table.new.seats.items table.new.list.items }
    ensures placed { IfOk result (IsPlaced table.old.list.items table.new.list.items pair) }
{
    let seat = seat_in(width, pair);
    let told = table.seats[seat];
    if told != 0 {
        return Ok(told as usize - 1);
    }
    let place = table.list.len();
    table.list.push(pair)?;
    table.seats[seat] = place as u32 + 1;
    Ok(place)
}

// The place of the pair in a hashed list, at the end where it is new.
fn place_by_hash(pairs: &mut IndexSet<Pair, NumberHash>, pair: Pair) -> Result<usize, Memory>
    ensures { IfOk result (IsPlaced pairs.old.keys pairs.new.keys pair) }
{
    let (place, _) = pairs.insert_full(pair)?;
    Ok(place)
}

// The pairs in order.
fn listed(alloc: Global, pairs: &IndexSet<Pair, NumberHash>) -> Result<Vec<Pair>, Memory>
    ensures { IfOk result (λ v. v.items ≡ pairs.now.keys) }
{
    let list = pairs.iter().copied().collect(alloc)?;
    Ok(list)
}

impl PairSet {
    // A set without pairs, for a layer of so many states with so many rows each.
    pub(crate) fn new(
        alloc: Global,
        height: u32,
        width: u32,
        states: usize,
        rows: usize,
    ) -> Result<PairSet, Memory>
        requires few { states * rows ≤ 4294967295 }
        ensures { IfOk result (λ s. s ≡ record { height = height; width = width; keys = [] }) }
    {
        let seating = seating_for(alloc, height, width, states, rows)?;
        Ok(PairSet {
            height: height as usize,
            width: width as usize,
            seating,
        })
    }

    // The place of the pair in the list, at the end where it is new.
    pub(crate) fn place(&mut self, pair: Pair) -> Result<usize, Memory>
        requires first { pair.first < self.old.height }
        requires second { pair.second < self.old.width }
        requires few { length self.old.keys < 4294967295 }
        ensures height { self.new.height ≡ self.old.height }
        ensures width { self.new.width ≡ self.old.width }
        ensures placed { IfOk result (IsPlaced self.old.keys self.new.keys pair) }
    {
        let width = self.width;
        match &mut self.seating {
            Seating::Table(table) => place_by_seat(table, width, pair),
            Seating::Hashed(pairs) => place_by_hash(pairs, pair),
        }
    }

    // The pairs in order.
    pub(crate) fn into_list(self, alloc: Global) -> Result<Vec<Pair>, Memory>
        ensures { IfOk result (λ v. v.items ≡ self.keys) }
    {
        match self.seating {
            Seating::Table(table) => Ok(table.list),
            Seating::Hashed(pairs) => listed(alloc, &pairs),
        }
    }
}
