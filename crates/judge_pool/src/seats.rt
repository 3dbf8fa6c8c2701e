//! Lists of numbers, each once. Each number that may come has a seat, in which stands where to look for it in the list:
//! so it is found by one look, and a new list begins with the seats of any list before it.
ghost use Rattle.std.specs.Prelude.{◌≡◌, ◌↔◌, ◌<◌, ◌≤◌, ℕ, length, slice_get, Some, IfOk, OnOk, IsTrue};
ghost use Rattle.judge_pool.specs.Pooling.{Extends};
ghost use Rattle.judge_pool.specs.Layering.{AreSeats, IsPlaced, AreAdded};

use ilk_base::Memory;

// Whether the number stands at the place of the list.
fn stands_at(list: &[usize], place: usize, id: usize) -> bool
    ensures { IsTrue result ↔ (slice_get list.now place ≡ Some id) }
{
    place < list.len() && list[place] == id
}

// Makes sure that the number has a seat. Nearly always it has one.
#[inline(always)]
pub(crate) fn make_seat(seats: &mut Vec<usize>, id: usize) -> Result<(), Memory>
    ensures stays { OnOk result (Extends seats.old.items seats.new.items) }
    ensures seat { OnOk result (id < length seats.new.items) }
{
    if id < seats.len() {
        return Ok(());
    }
    add_seats(seats, id)
}

// Makes seats for all numbers up to this one, which has none. There is no room for the seat of the last number of all.
#[inline(never)]
fn add_seats(seats: &mut Vec<usize>, id: usize) -> Result<(), Memory>
    requires { length seats.old.items ≤ id }
    ensures stays { OnOk result (Extends seats.old.items seats.new.items) }
    ensures seat { OnOk result (id < length seats.new.items) }
{
    if id == usize::MAX {
        return Err(Memory);
    }
    seats.resize(id + 1, 0)?;
    Ok(())
}

// Puts a number that has a seat, and is new, at the end of the list.
fn push_seated(list: &mut Vec<usize>, seats: &mut Vec<usize>, id: usize) -> Result<usize, Memory>
    requires seats { AreSeats list.old.items seats.old.items }
    requires seat { id < length seats.old.items }
    requires new { (b : ℕ) → slice_get list.old.items b ≡ Some id → ⊥ }
    ensures seats { OnOk result (AreSeats list.new.items seats.new.items) }
    ensures placed { IfOk result (IsPlaced list.old.items list.new.items id) }
{
    let held = list.as_slice();
    let place = held.len();
    list.push(id)?;
    seats[id] = place;
    Ok(place)
}

// The place of the number in the list, at the end where it is new. In its seat stands where to look for it.
fn place(list: &mut Vec<usize>, seats: &mut Vec<usize>, id: usize) -> Result<usize, Memory>
    requires { AreSeats list.old.items seats.old.items }
    ensures seats { OnOk result (AreSeats list.new.items seats.new.items) }
    ensures placed { IfOk result (IsPlaced list.old.items list.new.items id) }
{
    make_seat(seats, id)?;
    let told = seats[id];
    if stands_at(list, told, id) {
        return Ok(told);
    }
    push_seated(list, seats, id)
}

// Adds the place of each of these numbers, which are put at the end of the list where it has not got them.
pub(crate) fn add_places(
    list: &mut Vec<usize>,
    seats: &mut Vec<usize>,
    places: &mut Vec<usize>,
    ids: &[usize],
) -> Result<(), Memory>
    requires { AreSeats list.old.items seats.old.items }
    ensures seats { OnOk result (AreSeats list.new.items seats.new.items) }
    ensures added { OnOk result (AreAdded list.old.items places.old.items ids.now list.new.items places.new.items) }
{
    for c in 0..ids.len() {
        let to = place(list, seats, ids[c])?;
        places.push(to)?;
    }
    Ok(())
}
