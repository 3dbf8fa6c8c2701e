//! Which formulas have lines: those that the releases read, those that more than one line reads, and those that cannot
//! stand inside the one line that reads them.
ghost use Rattle.std.specs.Prelude.{◌≡◌, ◌≢◌, ◌≤◌, ◌<◌, ℕ, length, slice_get, slice_index_or, Some, IsTrue, IfOk};
ghost use Rattle.interlock_terms.specs.declared.term.Term.{Term as OfTerm};
ghost use Rattle.interlock_terms.specs.Terms.{RefersBelow};
ghost use Rattle.program_text.specs.declared.place.Place.TheVariants.{Nowhere};
ghost use Rattle.program_text.specs.Places.{IsNamed, IsInside, IsRead, HaveRisen, EachNamed, IsOfTwo};
ghost use Rattle.program_text.specs.Places.{ReadsAreRead, ArePlaced, ReadWhatIsSet};

use crate::place::{Place, give_line, read};
use crate::reading::Reading;
use crate::reads::set_reads;
use ilk_base::Memory;
use interlock_terms::{Term, Terms};
use std::alloc::Global;
use structured_text::Line;

/// The place of the formula of this number.
pub(crate) fn place_at(places: &[Place], number: usize) -> Place
    ensures { result ≡ slice_index_or places.now number Nowhere }
{
    places.get(number).copied().unwrap_or(Place::Nowhere)
}

/// Whether the formula has a line.
pub(crate) fn is_named(places: &[Place], number: usize) -> bool
    ensures yes { IsTrue result → IsNamed places.now number }
    ensures no { IsNamed places.now number → IsTrue result }
{
    match place_at(places, number) {
        Place::Named => true,
        Place::Inside => false,
        Place::Nowhere => false,
    }
}

// Whether it stands inside the line that reads it.
fn is_inside(places: &[Place], number: usize) -> bool
    ensures yes { IsTrue result → IsInside places.now number }
    ensures no { IsInside places.now number → IsTrue result }
{
    match place_at(places, number) {
        Place::Inside => true,
        Place::Named => false,
        Place::Nowhere => false,
    }
}

// Whether it stands somewhere.
fn is_read(places: &[Place], number: usize) -> bool
    ensures yes { IsTrue result → IsRead places.now number }
    ensures no { IsRead places.now number → IsTrue result }
{
    match place_at(places, number) {
        Place::Inside => true,
        Place::Named => true,
        Place::Nowhere => false,
    }
}

// Whether the term is of two formulas that both have lines.
fn is_of_two(places: &[Place], term: Term) -> bool
    ensures { IsTrue result → IsOfTwo (IsNamed places.now) term }
{
    match term {
        Term::Both(first, second) => is_named(places, first) && is_named(places, second),
        Term::Either(first, second) => is_named(places, first) && is_named(places, second),
        Term::Always => false,
        Term::Closed(_) => false,
    }
}

// One line more reads two formulas.
fn read_two(places: &mut Vec<Place>, first: usize, second: usize)
    ensures risen { HaveRisen places.old.items places.new.items }
    ensures first { first < length places.old.items → IsRead places.new.items first }
    ensures second { second < length places.old.items → IsRead places.new.items second }
    ensures others { (n : ℕ) → n ≢ first → n ≢ second
        → slice_get places.new.items n ≡ slice_get places.old.items n }
{
    read(places, first);
    read(places, second);
}

// One line more reads what the term names.
fn read_named(places: &mut Vec<Place>, term: Term)
    ensures risen { HaveRisen places.old.items places.new.items }
    ensures reads { RefersBelow (length places.old.items) term → EachNamed (IsRead places.new.items) term }
    ensures others { (k n : ℕ) → RefersBelow k term → k ≤ n
        → slice_get places.new.items n ≡ slice_get places.old.items n }
{
    match term {
        Term::Both(first, second) => read_two(places, first, second),
        Term::Either(first, second) => read_two(places, first, second),
        Term::Always => {}
        Term::Closed(_) => {}
    }
}

// The formula of this number reads what it names, if it stands somewhere.
fn read_one(terms: &Terms, places: &mut Vec<Place>, number: usize)
    requires within { number < length terms.now }
    requires len { length places.old.items ≡ length terms.now }
    ensures risen { HaveRisen places.old.items places.new.items }
    ensures reads { (t : OfTerm) → slice_get terms.now number ≡ Some t → IsRead places.new.items number
        → EachNamed (IsRead places.new.items) t }
    ensures others { (n : ℕ) → number ≤ n → slice_get places.new.items n ≡ slice_get places.old.items n }
{
    let term = terms.get(number);
    if is_read(places, number) {
        read_named(places, term);
    }
}

// From the last formula to the first, what stands somewhere reads what it names.
fn read_all(terms: &Terms, places: &mut Vec<Place>)
    requires len { length places.old.items ≡ length terms.now }
    ensures risen { HaveRisen places.old.items places.new.items }
    ensures reads { ReadsAreRead terms.now 0 places.new.items }
{
    let mut number = terms.len();
    while number > 0 {
        number -= 1;
        read_one(terms, places, number);
    }
}

// The formula of this number gets a line if it cannot stand inside the one that reads it.
fn settle_one(places: &mut Vec<Place>, number: usize, term: Term)
    ensures risen { HaveRisen places.old.items places.new.items }
    ensures same { (n : ℕ) → IsRead places.new.items n → IsRead places.old.items n }
    ensures others { (n : ℕ) → n ≢ number → slice_get places.new.items n ≡ slice_get places.old.items n }
    ensures settled { IsInside places.new.items number → IsOfTwo (IsNamed places.new.items) term }
{
    if is_of_two(places, term) {
        return;
    }
    if is_inside(places, number) {
        give_line(places, number);
    }
}

// Each formula gets a line that cannot stand inside one.
fn settle(terms: &Terms, places: &mut Vec<Place>)
    requires len { length places.old.items ≡ length terms.now }
    requires reads { ReadsAreRead terms.now 0 places.old.items }
    ensures risen { HaveRisen places.old.items places.new.items }
    ensures placed { ArePlaced terms.now places.new.items }
{
    for number in 0..terms.len() {
        let term = terms.get(number);
        settle_one(places, number, term);
    }
}

/// Where each formula of a reading stands, given the lines of the releases.
pub(crate) fn places_of(
    alloc: Global,
    terms: &Terms,
    reading: Reading,
    releases: &[Line],
) -> Result<Vec<Place>, Memory>
    ensures placed { IfOk result (λ r. ArePlaced terms.now r.items) }
    ensures set { IfOk result (λ r. ReadWhatIsSet reading r.items releases.now) }
{
    let mut places = vec![in alloc; Place::Nowhere; terms.len()]?;
    set_reads(alloc, reading, &mut places, releases)?;
    read_all(terms, &mut places);
    settle(terms, &mut places);
    Ok(places)
}
