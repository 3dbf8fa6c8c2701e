//! Where the formulas of a text stand.
ghost use Rattle.std.specs.Prelude.{◌≡◌, ◌≢◌, ◌<◌, ℕ, length, slice_get};
ghost use Rattle.program_text.specs.Places.{place_read, IsNamed, IsRead, HaveRisen};

/// Where a formula stands.
#[derive(Clone, Copy, PartialEq, Eq)]
pub enum Place {
    /// nowhere: nothing reads it
    Nowhere,
    /// inside the one line that reads it
    Inside,
    /// on a line of its own, which sets its variable
    Named,
}

// The place of a formula that one line more reads.
fn read_more(place: Place) -> Place
    ensures { result ≡ place_read place }
{
    match place {
        Place::Nowhere => Place::Inside,
        Place::Inside => Place::Named,
        Place::Named => Place::Named,
    }
}

/// One line more reads the formula of this number.
pub(crate) fn read(places: &mut Vec<Place>, number: usize)
    ensures risen { HaveRisen places.old.items places.new.items }
    ensures read { number < length places.old.items → IsRead places.new.items number }
    ensures others { (n : ℕ) → n ≢ number → slice_get places.new.items n ≡ slice_get places.old.items n }
{
    if number < places.len() {
        let place = read_more(places[number]);
        places[number] = place;
    }
}

/// The formula of this number has a line.
pub(crate) fn give_line(places: &mut Vec<Place>, number: usize)
    ensures risen { HaveRisen places.old.items places.new.items }
    ensures named { number < length places.old.items → IsNamed places.new.items number }
    ensures others { (n : ℕ) → n ≢ number → slice_get places.new.items n ≡ slice_get places.old.items n }
{
    if number < places.len() {
        places[number] = Place::Named;
    }
}
