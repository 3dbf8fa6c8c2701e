//! The formulas that the releases read have lines.
ghost use Rattle.std.specs.Prelude.{◌≡◌, ℕ, slice_get, Some, OnOk};
ghost use Rattle.structured_text.specs.declared.name.Name.{Name as OfName};
ghost use Rattle.program_text.specs.Places.{HaveRisen, IsSet, ReadWhatIsSet};

use crate::place::{Place, give_line};
use crate::read_names::names_of;
use crate::reading::{Reading, number_of};
use ilk_base::Memory;
use std::alloc::Global;
use structured_text::{Line, Name};

// The formula of this variable has a line, if it is one of this reading.
fn set_name(reading: Reading, places: &mut Vec<Place>, name: Name)
    ensures risen { HaveRisen places.old.items places.new.items }
    ensures set { IsSet reading places.new.items name }
{
    if let Some(number) = number_of(reading, name) {
        give_line(places, number);
    }
}

// So have those of these variables.
fn set_names(reading: Reading, places: &mut Vec<Place>, names: &[Name])
    ensures risen { HaveRisen places.old.items places.new.items }
    ensures set { (k : ℕ) (m : OfName) → slice_get names.now k ≡ Some m → IsSet reading places.new.items m }
{
    for name in names {
        set_name(reading, places, *name);
    }
}

/// The formulas of this reading that the lines read have lines.
pub(crate) fn set_reads(
    alloc: Global,
    reading: Reading,
    places: &mut Vec<Place>,
    lines: &[Line],
) -> Result<(), Memory>
    ensures risen { OnOk result (HaveRisen places.old.items places.new.items) }
    ensures set { OnOk result (ReadWhatIsSet reading places.new.items lines.now) }
{
    for line in lines {
        let names = names_of(alloc, line.formula)?;
        set_names(reading, places, &names);
    }
    Ok(())
}
