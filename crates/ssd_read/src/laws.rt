//! What follows from the definitions alone: that a text stands for one station, and what a station
//! has of its drawing.

ghost use Rattle.std.specs.Prelude.{◌≡◌, ℕ, ◌<◌, List, length, Option, Some, Result, Ok, Err};
ghost use Rattle.station_graph.specs.declared.fault.What.{What};
ghost use Rattle.station_graph.specs.Diagram.{Diagram};
ghost use Rattle.ssd_text.specs.Nesting.{Entry, IsInOrder};
ghost use Rattle.ssd_read.specs.declared.refusal.SsdRefusal.{SsdRefusal as Refusal};
ghost use Rattle.ssd_read.specs.Elements.{elements_of, element_at, front_of_tree};
ghost use Rattle.ssd_read.specs.StandsFor.{Stands, TreeStandsFor};
ghost use Rattle.ssd_read.specs.declared.refusal.SsdRefusal.TheVariants.{Limit};
ghost use Rattle.ssd_read.specs.Steps.{Step, built};
ghost use Rattle.ssd_read.specs.Counts.{Passes};
ghost use Rattle.ssd_read.specs.Laws.{HasInOrder, StandsIn};

/// No text has two outcomes: it stands for one station, or it has one first fault.
pub fn one_station()
    ensures { (text : List ℕ) (o w : Result Diagram Refusal) → Stands text o → Stands text w → o ≡ w }
{}

/// A station has what the elements of its drawing give, in document order: the paths of its parts are
/// those of the elements that are parts, and so on for its nodes, switches, links and taps.
pub fn has_in_order()
    ensures { (tree : List Entry) (d : Diagram) → IsInOrder tree → TreeStandsFor tree d →
        HasInOrder (elements_of tree) d }
{}

/// What an element of a drawing is, and its path, by the element in which it stands and its own name.
pub fn stands_in_order()
    ensures { (tree : List Entry) (i p : ℕ) → IsInOrder tree → i < length tree →
        (element_at (elements_of tree) i).entry.parent ≡ Some p → StandsIn (elements_of tree) i p (front_of_tree tree) }
{}

/// A limit of the station is refused just where the items of a drawing, in order, come to one more than it allows: those
/// before fit, and the count that is told is theirs and one.
pub fn limit_is_a_count()
    ensures { (start : Diagram) (steps : List Step) (what : What) (count : ℕ) →
        built start steps ≡ Err (Limit what count) → Passes start steps what count }
{}
