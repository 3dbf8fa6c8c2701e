//! The lines of a position of all switches.
ghost use Rattle.std.specs.Prelude.{◌≡◌, ◌<◌, ◌++◌, [], false, codes, length, slice_index_or, OnOk};
ghost use Rattle.central_rules.specs.Names.{texts_below};
ghost use Rattle.path_names.specs.Tables.{paths_of_both};
ghost use Rattle.station_compare.specs.Comparing.{IsComparison};
ghost use Rattle.compare_text.specs.CompareText.{new_with, new_with_at, old_with, old_with_at, vector_lines};

use crate::names::with_word;
use change_search::Shown;
use ilk_base::{Memory, SwitchId};
use path_names::{new_switch_name, old_switch_name};
use piece_writer::NamedText;
use station_compare::{Comparison, Found};
use station_graph::Station;

// Whether the list says so of this place.
fn is_set(list: &[bool], place: u16) -> bool
    ensures { result ≡ slice_index_or list.now place false }
{
    match list.get(usize::from(place)) {
        Some(set) => *set,
        None => false,
    }
}

// Appends the front of a line, the path of this name, and the end of the line.
fn push_with(text: &mut NamedText, front: &'static [u8], name: u16) -> Result<(), Memory>
    ensures ok { OnOk result (text.new.text ≡ text.old.text
        ++ (front.now ++ slice_index_or text.old.names name [] ++ codes "\n")) }
    ensures names { text.new.names ≡ text.old.names }
{
    text.word(front)?;
    text.name(name)?;
    text.word(b"\n")
}

// Appends the line of a switch of the new station, where it has one.
fn push_new_with(
    text: &mut NamedText,
    old: &Station,
    new: &Station,
    moved: SwitchId,
    found: &Found,
    closed: bool,
    id: SwitchId,
) -> Result<(), Memory>
    requires names { text.old.names ≡ paths_of_both old.now new.now }
    requires within { id.0 < length new.now.switches }
    ensures ok { OnOk result (text.new.text ≡ text.old.text ++ new_with new.now moved.0 found.now closed id.0) }
    ensures names { text.new.names ≡ text.old.names }
{
    if id.0 == moved.0 {
        return Ok(());
    }
    if !closed {
        return Ok(());
    }
    push_with(text, with_word(found), new_switch_name(old, new, id))
}

// Appends those of all of them.
fn push_new_withs(
    text: &mut NamedText,
    old: &Station,
    new: &Station,
    moved: SwitchId,
    here: &[Found],
    closed: &[bool],
) -> Result<(), Memory>
    requires names { text.old.names ≡ paths_of_both old.now new.now }
    requires count { length here.now ≡ length new.now.switches }
    ensures ok { OnOk result (text.new.text ≡ text.old.text
        ++ texts_below (new_with_at new.now moved.0 here.now closed.now) (length new.now.switches)) }
    ensures names { text.new.names ≡ text.old.names }
{
    for k in 0..new.switch_count() {
        let found = &here[usize::from(k)];
        push_new_with(text, old, new, moved, found, is_set(closed, k), SwitchId(k))?;
    }
    Ok(())
}

// Appends the line of a switch of the old station, where it has one.
fn push_old_with(
    text: &mut NamedText,
    old: &Station,
    new: &Station,
    gone: bool,
    closed: bool,
    id: SwitchId,
) -> Result<(), Memory>
    requires names { text.old.names ≡ paths_of_both old.now new.now }
    requires within { id.0 < length old.now.switches }
    ensures ok { OnOk result (text.new.text ≡ text.old.text ++ old_with old.now gone closed id.0) }
    ensures names { text.new.names ≡ text.old.names }
{
    if !gone {
        return Ok(());
    }
    if !closed {
        return Ok(());
    }
    push_with(text, b"with old ", old_switch_name(old, new, id))
}

// Appends those of all of them.
fn push_old_withs(
    text: &mut NamedText,
    old: &Station,
    new: &Station,
    gone: &[bool],
    closed: &[bool],
) -> Result<(), Memory>
    requires names { text.old.names ≡ paths_of_both old.now new.now }
    ensures ok { OnOk result (text.new.text ≡ text.old.text
        ++ texts_below (old_with_at old.now gone.now closed.now) (length old.now.switches)) }
    ensures names { text.new.names ≡ text.old.names }
{
    for i in 0..old.switch_count() {
        push_old_with(
            text,
            old,
            new,
            is_set(gone, i),
            is_set(closed, i),
            SwitchId(i),
        )?;
    }
    Ok(())
}

// Appends the line of each other switch that is closed in the position.
pub(crate) fn push_vector(
    text: &mut NamedText,
    old: &Station,
    new: &Station,
    found: &Comparison,
    moved: SwitchId,
    shown: &Shown,
) -> Result<(), Memory>
    requires names { text.old.names ≡ paths_of_both old.now new.now }
    requires comparison { IsComparison old.now new.now found.now }
    ensures ok { OnOk result (text.new.text ≡ text.old.text
        ++ vector_lines old.now new.now found.now moved.0 shown.now) }
    ensures names { text.new.names ≡ text.old.names }
{
    push_new_withs(text, old, new, moved, &found.here, &shown.new_closed)?;
    push_old_withs(text, old, new, &found.gone, &shown.old_closed)
}
