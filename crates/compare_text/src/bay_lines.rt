//! The lines of bays.
ghost use Rattle.std.specs.Prelude.{◌≡◌, ◌++◌, [], length, slice_index_or, OnOk};
ghost use Rattle.station_graph.specs.Diagram.{part_count};
ghost use Rattle.central_rules.specs.Names.{texts_below};
ghost use Rattle.path_names.specs.Tables.{paths_of_both};
ghost use Rattle.station_compare.specs.Bays.{AreBays};
ghost use Rattle.compare_text.specs.CompareText.{bay_line, named_bay, new_bay_at, gone_bay, gone_bay_at, bay_lines};

use crate::names::judged_name;
use ilk_base::{BayId, Memory};
use path_names::{new_part_name, old_part_name};
use piece_writer::NamedText;
use station_compare::{BayWord, BayWords};
use station_graph::Station;

// Appends the line `bay WORD PATH`.
fn push_bay(text: &mut NamedText, word: &'static [u8], name: u16) -> Result<(), Memory>
    ensures ok { OnOk result (text.new.text ≡ text.old.text
        ++ bay_line word.now (slice_index_or text.old.names name [])) }
    ensures names { text.new.names ≡ text.old.names }
{
    text.word(b"bay ")?;
    text.word(word)?;
    text.word(b" ")?;
    text.name(name)?;
    text.word(b"\n")
}

// Appends the line of a part of the new station, where it is a bay.
fn push_named(text: &mut NamedText, word: BayWord, name: u16) -> Result<(), Memory>
    ensures ok { OnOk result (text.new.text ≡ text.old.text
        ++ named_bay word (slice_index_or text.old.names name [])) }
    ensures names { text.new.names ≡ text.old.names }
{
    match word {
        BayWord::NoBay => Ok(()),
        BayWord::New => push_bay(text, b"new", name),
        BayWord::Common(word) => push_bay(text, judged_name(word), name),
    }
}

// Appends those of all its parts.
fn push_new_bays(
    text: &mut NamedText,
    old: &Station,
    new: &Station,
    words: &[BayWord],
) -> Result<(), Memory>
    requires names { text.old.names ≡ paths_of_both old.now new.now }
    requires count { length words.now ≡ part_count new.now }
    ensures ok { OnOk result (text.new.text ≡ text.old.text
        ++ texts_below (new_bay_at new.now words.now) (part_count new.now)) }
    ensures names { text.new.names ≡ text.old.names }
{
    for p in 0..new.part_count() {
        let word = words[usize::from(p)];
        push_named(text, word, new_part_name(old, new, BayId(p as u8)))?;
    }
    Ok(())
}

// Appends the line of a part of the old station, where its bay is gone.
fn push_gone(text: &mut NamedText, gone: bool, name: u16) -> Result<(), Memory>
    ensures ok { OnOk result (text.new.text ≡ text.old.text
        ++ gone_bay gone (slice_index_or text.old.names name [])) }
    ensures names { text.new.names ≡ text.old.names }
{
    if !gone {
        return Ok(());
    }
    push_bay(text, b"gone", name)
}

// Appends those of all its parts.
fn push_gone_bays(
    text: &mut NamedText,
    old: &Station,
    new: &Station,
    gone: &[bool],
) -> Result<(), Memory>
    requires names { text.old.names ≡ paths_of_both old.now new.now }
    requires count { length gone.now ≡ part_count old.now }
    ensures ok { OnOk result (text.new.text ≡ text.old.text
        ++ texts_below (gone_bay_at old.now gone.now) (part_count old.now)) }
    ensures names { text.new.names ≡ text.old.names }
{
    for q in 0..old.part_count() {
        let name = old_part_name(old, new, BayId(q as u8));
        push_gone(text, gone[usize::from(q)], name)?;
    }
    Ok(())
}

// Appends the lines of the bays of both stations.
pub(crate) fn push_bays(
    text: &mut NamedText,
    old: &Station,
    new: &Station,
    bays: &BayWords,
) -> Result<(), Memory>
    requires names { text.old.names ≡ paths_of_both old.now new.now }
    requires bays { AreBays old.now new.now bays.now }
    ensures ok { OnOk result (text.new.text ≡ text.old.text ++ bay_lines old.now new.now bays.now) }
    ensures names { text.new.names ≡ text.old.names }
{
    push_new_bays(text, old, new, &bays.here)?;
    push_gone_bays(text, old, new, &bays.gone)
}
