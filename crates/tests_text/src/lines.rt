//! Single lines of the text of tests.
ghost use Rattle.std.specs.Prelude.{◌≡◌, ◌<◌, ◌++◌, [], length, slice_index_or, OnOk};
ghost use Rattle.station_graph.specs.Diagram.{part_count, switch_path};
ghost use Rattle.station_graph.specs.CentralRules.{IsOperation};
ghost use Rattle.denial_explain.specs.ExplanationText.{operation};
ghost use Rattle.path_names.specs.Tables.{paths_of};
ghost use Rattle.tests_text.specs.TestsText.{path_line, part_line, with_line, denied_line, turned_line, unsound_line};

use central_rules::{direction_name, rule_name};
use ilk_base::{BayId, Memory, Op, Rule, SwitchId};
use path_names::{part_name, switch_name};
use piece_writer::NamedText;
use station_graph::Station;

// Appends the word, the path of this name and the end of the line.
fn push_path(text: &mut NamedText, word: &'static [u8], name: u16) -> Result<(), Memory>
    ensures ok { OnOk result (text.new.text ≡ text.old.text
        ++ path_line word.now (slice_index_or text.old.names name [])) }
    ensures names { text.new.names ≡ text.old.names }
{
    text.word(word)?;
    text.name(name)?;
    text.word(b"\n")
}

/// Appends the word and the path of the switch.
pub(crate) fn push_switch(
    text: &mut NamedText,
    word: &'static [u8],
    station: &Station,
    id: SwitchId,
) -> Result<(), Memory>
    requires names { text.old.names ≡ paths_of station.now }
    requires within { id.0 < length station.now.switches }
    ensures ok { OnOk result (text.new.text ≡ text.old.text ++ path_line word.now (switch_path station.now id.0)) }
    ensures names { text.new.names ≡ text.old.names }
{
    push_path(text, word, switch_name(station, id))
}

/// Appends the word and the path of the part.
pub(crate) fn push_part(
    text: &mut NamedText,
    word: &'static [u8],
    station: &Station,
    part: BayId,
) -> Result<(), Memory>
    requires names { text.old.names ≡ paths_of station.now }
    requires within { part.0 < part_count station.now }
    ensures ok { OnOk result (text.new.text ≡ text.old.text ++ part_line station.now word.now part.0) }
    ensures names { text.new.names ≡ text.old.names }
{
    push_path(text, word, part_name(station, part))
}

/// Appends the word and the operation.
pub(crate) fn push_operation(
    text: &mut NamedText,
    word: &'static [u8],
    station: &Station,
    op: Op,
) -> Result<(), Memory>
    requires names { text.old.names ≡ paths_of station.now }
    requires operation { IsOperation station.now op }
    ensures ok { OnOk result (text.new.text ≡ text.old.text ++ (word.now ++ operation station.now op)) }
    ensures names { text.new.names ≡ text.old.names }
{
    text.word(word)?;
    text.word(direction_name(op.direction))?;
    push_switch(text, b" ", station, op.switch)
}

/// Appends the line of a switch that is closed; an open one has none.
pub(crate) fn push_with(
    text: &mut NamedText,
    station: &Station,
    id: SwitchId,
    closed: bool,
) -> Result<(), Memory>
    requires names { text.old.names ≡ paths_of station.now }
    requires within { id.0 < length station.now.switches }
    ensures ok { OnOk result (text.new.text ≡ text.old.text ++ with_line station.now id.0 closed) }
    ensures names { text.new.names ≡ text.old.names }
{
    if !closed {
        return Ok(());
    }
    push_switch(text, b"with ", station, id)
}

/// Appends the line of a position that is not sound; a sound one has none.
pub(crate) fn push_unsound(text: &mut NamedText, sound: bool) -> Result<(), Memory>
    ensures ok { OnOk result (text.new.text ≡ text.old.text ++ unsound_line sound) }
    ensures names { text.new.names ≡ text.old.names }
{
    if sound {
        return Ok(());
    }
    text.word(b"unsound\n")
}

/// Appends the line of an operation that breaks a rule; one that is released has none.
pub(crate) fn push_denied(
    text: &mut NamedText,
    station: &Station,
    op: Op,
    answer: Option<Rule>,
) -> Result<(), Memory>
    requires names { text.old.names ≡ paths_of station.now }
    requires operation { IsOperation station.now op }
    ensures ok { OnOk result (text.new.text ≡ text.old.text ++ denied_line station.now op answer) }
    ensures names { text.new.names ≡ text.old.names }
{
    let Some(rule) = answer else {
        return Ok(());
    };
    text.word(b"denied ")?;
    text.word(rule_name(rule))?;
    push_operation(text, b" ", station, op)
}

/// Appends the line of an operation whose release the move turns; any other has none.
pub(crate) fn push_turned(
    text: &mut NamedText,
    station: &Station,
    op: Op,
    before: Option<Rule>,
    after: Option<Rule>,
) -> Result<(), Memory>
    requires names { text.old.names ≡ paths_of station.now }
    requires operation { IsOperation station.now op }
    ensures ok { OnOk result (text.new.text ≡ text.old.text ++ turned_line station.now op before after) }
    ensures names { text.new.names ≡ text.old.names }
{
    match (before, after) {
        (None, _) => push_denied(text, station, op, after),
        (Some(_), None) => push_operation(text, b"released ", station, op),
        (Some(_), Some(_)) => Ok(()),
    }
}
