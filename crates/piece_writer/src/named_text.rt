//! A text in which names come again and again.
ghost use Rattle.std.specs.Prelude.{◌≡◌, ◌++◌, ◌≤◌, [], ℕ, List, Option, IfOk, OnOk, OnErr, slice_index_or, codes};
ghost use Rattle.std.specs.List.{flat_map};
ghost use Rattle.std.specs.Io.KnownBytes.{Appends};
ghost use Rattle.ilk_base.specs.Outside.{Rose, AppendsFront};
ghost use Rattle.piece_writer.specs.Putting.{stand, HasWritten, Puts};
ghost use Rattle.piece_writer.specs.Inside.{phrase_text};

use crate::writer::PieceWriter;
use ilk_base::{Failed, Memory, Sink, Text};
use std::alloc::Global;
use std::marker::Model;

// A part of the text.
#[derive(Clone, Copy)]
enum Phrase {
    // these bytes
    Word(&'static [u8]),
    // the name of this number
    Name(u16),
    // before and after the name of this number these bytes and the end of the line; in this order it takes less memory
    Line(u16, &'static [u8]),
}

/// A text in which names come again and again, and words of the program between them: each name is held once, whatever
/// its length.
#[derive(Drop)]
pub struct NamedText {
    names: Vec<Text>,
    phrases: Vec<Phrase>,
}

impl Model for NamedText {
    ghost use Rattle.piece_writer.specs.Named.{Named};

    ghost Value = { Named };

    ghost use Rattle.piece_writer.specs.Inside.{named_of};

    ghost view = { named_of };
}

// The bytes of a name, none where there is none of this number.
fn name_bytes(names: &[Text], number: usize) -> &[u8]
    ensures { result.now ≡ slice_index_or names.now number [] }
{
    if number < names.len() {
        names[number].bytes()
    } else {
        b""
    }
}

// Appends a phrase to a text.
fn append_phrase(text: &mut Text, names: &[Text], phrase: Phrase) -> Result<(), Memory>
    ensures { OnOk result (text.new ≡ text.old ++ phrase_text names.now phrase) }
{
    match phrase {
        Phrase::Word(bytes) => text.push(bytes),
        Phrase::Name(number) => text.push(name_bytes(names, usize::from(number))),
        Phrase::Line(number, head) => {
            text.push(head)?;
            text.push(name_bytes(names, usize::from(number)))?;
            text.push(b"\n")
        }
    }
}

// Appends the phrases to a text.
fn append_phrases(text: &mut Text, names: &[Text], phrases: &[Phrase]) -> Result<(), Memory>
    ensures { OnOk result (text.new ≡ text.old ++ flat_map (phrase_text names.now) phrases.now) }
{
    for phrase in phrases {
        append_phrase(text, names, *phrase)?;
    }
    Ok(())
}

// Puts a line: these bytes, the name of this number, and its end.
fn put_line<S: Sink>(
    writer: &mut PieceWriter,
    sink: &mut S,
    names: &[Text],
    head: &[u8],
    number: u16,
)
    ensures { Puts (stand (S.took sink.old) (S.faults sink.old) writer.old)
        (stand (S.took sink.new) (S.faults sink.new) writer.new)
        (head.now ++ slice_index_or names.now number [] ++ codes "\n") }
{
    writer.push(sink, head);
    writer.push(sink, name_bytes(names, usize::from(number)));
    writer.push(sink, b"\n");
}

// Puts a phrase.
fn put_phrase<S: Sink>(writer: &mut PieceWriter, sink: &mut S, names: &[Text], phrase: Phrase)
    ensures { Puts (stand (S.took sink.old) (S.faults sink.old) writer.old)
        (stand (S.took sink.new) (S.faults sink.new) writer.new) (phrase_text names.now phrase) }
{
    match phrase {
        Phrase::Word(bytes) => writer.push(sink, bytes),
        Phrase::Name(number) => writer.push(sink, name_bytes(names, usize::from(number))),
        Phrase::Line(number, head) => put_line(writer, sink, names, head, number),
    }
}

// Puts the phrases, one after another.
fn put_phrases<S: Sink>(writer: &mut PieceWriter, sink: &mut S, names: &[Text], phrases: &[Phrase])
    ensures { Puts (stand (S.took sink.old) (S.faults sink.old) writer.old)
        (stand (S.took sink.new) (S.faults sink.new) writer.new)
        (flat_map (phrase_text names.now) phrases.now) }
{
    for phrase in phrases {
        put_phrase(writer, sink, names, *phrase);
    }
}

// Writes the phrases.
fn write_phrases<S: Sink>(
    writer: &mut PieceWriter,
    sink: &mut S,
    names: &[Text],
    phrases: &[Phrase],
) -> Result<(), Failed>
    ensures { HasWritten (S.took sink.old) (S.took sink.new) (S.faults sink.old) (S.faults sink.new)
        (flat_map (phrase_text names.now) phrases.now) result }
{
    writer.begin();
    put_phrases(writer, sink, names, phrases);
    writer.finish(sink)
}

impl NamedText {
    /// The empty text, in which these names may stand. Takes no memory.
    pub fn new(alloc: Global, names: Vec<Text>) -> NamedText
        ensures { result ≡ record { names = names.items; text = [] } }
    {
        NamedText {
            names,
            phrases: Vec::new(alloc),
        }
    }

    // Appends a phrase.
    fn push(&mut self, phrase: Phrase) -> Result<(), Memory>
        ensures ok { OnOk result (self.new.text ≡ self.old.text ++ phrase_text self.old.names phrase) }
        ensures names { self.new.names ≡ self.old.names }
    {
        self.phrases.push(phrase)?;
        Ok(())
    }

    /// Appends the bytes.
    pub fn word(&mut self, bytes: &'static [u8]) -> Result<(), Memory>
        ensures ok { OnOk result (self.new.text ≡ self.old.text ++ bytes.now) }
        ensures names { self.new.names ≡ self.old.names }
    {
        self.push(Phrase::Word(bytes))
    }

    /// Appends the name of this number, nothing where there is none.
    pub fn name(&mut self, number: u16) -> Result<(), Memory>
        ensures ok { OnOk result (self.new.text ≡ self.old.text ++ slice_index_or self.old.names number []) }
        ensures names { self.new.names ≡ self.old.names }
    {
        self.push(Phrase::Name(number))
    }

    /// Appends a line: the bytes, the name of this number, nothing where there is none, and the end of the line. Takes
    /// the memory of one word.
    pub fn line(&mut self, head: &'static [u8], number: u16) -> Result<(), Memory>
        ensures ok { OnOk result (self.new.text
            ≡ self.old.text ++ head.now ++ slice_index_or self.old.names number [] ++ codes "\n") }
        ensures names { self.new.names ≡ self.old.names }
    {
        self.push(Phrase::Line(number, head))
    }

    /// The text at once, in time and memory of its length.
    pub fn whole(&self, alloc: Global) -> Result<Text, Memory>
        ensures { IfOk result (λ text. text ≡ self.now.text) }
    {
        let mut text = Text::new(alloc);
        append_phrases(&mut text, &self.names, &self.phrases)?;
        Ok(text)
    }

    /// Writes the text, through a writer that nobody else uses meanwhile. On `Failed` the output took a front of it that
    /// is not the whole. Takes no memory; time: the text.
    pub fn write<S: Sink>(&self, writer: &mut PieceWriter, sink: &mut S) -> Result<(), Failed>
        ensures ok { OnOk result (Appends (S.took sink.old) (S.took sink.new) self.now.text) }
        ensures err { OnErr result (AppendsFront (S.took sink.old) (S.took sink.new) self.now.text) }
        ensures grows { S.faults sink.old ≤ S.faults sink.new }
        ensures failed { OnErr result (Rose (S.faults sink.old) (S.faults sink.new)) }
    {
        write_phrases(writer, sink, &self.names, &self.phrases)
    }
}
