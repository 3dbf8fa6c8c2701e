//! The text that a call has to write, as it is held.
ghost use Rattle.std.specs.Prelude.{◌≡◌, ◌≤◌, IfOk, OnOk, OnErr};
ghost use Rattle.std.specs.Io.KnownBytes.{Appends};
ghost use Rattle.ilk_base.specs.Outside.{Rose, AppendsFront};

use ilk_base::{Failed, Memory, Sink, Text, write_all};
use piece_writer::{NamedText, PieceWriter};
use std::alloc::Global;
use std::marker::Model;

// How the text is held.
#[derive(Drop)]
enum Holding {
    // at once
    Whole(Text),
    // each of its names once; it goes out through the writer
    Named(NamedText, PieceWriter),
}

// The text, seen as its bytes, with all that its writing takes.
#[derive(Drop)]
pub struct OutText {
    holding: Holding,
}

impl Model for OutText {
    ghost use Rattle.std.specs.Prelude.{ℕ, List};

    ghost Value = { List ℕ };

    ghost use Rattle.interlock_cli.specs.OutTexts.{out_text_of};

    ghost view = { out_text_of };
}

impl OutText {
    // A text that is held at once.
    pub(crate) fn whole(text: Text) -> OutText
        ensures { result ≡ text }
    {
        OutText {
            holding: Holding::Whole(text),
        }
    }

    // A text of which each name is held once. The writer takes its memory here.
    pub(crate) fn named(alloc: Global, text: NamedText) -> Result<OutText, Memory>
        ensures { IfOk result (λ o. o ≡ text.text) }
    {
        let writer = PieceWriter::new(alloc)?;
        Ok(OutText {
            holding: Holding::Named(text, writer),
        })
    }

    // Writes the text. Takes no memory.
    pub(crate) fn write<O: Sink>(self, out: &mut O) -> Result<(), Failed>
        ensures ok { OnOk result (Appends (O.took out.old) (O.took out.new) self) }
        ensures err { OnErr result (AppendsFront (O.took out.old) (O.took out.new) self) }
        ensures grows { O.faults out.old ≤ O.faults out.new }
        ensures failed { OnErr result (Rose (O.faults out.old) (O.faults out.new)) }
    {
        let OutText { holding } = self;
        match holding {
            Holding::Whole(text) => write_all(out, text.bytes()),
            Holding::Named(text, mut writer) => text.write(&mut writer, out),
        }
    }
}
