//! The line that a call writes of its end, without memory.
ghost use Rattle.std.specs.Prelude.{◌≡◌, ◌≤◌, ◌++◌, OnOk, OnErr, codes, option_map};
ghost use Rattle.std.specs.Fmt.{decimal};
ghost use Rattle.std.specs.Io.KnownBytes.{Appends};
ghost use Rattle.ilk_base.specs.Outside.{Rose, AppendsFront};
ghost use Rattle.station_graph.specs.Limits.{limit_number};
ghost use Rattle.ssd_read.specs.Shown.{limit};
ghost use Rattle.interlock_cli.specs.Lines.{fault_line, line_of, outcome_line, station_line};
ghost use Rattle.interlock_cli.specs.Pieces.{label_where, digits_of};

use crate::end::{End, Outcome};
use ilk_base::{Failed, Sink, write_all, write_pieces};
use itoa::Buffer;
use ssd_read::SsdRefusal;

// The label of a number that is there.
fn label_of(label: &[u8], number: Option<u32>) -> &[u8]
    ensures { result.now ≡ label_where label.now number }
{
    match number {
        Some(_) => label,
        None => b"",
    }
}

// The digits of a number that is there.
fn digits_of(buffer: &mut Buffer, number: Option<u32>) -> &[u8]
    ensures { result.now ≡ digits_of number }
{
    match number {
        Some(number) => buffer.format(number).as_bytes(),
        None => b"",
    }
}

// The number of the limit that is passed.
fn limit_of(refusal: &SsdRefusal) -> Option<u32>
    ensures { result ≡ option_map limit_number (limit refusal.now) }
{
    match refusal.limit() {
        Some(what) => Some(u32::from(what.number())),
        None => None,
    }
}

// Writes the line of a fault of the drawing.
fn tell_fault<S: Sink>(
    sink: &mut S,
    number: u8,
    place: Option<u32>,
    limit: Option<u32>,
    count: Option<u32>,
) -> Result<(), Failed>
    ensures ok { OnOk result (Appends (S.took sink.old) (S.took sink.new) (fault_line number place limit count)) }
    ensures err { OnErr result (AppendsFront (S.took sink.old) (S.took sink.new)
        (fault_line number place limit count)) }
    ensures grows { S.faults sink.old ≤ S.faults sink.new }
    ensures failed { OnErr result (Rose (S.faults sink.old) (S.faults sink.new)) }
{
    let mut number_digits = Buffer::new();
    let mut place_digits = Buffer::new();
    let mut limit_digits = Buffer::new();
    let mut count_digits = Buffer::new();
    write_pieces(
        sink,
        &[
            b"interlock: station refused ".as_slice(),
            number_digits.format(number).as_bytes(),
            label_of(b" at ", place),
            digits_of(&mut place_digits, place),
            label_of(b" limit ", limit),
            digits_of(&mut limit_digits, limit),
            label_of(b" count ", count),
            digits_of(&mut count_digits, count),
            b"\n".as_slice(),
        ],
    )
}

// Writes the line of a drawing that is refused.
fn tell_station<S: Sink>(sink: &mut S, refusal: &SsdRefusal) -> Result<(), Failed>
    ensures ok { OnOk result (Appends (S.took sink.old) (S.took sink.new) (station_line refusal.now)) }
    ensures err { OnErr result (AppendsFront (S.took sink.old) (S.took sink.new) (station_line refusal.now)) }
    ensures grows { S.faults sink.old ≤ S.faults sink.new }
    ensures failed { OnErr result (Rose (S.faults sink.old) (S.faults sink.new)) }
{
    let (place, limit, count) = (refusal.place(), limit_of(refusal), refusal.count());
    match refusal.number() {
        Some(number) => tell_fault(sink, number, place, limit, count),
        None => write_all(sink, b"interlock: out of memory\n"),
    }
}

// Writes a line of two numbers.
fn tell_two<S: Sink>(
    sink: &mut S,
    head: &[u8],
    first: u32,
    middle: &[u8],
    second: u32,
) -> Result<(), Failed>
    ensures ok { OnOk result (Appends (S.took sink.old) (S.took sink.new)
        (head.now ++ decimal first ++ middle.now ++ decimal second ++ codes "\n")) }
    ensures err { OnErr result (AppendsFront (S.took sink.old) (S.took sink.new)
        (head.now ++ decimal first ++ middle.now ++ decimal second ++ codes "\n")) }
    ensures grows { S.faults sink.old ≤ S.faults sink.new }
    ensures failed { OnErr result (Rose (S.faults sink.old) (S.faults sink.new)) }
{
    let mut first_digits = Buffer::new();
    let mut second_digits = Buffer::new();
    let first = first_digits.format(first).as_bytes();
    let second = second_digits.format(second).as_bytes();
    write_pieces(sink, &[head, first, middle, second, b"\n".as_slice()])
}

// Writes a line of one number.
fn tell_one<S: Sink>(sink: &mut S, head: &[u8], number: u32) -> Result<(), Failed>
    ensures ok { OnOk result (Appends (S.took sink.old) (S.took sink.new) (head.now ++ decimal number ++ codes "\n")) }
    ensures err { OnErr result (AppendsFront (S.took sink.old) (S.took sink.new)
        (head.now ++ decimal number ++ codes "\n")) }
    ensures grows { S.faults sink.old ≤ S.faults sink.new }
    ensures failed { OnErr result (Rose (S.faults sink.old) (S.faults sink.new)) }
{
    let mut digits = Buffer::new();
    let number = digits.format(number).as_bytes();
    write_pieces(sink, &[head, number, b"\n".as_slice()])
}

// Writes the line of a call whose text is written: that of a broken premise or of a walk that is too wide, or nothing.
fn tell_written<S: Sink>(sink: &mut S, outcome: Outcome) -> Result<(), Failed>
    ensures ok { OnOk result (Appends (S.took sink.old) (S.took sink.new) (outcome_line outcome)) }
    ensures err { OnErr result (AppendsFront (S.took sink.old) (S.took sink.new) (outcome_line outcome)) }
    ensures grows { S.faults sink.old ≤ S.faults sink.new }
    ensures failed { OnErr result (Rose (S.faults sink.old) (S.faults sink.new)) }
{
    match outcome {
        Outcome::Done => write_all(sink, b""),
        Outcome::Differs => write_all(sink, b""),
        Outcome::Premise { number, line } => tell_two(
            sink,
            b"interlock: premise ",
            u32::from(number),
            b" line ",
            line,
        ),
        Outcome::TooWide { bay } => tell_one(
            sink,
            b"interlock: station refused 18 bay ",
            u32::from(bay.0),
        ),
    }
}

// Writes the line of an end; nothing where the text is written and no premise is broken.
pub(crate) fn tell<S: Sink>(sink: &mut S, end: &End) -> Result<(), Failed>
    ensures ok { OnOk result (Appends (S.took sink.old) (S.took sink.new) (line_of end.now)) }
    ensures err { OnErr result (AppendsFront (S.took sink.old) (S.took sink.new) (line_of end.now)) }
    ensures grows { S.faults sink.old ≤ S.faults sink.new }
    ensures failed { OnErr result (Rose (S.faults sink.old) (S.faults sink.new)) }
{
    match end {
        End::Written(outcome) => tell_written(sink, *outcome),
        End::Usage => write_all(sink, b"interlock: usage\n"),
        End::ReadFault => write_all(sink, b"interlock: read fault\n"),
        End::WriteFault => write_all(sink, b"interlock: write fault\n"),
        End::Long => write_all(sink, b"interlock: input too long\n"),
        End::Memory => write_all(sink, b"interlock: out of memory\n"),
        End::Station(refusal) => tell_station(sink, refusal),
        End::Many { part, step } => tell_two(
            sink,
            b"interlock: station refused 16 part ",
            u32::from(part.0),
            b" step ",
            u32::from(*step),
        ),
        End::Wide { bay } => tell_one(
            sink,
            b"interlock: station refused 17 bay ",
            u32::from(bay.0),
        ),
        End::Input(refusal) => tell_two(
            sink,
            b"interlock: input refused ",
            u32::from(refusal.number),
            b" line ",
            refusal.line,
        ),
    }
}
