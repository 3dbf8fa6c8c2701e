//! The session.
ghost use Rattle.std.specs.Prelude.{◌≡◌, ◌==◌, ◌≤◌, ◌<◌, ◌⊎◌, ℕ, List, length, true, Some, IfOk, IfErr, OnOk};
ghost use Rattle.ilk_base.specs.Outside.{Rose};
ghost use Rattle.central_rules.specs.Meaning.{IsBay};
ghost use Rattle.bay_protocol.specs.Fits.{IsNode, FitsHeard};
ghost use Rattle.node_session.specs.Requests.{RequestFits};
ghost use Rattle.node_session.specs.Session.{Does};
ghost use Rattle.node_session.specs.SessionEnds.{Streams, streams, SessionEnds, IsInput};
ghost use Rattle.node_session.specs.Progress.{AnswersLine, LineFails, Stands, Goes};
ghost use Rattle.node_session.specs.declared.end.TheConstants.{MOST_LINES};
ghost use Rattle.node_session.specs.declared.reader.TheConstants.{CHUNK};

use crate::end::{MOST_LINES, SessionEnd};
use crate::reader::{Front, InputTrouble, Reader, without_return};
use crate::request::{LineTrouble, Request};
use crate::requests::read_request;
use crate::text::output_text;
use bay_node::Node;
use central_rules::Judge;
use ilk_base::{BayId, Memory, Sink, Source, Text, write_all};
use station_graph::Station;
use std::alloc::Global;

// Does what is asked, and tells it.
fn act<J: Judge>(
    alloc: Global,
    station: &Station,
    bay: BayId,
    judge: &J,
    node: &mut Node,
    request: Request,
) -> Result<Text, Memory>
    requires same { (J.meaning judge.now).diagram ≡ station.now }
    requires node { IsNode station.now node.old }
    requires fits { FitsHeard (J.meaning judge.now) node.old }
    requires bay { node.old.bay ≡ bay.0 }
    requires asked { RequestFits station.now bay.0 request }
    ensures does { IfOk result (λ text. Does (J.meaning judge.now) station.now node.old request text node.new) }
    ensures node { IsNode station.now node.new }
    ensures fits { FitsHeard (J.meaning judge.now) node.new }
    ensures bay { node.new.bay ≡ bay.0 }
{
    match request {
        Request::Resume(kept) => {
            *node = Node::resume(alloc, station, bay, kept)?;
            Ok(Text::new(alloc))
        }
        Request::Event(event) => {
            let output = node.step(alloc, station, event, judge)?;
            output_text(alloc, station, &output)
        }
        Request::Arrival(bytes) => {
            let output = node.take(alloc, station, bytes.bytes(), judge)?;
            output_text(alloc, station, &output)
        }
    }
}

// Answers a line before which so many are answered.
fn answer<J: Judge, O: Sink>(
    alloc: Global,
    station: &Station,
    bay: BayId,
    judge: &J,
    node: &mut Node,
    count: u32,
    line: &[u8],
    out: &mut O,
) -> Result<(), SessionEnd>
    requires same { (J.meaning judge.now).diagram ≡ station.now }
    requires node { IsNode station.now node.old }
    requires fits { FitsHeard (J.meaning judge.now) node.old }
    requires bay { node.old.bay ≡ bay.0 }
    requires few { count < MOST_LINES }
    ensures ok { OnOk result (AnswersLine (J.meaning judge.now) station.now (count == 0) node.old line.now node.new
        (O.took out.old) (O.took out.new)) }
    ensures err { IfErr result (LineFails (J.meaning judge.now) station.now count node.old line.now
        (O.took out.old) (O.took out.new) (Rose (O.faults out.old) (O.faults out.new))) }
    ensures grows { O.faults out.old ≤ O.faults out.new }
    ensures node { IsNode station.now node.new }
    ensures fits { FitsHeard (J.meaning judge.now) node.new }
    ensures bay { node.new.bay ≡ bay.0 }
{
    let request = match read_request(alloc, station, bay, count == 0, line) {
        Ok(request) => request,
        Err(LineTrouble::Memory) => return Err(SessionEnd::Memory),
        Err(LineTrouble::Refused) => return Err(SessionEnd::Refused { line: count + 1 }),
    };
    let Ok(text) = act(alloc, station, bay, judge, node, request) else {
        return Err(SessionEnd::Memory);
    };
    match write_all(out, text.bytes()) {
        Ok(()) => Ok(()),
        Err(_) => Err(SessionEnd::WriteFault),
    }
}

// Answers the next line; false at the end of the input.
fn answer_next<J: Judge, I: Source, O: Sink>(
    alloc: Global,
    station: &Station,
    bay: BayId,
    judge: &J,
    node: &mut Node,
    count: u32,
    reader: &mut Reader,
    input: &mut I,
    out: &mut O,
) -> Result<bool, SessionEnd>
    requires same { (J.meaning judge.now).diagram ≡ station.now }
    requires node { IsNode station.now node.old }
    requires fits { FitsHeard (J.meaning judge.now) node.old }
    requires bay { node.old.bay ≡ bay.0 }
    requires few { count < MOST_LINES }
    requires near { length reader.old ≤ CHUNK }
    // Wherever the session stood, it goes on so.
    ensures goes { (before : Streams)
        → Stands (J.meaning judge.now) station.now bay.0 before
        (streams (I.left input.old) (I.left_before input.old) (I.faults input.old) (O.took out.old) (O.faults out.old))
        reader.old count node.old
        → Goes (J.meaning judge.now) station.now bay.0 before
        (streams (I.left input.new) (I.left_before input.new) (I.faults input.new) (O.took out.new) (O.faults out.new))
        reader.new count node.new result }
    ensures near { IfOk result (λ more. more ≡ true → length reader.new ≤ CHUNK) }
    ensures node { IsNode station.now node.new }
    ensures fits { FitsHeard (J.meaning judge.now) node.new }
    ensures bay { node.new.bay ≡ bay.0 }
{
    match reader.fill(alloc, input) {
        Ok(Front::Line(len)) => {
            let (line, _) = reader.held().split_at(len);
            let line = without_return(line);
            if let Err(end) = answer(alloc, station, bay, judge, node, count, line, out) {
                return Err(end);
            }
            reader.pass(len + 1);
            Ok(true)
        }
        Ok(Front::TooLong) => Err(SessionEnd::Refused { line: count + 1 }),
        Ok(Front::Last) => {
            let line = reader.held();
            if line.is_empty() {
                return Ok(false);
            }
            match answer(alloc, station, bay, judge, node, count, line, out) {
                Ok(()) => Ok(false),
                Err(end) => Err(end),
            }
        }
        Err(InputTrouble::Failed) => Err(SessionEnd::ReadFault),
        Err(InputTrouble::Memory) => Err(SessionEnd::Memory),
    }
}

// The session.
fn run<J: Judge, I: Source, O: Sink>(
    alloc: Global,
    station: &Station,
    bay: BayId,
    judge: &J,
    input: &mut I,
    out: &mut O,
) -> SessionEnd
    requires same { (J.meaning judge.now).diagram ≡ station.now }
    requires bay { IsBay station.now bay.0 }
    ensures { SessionEnds (J.meaning judge.now) station.now bay.0
        (streams (I.left input.old) (I.left_before input.old) (I.faults input.old) (O.took out.old) (O.faults out.old))
        (streams (I.left input.new) (I.left_before input.new) (I.faults input.new) (O.took out.new) (O.faults out.new))
        result }
{
    let Ok(mut node) = Node::new(alloc, station, bay) else {
        return SessionEnd::Memory;
    };
    let mut reader = Reader::new(alloc);
    for count in 0..MOST_LINES {
        let next = answer_next(
            alloc,
            station,
            bay,
            judge,
            &mut node,
            count,
            &mut reader,
            input,
            out,
        );
        match next {
            Ok(true) => {}
            Ok(false) => return SessionEnd::Done,
            Err(end) => return end,
        }
    }
    if !reader.held().is_empty() {
        return SessionEnd::Long;
    }
    match reader.more(alloc, input) {
        Ok(true) => SessionEnd::Long,
        Ok(false) => SessionEnd::Done,
        Err(InputTrouble::Failed) => SessionEnd::ReadFault,
        Err(InputTrouble::Memory) => SessionEnd::Memory,
    }
}

/// Runs the node of the bay over the lines of the input, from a node to which nothing has happened, or from the
/// record that a first line `kept HEX` hands back (docs/FORMATS.md). Each line is one step of the protocol, and
/// its text is written before the next line is asked for. At most 4,096 bytes are asked of the input at once, and
/// nothing beyond a line before it is answered. Time: that of `Node::step` for each line. Memory: a line and its
/// text, beside what a step takes.
///
/// `ends` says of each end what its cause is, and what `out` took: the text of all lines; of those before the
/// one that is refused, or that would be one too many; of each line whose end was read before the input failed;
/// of the lines before one, and a front of that one's text, where `out` failed. Where the input is not told, it
/// says the same of some input. `complete` says that an input of lines that are not refused, and no more than
/// there may be, is answered to its end where no count rose, or memory was wanting.
pub fn serve<J: Judge, I: Source, O: Sink>(
    alloc: Global,
    station: &Station,
    bay: BayId,
    judge: &J,
    input: &mut I,
    out: &mut O,
) -> SessionEnd
    requires same { (J.meaning judge.now).diagram ≡ station.now }
    requires bay { IsBay station.now bay.0 }
    ensures ends { SessionEnds (J.meaning judge.now) station.now bay.0
        (streams (I.left input.old) (I.left_before input.old) (I.faults input.old) (O.took out.old) (O.faults out.old))
        (streams (I.left input.new) (I.left_before input.new) (I.faults input.new) (O.took out.new) (O.faults out.new))
        result }
    ensures complete { (content : List ℕ) → I.left input.old ≡ Some content → IsInput station.now bay.0 content
        → ¬ Rose (I.faults input.old) (I.faults input.new) → ¬ Rose (O.faults out.old) (O.faults out.new)
        → (result ≡ SessionEnd.Done) ⊎ (result ≡ SessionEnd.Memory) }
{
    run(alloc, station, bay, judge, input, out)
}
