//! Lines of the input, read as what they ask.
ghost use Rattle.std.specs.Prelude.{◌≡◌, ◌≢◌, ◌≤◌, ◌++◌, ℕ, List, length, codes, Ok, IfOk, IfSome, IfNone, IsErrOf};
ghost use Rattle.hex.specs.Hex.{decode_of};
ghost use Rattle.station_graph.specs.Diagram.{Diagram};
ghost use Rattle.ilk_base.specs.declared.words.Op.{Op as AnyOp};
ghost use Rattle.ilk_base.specs.declared.words.SwitchId.{SwitchId as Id};
ghost use Rattle.ilk_base.specs.declared.words.Dbpos.{Dbpos as Word};
ghost use Rattle.bay_protocol.specs.declared.values.Kept.{Kept as Record};
ghost use Rattle.bay_protocol.specs.declared.values.NodeEvent.{NodeEvent as Event};
ghost use Rattle.bay_protocol.specs.KeptRow.{kept_row, InRow};
ghost use Rattle.node_session.specs.Requests.{NamesOwn, NamesEvent, NamesRecord, Asks, IsRequest, RequestFits};
ghost use Rattle.node_session.specs.declared.request.TheConstants.{MOST_LINE};

use crate::request::{LineTrouble, MOST_LINE, Request};
use bay_protocol::{Kept, NodeEvent, is_own, kept_fits};
use hex::{FromHex, FromHexError};
use ilk_base::{BayId, Dbpos, Direction, Op, SwitchId, Text};
use operation_lines::switch_of_path;
use station_graph::Station;
use std::alloc::Global;

// What follows the head in the line; none where the line begins otherwise.
fn after<'a>(line: &'a [u8], head: &[u8]) -> Option<&'a [u8]>
    ensures some { IfSome result (λ rest. line.now ≡ head.now ++ rest.now) }
    ensures none { IfNone result ((rest : List ℕ) → line.now ≢ head.now ++ rest) }
{
    line.strip_prefix(head)
}

// The switch of the bay whose path follows the head.
fn own_after(station: &Station, bay: BayId, line: &[u8], head: &[u8]) -> Option<SwitchId>
    ensures some { IfSome result (λ id. NamesOwn station.now bay.0 head.now id.0 line.now) }
    ensures none { IfNone result ((i : ℕ) → ¬ NamesOwn station.now bay.0 head.now i line.now) }
{
    // Its clause says that no two switches have one path; it does nothing.
    station.is_station();
    let Some(path) = after(line, head) else {
        return None;
    };
    let Some(id) = switch_of_path(station, path) else {
        return None;
    };
    if !is_own(station, bay, id) {
        return None;
    }
    Some(id)
}

// `command open PATH`, or `close`.
fn command_of(station: &Station, bay: BayId, line: &[u8]) -> Option<NodeEvent>
    ensures some { IfSome result (NamesEvent station.now bay.0 line.now) }
    ensures none { IfNone result ((op : AnyOp) → ¬ NamesEvent station.now bay.0 line.now (Event.Command op)) }
{
    if let Some(switch) = own_after(station, bay, line, b"command open ") {
        let direction = Direction::ToOff;
        return Some(NodeEvent::Command(Op { switch, direction }));
    }
    if let Some(switch) = own_after(station, bay, line, b"command close ") {
        let direction = Direction::ToOn;
        return Some(NodeEvent::Command(Op { switch, direction }));
    }
    None
}

// `sense WORD PATH`.
fn sense_of(station: &Station, bay: BayId, line: &[u8]) -> Option<NodeEvent>
    ensures some { IfSome result (NamesEvent station.now bay.0 line.now) }
    ensures none { IfNone result ((id : Id) (word : Word) →
        ¬ NamesEvent station.now bay.0 line.now (Event.Sense id word)) }
{
    if let Some(switch) = own_after(station, bay, line, b"sense intermediate ") {
        let word = Dbpos::Intermediate;
        return Some(NodeEvent::Sense { switch, word });
    }
    if let Some(switch) = own_after(station, bay, line, b"sense off ") {
        let word = Dbpos::Off;
        return Some(NodeEvent::Sense { switch, word });
    }
    if let Some(switch) = own_after(station, bay, line, b"sense on ") {
        let word = Dbpos::On;
        return Some(NodeEvent::Sense { switch, word });
    }
    if let Some(switch) = own_after(station, bay, line, b"sense bad ") {
        let word = Dbpos::Bad;
        return Some(NodeEvent::Sense { switch, word });
    }
    if let Some(switch) = own_after(station, bay, line, b"sense lost ") {
        let word = Dbpos::Lost;
        return Some(NodeEvent::Sense { switch, word });
    }
    None
}

// `tick`, `withdraw` or `restart`, whatever the station and the bay.
fn bare_of(line: &[u8]) -> Option<NodeEvent>
    ensures some { IfSome result (λ event. (d : Diagram) (b : ℕ) → NamesEvent d b line.now event) }
    ensures tick { IfNone result (line.now ≢ codes "tick") }
    ensures withdraw { IfNone result (line.now ≢ codes "withdraw") }
    ensures restart { IfNone result (line.now ≢ codes "restart") }
{
    match line {
        b"tick" => Some(NodeEvent::Tick),
        b"withdraw" => Some(NodeEvent::Withdraw),
        b"restart" => Some(NodeEvent::Restart),
        _ => None,
    }
}

// The event of the bay that the line names.
fn event_of(station: &Station, bay: BayId, line: &[u8]) -> Option<NodeEvent>
    ensures some { IfSome result (NamesEvent station.now bay.0 line.now) }
    ensures none { IfNone result ((event : Event) → ¬ NamesEvent station.now bay.0 line.now event) }
{
    if let Some(event) = bare_of(line) {
        return Some(event);
    }
    if let Some(event) = command_of(station, bay, line) {
        return Some(event);
    }
    if let Some(event) = sense_of(station, bay, line) {
        return Some(event);
    }
    if let Some(switch) = own_after(station, bay, line, b"cut ") {
        return Some(NodeEvent::Cut(switch));
    }
    None
}

// The bytes that hexadecimal digits spell.
fn spelled(alloc: Global, digits: &[u8]) -> Result<Text, LineTrouble>
    ensures ok { IfOk result (λ bytes. decode_of digits.now ≡ Ok bytes) }
    ensures err { IsErrOf result LineTrouble.Refused → (bytes : List ℕ) → decode_of digits.now ≢ Ok bytes }
{
    let bytes = match hex::decode(alloc, digits) {
        Ok(bytes) => bytes,
        Err(FromHexError::OutOfMemory) => return Err(LineTrouble::Memory),
        Err(_) => return Err(LineTrouble::Refused),
    };
    let mut text = Text::new(alloc);
    match text.push(&bytes) {
        Ok(()) => Ok(text),
        Err(_) => Err(LineTrouble::Memory),
    }
}

// The record whose row hexadecimal digits spell.
fn spelled_record(digits: &[u8]) -> Option<Kept>
    ensures some { IfSome result (λ k. decode_of digits.now ≡ Ok (kept_row k)) }
    ensures in_row { IfSome result (λ k. InRow k) }
    ensures none { IfNone result ((k : Record) → InRow k → decode_of digits.now ≢ Ok (kept_row k)) }
{
    match <[u8; 18] as FromHex>::from_hex(digits) {
        Ok(bytes) => Kept::from_bytes(&bytes),
        Err(_) => None,
    }
}

// `kept HEX`.
fn record_of(station: &Station, bay: BayId, line: &[u8]) -> Option<Kept>
    ensures some { IfSome result (NamesRecord station.now bay.0 line.now) }
    ensures none { IfNone result ((k : Record) → ¬ NamesRecord station.now bay.0 line.now k) }
{
    let Some(digits) = after(line, b"kept ") else {
        return None;
    };
    let Some(kept) = spelled_record(digits) else {
        return None;
    };
    if !kept_fits(station, bay, &kept) {
        return None;
    }
    Some(kept)
}

/// What the line asks of the node of the bay; a record is handed back only in the first line. `Refused` exactly
/// where it is no line of the input (docs/FORMATS.md). Time: the length of the line. Memory: that of a frame's
/// bytes.
pub fn read_request(
    alloc: Global,
    station: &Station,
    bay: BayId,
    first: bool,
    line: &[u8],
) -> Result<Request, LineTrouble>
    ensures ok { IfOk result (Asks station.now bay.0 first line.now) }
    ensures fits { IfOk result (RequestFits station.now bay.0) }
    ensures short { IfOk result (λ _. length line.now ≤ MOST_LINE) }
    ensures err { IsErrOf result LineTrouble.Refused → ¬ IsRequest station.now bay.0 first line.now }
{
    if line.len() > MOST_LINE {
        return Err(LineTrouble::Refused);
    }
    if let Some(event) = event_of(station, bay, line) {
        return Ok(Request::Event(event));
    }
    if let Some(digits) = after(line, b"frame ") {
        return match spelled(alloc, digits) {
            Ok(bytes) => Ok(Request::Arrival(bytes)),
            Err(trouble) => Err(trouble),
        };
    }
    if !first {
        return Err(LineTrouble::Refused);
    }
    match record_of(station, bay, line) {
        Some(kept) => Ok(Request::Resume(kept)),
        None => Err(LineTrouble::Refused),
    }
}
