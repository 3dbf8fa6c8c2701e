//! The record that a node keeps, as bytes and against the station.
ghost use Rattle.std.specs.Prelude.{◌≡◌, ◌<◌, ◌+◌, ◌↔◌, ◌^◌, ℕ, [], ◌∷◌, length, Some, None, IfSome, IsTrue};
ghost use Rattle.std.specs.Prelude.{slice_index};
ghost use Rattle.std.specs.Int.{w16, w32, to_be_bytes};
ghost use Rattle.central_rules.specs.Meaning.{IsBay};
ghost use Rattle.bay_protocol.specs.declared.values.Kept.{Kept as Record};
ghost use Rattle.bay_protocol.specs.Fits.{IsOwn, KeptFits, LockFits, GrantFits};
ghost use Rattle.bay_protocol.specs.State.{IsOther};
ghost use Rattle.bay_protocol.specs.KeptRow.{lock_row, grant_row, kept_row, direction_byte, LockInRow, GrantInRow};
ghost use Rattle.bay_protocol.specs.KeptRow.{InRow};
ghost use Rattle.bay_protocol.specs.KeptFields.{number_at, direction_at, lock_at, grant_at};

use crate::values::{Grant, Kept, Lock};
use ilk_base::{BayId, Direction, Op, SwitchId};
use station_graph::Station;

/// Whether a number is that of a bay: of a part of the station with switches. Time: the logarithm of the
/// switches. Takes no memory.
pub fn is_bay(station: &Station, part: BayId) -> bool
    ensures { IsTrue result ↔ IsBay station.now part.0 }
{
    let (_, count) = station.switches_of(part);
    u16::from(part.0) < station.part_count() && count > 0
}

/// Whether a number is that of another bay of the station than this one. Time: the logarithm of the switches.
/// Takes no memory.
pub fn is_other(station: &Station, bay: BayId, part: BayId) -> bool
    ensures { IsTrue result ↔ IsOther station.now bay.0 part.0 }
{
    is_bay(station, part) && part.0 != bay.0
}

/// Whether a number is that of a switch of the bay. At once; takes no memory.
pub fn is_own(station: &Station, bay: BayId, id: SwitchId) -> bool
    ensures { IsTrue result ↔ IsOwn station.now bay.0 id.0 }
{
    id.0 < station.switch_count() && station.switch(id).bay.0 == bay.0
}

fn lock_fits(station: &Station, bay: BayId, granted: Option<Grant>, lock: Lock) -> bool
    ensures { IsTrue result ↔ LockFits station.now bay.0 granted lock }
{
    is_other(station, bay, lock.holder) && lock.round != 0 && granted.is_none()
}

fn grant_fits(station: &Station, bay: BayId, highest: u32, grant: Grant) -> bool
    ensures { IsTrue result ↔ GrantFits station.now bay.0 highest grant }
{
    is_own(station, bay, grant.op.switch) && grant.round == highest && grant.round != 0
}

/// Whether the record is one that a node of this bay may keep: a lock and a granted operation are not both
/// there; the holder of a lock is another bay, and its round is not 0; the round of a granted operation is
/// the highest and not 0, and its switch is of this bay. Time: the logarithm of the switches. Takes no
/// memory.
pub fn kept_fits(station: &Station, bay: BayId, kept: &Kept) -> bool
    ensures { IsTrue result ↔ KeptFits station.now bay.0 kept.now }
{
    let lock = match kept.lock {
        Some(lock) => lock_fits(station, bay, kept.granted, lock),
        None => true,
    };
    let granted = match kept.granted {
        Some(grant) => grant_fits(station, bay, kept.highest, grant),
        None => true,
    };
    lock && granted
}

// The four bytes of a number.
fn number_bytes(number: u32) -> [u8; 4]
    ensures row { result ≡ to_be_bytes w32 number }
    ensures fits { number < 2 ^ 32 }
{
    number.to_be_bytes()
}

fn lock_bytes(lock: Option<Lock>) -> [u8; 6]
    ensures row { result ≡ lock_row lock }
    ensures fits { LockInRow lock }
{
    let Some(lock) = lock else {
        return [0; 6];
    };
    let round = number_bytes(lock.round);
    [1, lock.holder.0, round[0], round[1], round[2], round[3]]
}

fn code_of(direction: Direction) -> u8
    ensures { result ≡ direction_byte direction }
{
    match direction {
        Direction::ToOff => 0,
        Direction::ToOn => 1,
    }
}

// The two bytes of a switch.
fn switch_bytes(id: SwitchId) -> [u8; 2]
    ensures row { result ≡ to_be_bytes w16 id.0 }
    ensures fits { id.0 < 2 ^ 16 }
{
    id.0.to_be_bytes()
}

fn grant_bytes(granted: Option<Grant>) -> [u8; 8]
    ensures row { result ≡ grant_row granted }
    ensures fits { GrantInRow granted }
{
    let Some(grant) = granted else {
        return [0; 8];
    };
    let round = number_bytes(grant.round);
    let switch = switch_bytes(grant.op.switch);
    [
        1,
        round[0],
        round[1],
        round[2],
        round[3],
        switch[0],
        switch[1],
        code_of(grant.op.direction),
    ]
}

// The number in four bytes from a place on.
fn number_at(bytes: &[u8; 18], place: usize) -> u32
    requires { place + 4 < 19 }
    ensures { result ≡ number_at bytes.now place }
{
    u32::from_be_bytes([
        bytes[place],
        bytes[place + 1],
        bytes[place + 2],
        bytes[place + 3],
    ])
}

// The lock that the bytes tell of, if they tell of one.
fn lock_at(bytes: &[u8; 18]) -> Option<Lock>
    ensures { result ≡ lock_at bytes.now }
{
    if bytes[4] == 0 {
        return None;
    }
    Some(Lock {
        holder: BayId(bytes[5]),
        round: number_at(bytes, 6),
    })
}

// Where the operation that the bytes tell of moves its switch.
fn direction_at(bytes: &[u8; 18]) -> Direction
    ensures { result ≡ direction_at bytes.now }
{
    if bytes[17] == 0 {
        Direction::ToOff
    } else {
        Direction::ToOn
    }
}

// The granted operation that the bytes tell of, if they tell of one.
fn grant_at(bytes: &[u8; 18]) -> Option<Grant>
    ensures { result ≡ grant_at bytes.now }
{
    if bytes[10] == 0 {
        return None;
    }
    Some(Grant {
        round: number_at(bytes, 11),
        op: Op {
            switch: SwitchId(u16::from_be_bytes([bytes[15], bytes[16]])),
            direction: direction_at(bytes),
        },
    })
}

impl Kept {
    /// The row of the record (docs/FORMATS.md). Takes no memory.
    pub fn to_bytes(&self) -> [u8; 18]
        ensures row { result ≡ kept_row self.now }
        ensures fits { InRow self.now }
    {
        let highest = number_bytes(self.highest);
        let lock = lock_bytes(self.lock);
        let grant = grant_bytes(self.granted);
        [
            highest[0], highest[1], highest[2], highest[3], lock[0], lock[1], lock[2], lock[3],
            lock[4], lock[5], grant[0], grant[1], grant[2], grant[3], grant[4], grant[5], grant[6],
            grant[7],
        ]
    }

    /// The record whose row the bytes are; none where they are the row of no record. Whether it fits a bay
    /// is told by `kept_fits`. Takes no memory.
    pub fn from_bytes(bytes: &[u8; 18]) -> Option<Kept>
        ensures row { IfSome result (λ k. bytes.now ≡ kept_row k) }
        ensures fits { IfSome result (λ k. InRow k) }
        ensures only { (k : Record) → InRow k → bytes.now ≡ kept_row k → result ≡ Some k }
    {
        let kept = Kept {
            highest: number_at(bytes, 0),
            lock: lock_at(bytes),
            granted: grant_at(bytes),
        };
        if kept.to_bytes() == *bytes {
            Some(kept)
        } else {
            None
        }
    }
}
