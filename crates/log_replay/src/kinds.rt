//! The kinds of records.
ghost use Rattle.std.specs.Prelude.{◌≡◌, ◌≢◌, IfSome, IfNone};
ghost use Rattle.log_replay.specs.declared.kinds.RecordKind.{RecordKind as AnyKind};
ghost use Rattle.log_replay.specs.RecordFaults.{kind_name, field_count};

/// The kinds of records of a log, each named by the first field.
#[derive(Clone, Copy, PartialEq, Eq)]
pub enum RecordKind {
    /// `at`: where a switch stands at first
    At,
    /// `command`: an operation is commanded
    Command,
    /// `sense`: a word of a switch is read
    Sense,
    /// `begin`: a drive begins
    Begin,
    /// `end`: a drive reaches its end
    End,
    /// `deliver`: a message is delivered
    Deliver,
    /// `tick`: a time is over at a bay
    Tick,
    /// `withdraw`: the command of a bay is taken back
    Withdraw,
    /// `restart`: a bay starts again
    Restart,
    /// `part`: the first bytes of a message are delivered
    Part,
    /// `cut`: a drive is cut off
    Cut,
}

// Whether the text names one of the kinds of two fields.
fn two_fields_named(text: &[u8]) -> Option<RecordKind>
    ensures some { IfSome result (λ k. text.now ≡ kind_name k) }
    ensures none { IfNone result ((k : AnyKind) → field_count k ≡ 2 → text.now ≢ kind_name k) }
{
    if text == b"deliver".as_slice() {
        return Some(RecordKind::Deliver);
    }
    if text == b"begin".as_slice() {
        return Some(RecordKind::Begin);
    }
    if text == b"end".as_slice() {
        return Some(RecordKind::End);
    }
    if text == b"tick".as_slice() {
        return Some(RecordKind::Tick);
    }
    if text == b"withdraw".as_slice() {
        return Some(RecordKind::Withdraw);
    }
    if text == b"restart".as_slice() {
        return Some(RecordKind::Restart);
    }
    if text == b"cut".as_slice() {
        return Some(RecordKind::Cut);
    }
    None
}

// The kind that the text names; none where it names none. At once.
pub(crate) fn kind_named(text: &[u8]) -> Option<RecordKind>
    ensures some { IfSome result (λ k. text.now ≡ kind_name k) }
    ensures none { IfNone result ((k : AnyKind) → text.now ≢ kind_name k) }
{
    if text == b"at".as_slice() {
        return Some(RecordKind::At);
    }
    if text == b"command".as_slice() {
        return Some(RecordKind::Command);
    }
    if text == b"sense".as_slice() {
        return Some(RecordKind::Sense);
    }
    if text == b"part".as_slice() {
        return Some(RecordKind::Part);
    }
    two_fields_named(text)
}

// How many fields a record of the kind has.
pub(crate) fn field_count(kind: RecordKind) -> usize
    ensures { result ≡ field_count kind }
{
    match kind {
        RecordKind::At | RecordKind::Command | RecordKind::Sense | RecordKind::Part => 3,
        RecordKind::Begin
        | RecordKind::End
        | RecordKind::Deliver
        | RecordKind::Tick
        | RecordKind::Withdraw
        | RecordKind::Restart
        | RecordKind::Cut => 2,
    }
}
