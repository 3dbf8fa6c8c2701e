//! Why a drawing is refused.

ghost use Rattle.std.specs.Prelude.{◌≡◌};
ghost use Rattle.ssd_read.specs.declared.refusal.SsdRefusal.TheVariants.{Memory as NoMemory};
ghost use Rattle.ssd_read.specs.Seen.{refusal_of, refusal_of_text};

use ilk_base::Memory;
use ssd_text::TextRefusal;
use station_graph::{BuildFault, What};
use std::alloc::{AllocError, AllocFailed};

/// The first fault of a drawing, and its place: the number of bytes before it in the file.
///
/// The faults that are no want of memory are numbered 1 to 15, as they stand here. The first seven
/// are those of the text. 8 to 10 are looked for in all elements, then 11 to 14, then 15, each in
/// document order; a file that is too long is refused with 15 before all others, and paths that are too
/// long together between 8 and 9.
#[derive(Debug, Drop, PartialEq, Eq)]
pub enum SsdRefusal {
    /// 1: the text is not UTF-8. The place is the length of its longest front that is.
    Encoding { at: u32 },
    /// 2: what begins here is no whole piece of a document, or may not stand here.
    Syntax { at: u32 },
    /// 3: a document type declaration.
    Doctype { at: u32 },
    /// 4: the start tag of an element inside 64 open ones.
    Deep { at: u32 },
    /// 5: an end tag that is not that of the innermost open element.
    Mismatch { at: u32 },
    /// 6: the innermost element that does not end.
    Unclosed { at: u32 },
    /// 7: the start tag of one element more than 200,000.
    Many { at: u32 },
    /// 8: the root element's name, after its prefix, is not `SCL`.
    Root { at: u32 },
    /// 9: an element whose name is absent, empty or holds a control character or U+007F, or a
    /// `ConductingEquipment` without a type.
    NoName { at: u32 },
    /// 10: an element with the path of an earlier one of its kind, or a node with the key of an
    /// earlier node.
    Twice { at: u32 },
    /// 11: a terminal that is not grounded and stands on no node of the drawing.
    NodeMissing { at: u32 },
    /// 12: a breaker or disconnector without exactly two terminals, with their number; or an infeed
    /// without exactly one ungrounded terminal, with the number of those.
    Terminals { at: u32, count: u32 },
    /// 13: a breaker with a grounded terminal, or a disconnector with two.
    Grounded { at: u32 },
    /// 14: a breaker or disconnector whose two ends are one node.
    Loop { at: u32 },
    /// 15: one more than a limit, with what is counted and that number.
    Limit { what: What, count: u32 },
    /// There was not enough memory.
    Memory,
}

impl SsdRefusal {
    ghost use Rattle.ssd_read.specs.Shown.{number, place, limit, count};

    /// The number of the fault, from 1 to 15; none for want of memory.
    pub fn number(&self) -> Option<u8>
        ensures { result ≡ number self.now }
    {
        match self {
            SsdRefusal::Encoding { .. } => Some(1),
            SsdRefusal::Syntax { .. } => Some(2),
            SsdRefusal::Doctype { .. } => Some(3),
            SsdRefusal::Deep { .. } => Some(4),
            SsdRefusal::Mismatch { .. } => Some(5),
            SsdRefusal::Unclosed { .. } => Some(6),
            SsdRefusal::Many { .. } => Some(7),
            SsdRefusal::Root { .. } => Some(8),
            SsdRefusal::NoName { .. } => Some(9),
            SsdRefusal::Twice { .. } => Some(10),
            SsdRefusal::NodeMissing { .. } => Some(11),
            SsdRefusal::Terminals { .. } => Some(12),
            SsdRefusal::Grounded { .. } => Some(13),
            SsdRefusal::Loop { .. } => Some(14),
            SsdRefusal::Limit { .. } => Some(15),
            SsdRefusal::Memory => None,
        }
    }

    /// The number of bytes before the fault; none for a limit and for want of memory.
    pub fn place(&self) -> Option<u32>
        ensures { result ≡ place self.now }
    {
        match self {
            SsdRefusal::Encoding { at }
            | SsdRefusal::Syntax { at }
            | SsdRefusal::Doctype { at }
            | SsdRefusal::Deep { at }
            | SsdRefusal::Mismatch { at }
            | SsdRefusal::Unclosed { at }
            | SsdRefusal::Many { at }
            | SsdRefusal::Root { at }
            | SsdRefusal::NoName { at }
            | SsdRefusal::Twice { at }
            | SsdRefusal::NodeMissing { at }
            | SsdRefusal::Terminals { at, .. }
            | SsdRefusal::Grounded { at }
            | SsdRefusal::Loop { at } => Some(*at),
            SsdRefusal::Limit { .. } | SsdRefusal::Memory => None,
        }
    }

    /// What passed its limit, for a limit alone.
    pub fn limit(&self) -> Option<What>
        ensures { result ≡ limit self.now }
    {
        match self {
            SsdRefusal::Limit { what, .. } => Some(*what),
            _ => None,
        }
    }

    /// The number of terminals, or the count that passed its limit; none for the other faults.
    pub fn count(&self) -> Option<u32>
        ensures { result ≡ count self.now }
    {
        match self {
            SsdRefusal::Terminals { count, .. } | SsdRefusal::Limit { count, .. } => Some(*count),
            _ => None,
        }
    }
}

impl From<Memory> for SsdRefusal {
    ghost from_gives = { λ _ e. e ≡ NoMemory };

    fn from(_e: Memory) -> SsdRefusal {
        SsdRefusal::Memory
    }
}

impl From<AllocError> for SsdRefusal {
    ghost from_gives = { λ _ e. e ≡ NoMemory };

    fn from(_e: AllocError) -> SsdRefusal {
        SsdRefusal::Memory
    }
}

impl<T: Drop> From<AllocFailed<T>> for SsdRefusal {
    ghost from_gives = { λ _ e. e ≡ NoMemory };

    fn from(_e: AllocFailed<T>) -> SsdRefusal {
        SsdRefusal::Memory
    }
}

impl From<BuildFault> for SsdRefusal {
    ghost from_gives = { λ f e. e ≡ refusal_of f };

    fn from(fault: BuildFault) -> SsdRefusal {
        match fault {
            BuildFault::Memory => SsdRefusal::Memory,
            BuildFault::Limit { what, count } => SsdRefusal::Limit { what, count },
        }
    }
}

impl From<TextRefusal> for SsdRefusal {
    ghost from_gives = { λ f e. e ≡ refusal_of_text f };

    fn from(fault: TextRefusal) -> SsdRefusal {
        match fault {
            TextRefusal::Encoding { at } => SsdRefusal::Encoding { at },
            TextRefusal::Syntax { at } => SsdRefusal::Syntax { at },
            TextRefusal::Doctype { at } => SsdRefusal::Doctype { at },
            TextRefusal::Deep { at } => SsdRefusal::Deep { at },
            TextRefusal::Mismatch { at } => SsdRefusal::Mismatch { at },
            TextRefusal::Unclosed { at } => SsdRefusal::Unclosed { at },
            TextRefusal::Many { at } => SsdRefusal::Many { at },
            TextRefusal::Memory => SsdRefusal::Memory,
        }
    }
}
