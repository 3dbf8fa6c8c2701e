//! Why a text is refused.

ghost use Rattle.std.specs.Prelude.{◌≡◌};
ghost use Rattle.ssd_text.specs.declared.refusal.TextRefusal.TheVariants.{Memory};

use std::alloc::{AllocError, AllocFailed};
use thiserror::Error;

/// The first fault of a text, and its place: the number of bytes before it, counted from the
/// start of the text, with a byte order mark.
///
/// The faults that are no want of memory are numbered 1 to 7, as they stand here.
#[derive(Debug, Drop, Error, PartialEq, Eq)]
pub enum TextRefusal {
    /// 1: the text is not UTF-8. The place is the length of its longest front that is.
    #[error("the text is not UTF-8")]
    Encoding { at: u32 },
    /// 2: what begins here with `<` is no whole comment, instruction, CDATA section or tag; or it
    /// may not stand beside the root element; or, at the end of the text, there was no element.
    #[error("here is nothing that may stand in this place")]
    Syntax { at: u32 },
    /// 3: a document type declaration begins here.
    #[error("a document type declaration")]
    Doctype { at: u32 },
    /// 4: a start tag inside 64 open elements.
    #[error("more than 64 elements inside one another")]
    Deep { at: u32 },
    /// 5: an end tag whose name is not that of the innermost open element, or with none open.
    #[error("an end tag that ends no open element")]
    Mismatch { at: u32 },
    /// 6: the text ends in an element. The place is the start tag of the innermost open one.
    #[error("an element that does not end")]
    Unclosed { at: u32 },
    /// 7: the start tag of one element more than 200,000.
    #[error("more than 200,000 elements")]
    Many { at: u32 },
    /// There was not enough memory.
    #[error("out of memory")]
    Memory,
}

impl From<AllocError> for TextRefusal {
    ghost from_gives = { λ _ e. e ≡ Memory };

    fn from(_e: AllocError) -> TextRefusal {
        TextRefusal::Memory
    }
}

impl<T: Drop> From<AllocFailed<T>> for TextRefusal {
    ghost from_gives = { λ _ e. e ≡ Memory };

    fn from(_e: AllocFailed<T>) -> TextRefusal {
        TextRefusal::Memory
    }
}
