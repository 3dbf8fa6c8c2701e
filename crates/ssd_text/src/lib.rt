//! The text of a single-line diagram, an SSD file of IEC 61850-6, as a tree of elements.
//!
//! What is read is the part of XML that such files use: comments, instructions, CDATA sections,
//! start and end tags and character data, in UTF-8, without a document type declaration. Every
//! other text is refused at its first fault, with the place of that fault.
#![tactic(auto)]

mod bytes;
mod distinct;
mod laws;
pub mod limits;
mod nest;
mod pieces;
mod read;
mod references;
mod refusal;
mod tree;
mod value;

pub use laws::{
    accepted_is_document, document_is_accepted, escaped_is_read_back, one_outcome, read_in_order,
};
pub use read::read_text;
pub use refusal::TextRefusal;
pub use tree::{Attr, Element, Tree};
