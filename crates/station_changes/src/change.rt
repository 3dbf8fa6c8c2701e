//! The two ways in which an operation can change.

/// How the new station judges an operation otherwise than the old one.
#[derive(Clone, Copy, PartialEq, Eq)]
pub enum Change {
    /// the old one releases it, and the new one forbids it
    Stricter,
    /// the old one forbids it, and the new one releases it
    Looser,
}
