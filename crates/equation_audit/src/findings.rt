//! What is found of all blocks.
ghost use Rattle.std.specs.Prelude.{◌≡◌};
ghost use Rattle.equation_audit.specs.Findings.{is_different, some_differ};

use crate::finding::Finding;
use std::marker::Model;

// Whether it is found to be loose or strict.
fn is_different(finding: &Finding) -> bool
    ensures { result ≡ is_different finding.now }
{
    finding.loose.is_some() || finding.strict.is_some()
}

// Whether one of them is.
fn some_differ(findings: &[Finding]) -> bool
    ensures { result ≡ some_differ findings.now }
{
    findings.iter().any(is_different)
}

/// What is found of each block of a text, seen as the list of that. It is made by `audit`.
#[derive(Drop)]
pub struct Audit {
    pub(crate) findings: Vec<Finding>,
}

impl Model for Audit {
    ghost use Rattle.std.specs.Prelude.{List};
    ghost use Rattle.equation_audit.specs.declared.finding.Finding.{Finding};

    ghost Value = { List Finding };

    ghost view = { λ a. a.findings.items };
}

impl Audit {
    /// Whether a block is loose or strict. Time: the blocks. Takes no memory.
    pub fn differs(&self) -> bool
        ensures { result ≡ some_differ self.now }
    {
        some_differ(&self.findings)
    }
}
