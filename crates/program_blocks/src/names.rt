//! Lists of variables.
ghost use Rattle.std.specs.Prelude.{◌↔◌, IsTrue};
ghost use Rattle.std.specs.List.{Contains};

use structured_text::Name;

/// Whether the variable is one of these.
pub fn is_among(names: &[Name], name: Name) -> bool
    ensures { IsTrue result ↔ Contains names.now name }
{
    names.contains(&name)
}
