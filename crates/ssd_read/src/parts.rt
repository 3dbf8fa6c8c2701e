//! Which elements are parts.
ghost use Rattle.std.specs.Prelude.{◌≡◌, ◌<◌, length};
ghost use Rattle.ssd_read.specs.Elements.{element_at};
ghost use Rattle.ssd_read.specs.Steps.{is_part};

use crate::drawing::Drawing;
use crate::role::Role;

/// Whether an element is a part: a bay, or a transformer outside a bay. At once.
pub fn is_part(drawing: &Drawing<'_>, i: u32) -> bool
    requires { i < length drawing.now }
    ensures { result ≡ is_part (element_at drawing.now i) }
{
    match drawing.role(i) {
        Role::Bay => true,
        Role::PowerTransformer => drawing.within(i) != Role::Bay,
        _ => false,
    }
}
