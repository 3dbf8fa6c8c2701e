//! What the elements of a drawing are, by their names and what they stand in.
ghost use Rattle.std.specs.Prelude.{◌≡◌, ◌<◌, ◌==◌, ◌&&◌, ◌++◌, [], length, IfSome, Some, None, Option, position};
ghost use Rattle.std.specs.Str.{bytes_eq};
ghost use Rattle.ssd_text.specs.Nesting.{Entry as TreeEntry};
ghost use Rattle.ssd_read.specs.Elements.{says, front_of, role_in, counted_as, unless_grounded};
ghost use Rattle.std.specs.Option.{option_map};
ghost use Rattle.ssd_read.specs.Decoded.{IsNameOf};

/// What an element of a drawing is, by its name and where it stands. The definitions speak of it.
#[derive(Clone, Copy, PartialEq, Eq, PartialOrd, Ord)]
pub enum Role {
    /// the element in which all others stand
    Root,
    /// a substation
    Substation,
    /// a voltage level of a substation
    VoltageLevel,
    /// a bay of a voltage level
    Bay,
    /// a connectivity node of a bay, but none that is named `grounded`
    ConnectivityNode,
    /// a piece of conducting equipment of a bay
    ConductingEquipment,
    /// a power transformer of a substation, a voltage level or a bay
    PowerTransformer,
    /// a winding of a power transformer
    TransformerWinding,
    /// a terminal of conducting equipment or of a winding
    Terminal,
    /// what is not read, with all that stands in it
    Skipped,
}

// Whether a name is the front and then the word.
pub(crate) fn is_named(name: &str, front: &[u8], word: &str) -> bool
    ensures { result ≡ bytes_eq name.now (front.now ++ word.now) }
{
    let name = name.as_bytes();
    if name.len() < front.len() {
        return false;
    }
    let (own_front, own_word) = name.split_at(front.len());
    own_front == front && own_word == word.as_bytes()
}

// Where the first colon is.
fn colon(name: &[u8]) -> Option<usize>
    ensures place { result ≡ position (λ b. b == 58) name.now }
    ensures within { IfSome result (λ i. i < length name.now) }
{
    name.iter().position(|b| *b == b':')
}

// What stands in front of the names of read elements.
pub(crate) fn front_of(name: &[u8]) -> &[u8]
    ensures { result.now ≡ front_of name.now }
{
    match colon(name) {
        Some(i) => {
            let (front, _) = name.split_at(i + 1);
            front
        }
        None => &[],
    }
}

// What an element of this name is in an element of a role.
pub(crate) fn role_in(parent: Role, front: &[u8], name: &str) -> Role
    ensures { (e : TreeEntry) → e.name ≡ name.now → result ≡ role_in parent front.now e }
{
    match parent {
        Role::Root if is_named(name, front, "Substation") => Role::Substation,
        Role::Substation if is_named(name, front, "VoltageLevel") => Role::VoltageLevel,
        Role::Substation if is_named(name, front, "PowerTransformer") => Role::PowerTransformer,
        Role::VoltageLevel if is_named(name, front, "Bay") => Role::Bay,
        Role::VoltageLevel if is_named(name, front, "PowerTransformer") => Role::PowerTransformer,
        Role::Bay if is_named(name, front, "ConnectivityNode") => Role::ConnectivityNode,
        Role::Bay if is_named(name, front, "ConductingEquipment") => Role::ConductingEquipment,
        Role::Bay if is_named(name, front, "PowerTransformer") => Role::PowerTransformer,
        Role::PowerTransformer if is_named(name, front, "TransformerWinding") => {
            Role::TransformerWinding
        }
        Role::ConductingEquipment | Role::TransformerWinding if is_named(name, front, "Terminal") =>
            { Role::Terminal }
        _ => Role::Skipped,
    }
}

// The role of an element of this name, but none for a node that is named as earth.
pub(crate) fn unless_grounded(role: Role, name: Option<&str>) -> Role
    ensures { (e : TreeEntry) → IsNameOf role e (option_map (λ s. s.now) name.entry) → result ≡ unless_grounded e role }
{
    if role != Role::ConnectivityNode {
        return role;
    }
    match name {
        Some(name) if "grounded" == name => Role::Skipped,
        _ => role,
    }
}

// As what a named element is counted.
pub(crate) fn counted_as(role: Role) -> Option<Role>
    ensures { result ≡ counted_as role }
{
    match role {
        Role::Substation
        | Role::VoltageLevel
        | Role::Bay
        | Role::ConnectivityNode
        | Role::ConductingEquipment => Some(role),
        Role::PowerTransformer => Some(Role::Bay),
        Role::Root | Role::TransformerWinding | Role::Terminal | Role::Skipped => None,
    }
}
