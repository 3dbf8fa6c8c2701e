//! The types of conducting equipment, and what each is to a station.
ghost use Rattle.std.specs.Prelude.{◌≡◌, ◌<◌, length, IfOk};
ghost use Rattle.ssd_text.specs.Nesting.{entry_at};
ghost use Rattle.ssd_read.specs.Types.{type_named, use_of_type, is_bond_type, is_tapless_type};
ghost use Rattle.ssd_read.specs.Decoded.{IsTypeOf};

use crate::attributes::attribute;
use crate::role::Role;
use ilk_base::Memory;
use ssd_text::Tree;
use std::alloc::Global;

/// The type of conducting equipment (IEC 61850-6): those that make a difference to a station, and all
/// others together. The definitions speak of it.
#[derive(Clone, Copy, PartialEq, Eq)]
pub enum EquipmentType {
    /// `CBR`
    CircuitBreaker,
    /// `DIS`: a disconnector or an earthing switch
    Disconnector,
    /// `IFL`
    InfeedingLine,
    /// `GEN`
    Generator,
    /// `CTR`
    CurrentTransformer,
    /// `VTR`
    VoltageTransformer,
    /// `SAR`
    SurgeArrester,
    /// `CAB`
    PowerCable,
    /// `LIN`
    PowerLine,
    /// `GIL`
    GasInsulatedLine,
    /// every other type
    Other,
}

/// What equipment is to a station, by its type. The definitions speak of it.
#[derive(Clone, Copy, PartialEq, Eq)]
pub enum Use {
    /// `CBR`
    Breaker,
    /// `DIS`: a disconnector, or an earthing switch where one terminal is grounded
    Disconnector,
    /// `IFL` and `GEN`
    Infeed,
    /// every other type
    Other,
}

// The type that a word names.
fn type_named(word: &str) -> EquipmentType
    ensures { result ≡ type_named word.now }
{
    match word {
        "CBR" => EquipmentType::CircuitBreaker,
        "DIS" => EquipmentType::Disconnector,
        "IFL" => EquipmentType::InfeedingLine,
        "GEN" => EquipmentType::Generator,
        "CTR" => EquipmentType::CurrentTransformer,
        "VTR" => EquipmentType::VoltageTransformer,
        "SAR" => EquipmentType::SurgeArrester,
        "CAB" => EquipmentType::PowerCable,
        "LIN" => EquipmentType::PowerLine,
        "GIL" => EquipmentType::GasInsulatedLine,
        _ => EquipmentType::Other,
    }
}

// The type of an element of this role, where it is equipment that says one.
pub(crate) fn type_in(
    alloc: Global,
    tree: &Tree<'_>,
    i: u32,
    role: Role,
) -> Result<Option<EquipmentType>, Memory>
    requires { i < length tree.now }
    ensures { IfOk result (IsTypeOf role (entry_at tree.now i)) }
{
    if role != Role::ConductingEquipment {
        return Ok(None);
    }
    match attribute(alloc, tree, i, "type")? {
        Some(word) => Ok(Some(type_named(word.as_str()))),
        None => Ok(None),
    }
}

/// What equipment of a type is to a station.
pub fn use_of(kind: Option<EquipmentType>) -> Use
    ensures { result ≡ use_of_type kind }
{
    match kind {
        Some(EquipmentType::CircuitBreaker) => Use::Breaker,
        Some(EquipmentType::Disconnector) => Use::Disconnector,
        Some(EquipmentType::InfeedingLine | EquipmentType::Generator) => Use::Infeed,
        _ => Use::Other,
    }
}

/// Whether the links of equipment of a type are bonds.
pub fn is_bond(kind: Option<EquipmentType>) -> bool
    ensures { result ≡ is_bond_type kind }
{
    matches!(
        kind,
        Some(
            EquipmentType::CurrentTransformer
                | EquipmentType::PowerCable
                | EquipmentType::PowerLine
                | EquipmentType::GasInsulatedLine
        )
    )
}

/// Whether equipment of a type is no load.
pub fn is_tapless(kind: Option<EquipmentType>) -> bool
    ensures { result ≡ is_tapless_type kind }
{
    matches!(
        kind,
        Some(
            EquipmentType::VoltageTransformer
                | EquipmentType::SurgeArrester
                | EquipmentType::CurrentTransformer
        )
    )
}
