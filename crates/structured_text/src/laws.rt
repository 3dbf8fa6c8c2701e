//! That variables have different names, that lines in order have one meaning, and that signals that do not come release
//! nothing.
ghost use Rattle.std.specs.Prelude.{◌≡◌, ℕ, List};
ghost use Rattle.structured_text.specs.declared.line.Line.{Line};
ghost use Rattle.structured_text.specs.declared.name.Name.{Name};
ghost use Rattle.structured_text.specs.Meaning.{Store, after};
ghost use Rattle.structured_text.specs.Order.{IsInput, IsSetIn, AreInOrder, AreAmong};
ghost use Rattle.structured_text.specs.Sides.{AreSided, IsCautious};
ghost use Rattle.structured_text.specs.Spelling.{name_text, folded};
ghost use Rattle.structured_text.specs.Within.{IsNumbered};

/// Two variables whose names are the same, also where the case of letters is not told apart, are one: whatever the paths
/// of the switches are. It does nothing and costs nothing: a caller cites its contract.
pub fn names_differ()
    ensures { (paths : List (List ℕ)) (m n : Name) → IsNumbered m → IsNumbered n
        → folded (name_text paths m) ≡ folded (name_text paths n) → m ≡ n }
{}

/// Lines in order have no state: what they set depends on the inputs alone, whatever the variables were before.
pub fn inputs_decide()
    ensures { (lines : List Line) (s t : Store) → AreInOrder IsInput lines → ((m : Name) → IsInput m → s m ≡ t m)
        → (m : Name) → IsSetIn lines m → after lines s m ≡ after lines t m }
{}

/// In whatever order lines stand, if each variable is set once and before it is read they mean the same: so lines may
/// be put into blocks.
pub fn order_is_free()
    ensures { (lines more : List Line) (s : Store) → AreInOrder IsInput lines → AreInOrder IsInput more
        → AreAmong more lines → (m : Name) → IsSetIn more m → after more s m ≡ after lines s m }
{}

/// Where a signal does not come, and counts as TRUE if it says what may be and as FALSE if it says what is certain, lines
/// on the side of denial release nothing that they do not release with it.
pub fn missing_signals()
    ensures { (lines : List Line) → AreSided lines → IsCautious (after lines) }
{}
