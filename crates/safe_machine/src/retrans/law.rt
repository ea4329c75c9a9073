//! Laws on renumbered and confirmed units.

ghost use Rattle.std.specs.Prelude.{◌≡◌, ℕ, List, ◌++◌};
ghost use Rattle.safe_machine.specs.retrans.Units.{Numbered, Rises, above, octets_of, renumber_units, up_to};

/// States the laws of lists of unconfirmed units. Calling it has no effect.
pub fn units_law()
    // Renumbering keeps the units and their order.
    ensures kept { (first : ℕ) (units : List (List ℕ)) → octets_of (renumber_units first units) ≡ units }

    // Consecutive numbers rise.
    ensures rising { (first : ℕ) (units : List (List ℕ)) → Rises (renumber_units first units) }

    // If numbers rise, a list is its units up to a number, followed by the others.
    ensures front { (confirmed : ℕ) (units : List Numbered) → Rises units
        → units ≡ up_to confirmed units ++ above confirmed units }
{}
