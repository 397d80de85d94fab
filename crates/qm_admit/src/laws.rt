//! Laws of admission.

ghost use Rattle.std.specs.Prelude.{◌≡◌, ◌↔◌, ℕ, Bool, true, false, List, [], ◌∷◌, map, pos, neg_ℤ, None};
ghost use Rattle.qapi_types.specs.Goodness.{IsGood};
ghost use Rattle.qapi_types.specs.declared.kind.Whole.TheVariants.{Int, Int8, Int16, Int32, Int64, Uint8, Uint16, Uint32, Uint64, Size};
ghost use Rattle.qapi_types.specs.declared.parts.Parts.{Parts};
ghost use Rattle.qm_json.specs.Cleanness.{IsClean};
ghost use Rattle.qm_json.specs.declared.value.Json.{Json};
ghost use Rattle.qm_admit.specs.Fitting.{Fits};
ghost use Rattle.qm_admit.specs.Misfits.{first_misfit};
ghost use Rattle.qm_admit.specs.Ranges.{least_of, past_of, is_in_range};

/// A clean value fits a type of a sealed schema exactly if there is no fault in it; there is none
/// in any value that fits.
pub fn a_value_without_misfit_fits()
    ensures clean { (p : Parts) → IsGood p → (t : ℕ) (v : Json) → IsClean v →
        (first_misfit p.kinds t v ≡ None) ↔ Fits p.kinds t v }
    ensures any { (p : Parts) → IsGood p → (t : ℕ) (v : Json) →
        Fits p.kinds t v → first_misfit p.kinds t v ≡ None }
{}

/// The least number of each whole type and the first past it, as numbers.
pub fn whole_types_have_these_ends()
    ensures int { (least_of Int ≡ neg_ℤ (pos 9223372036854775808)) × (past_of Int ≡ pos 9223372036854775808) }
    ensures int8 { (least_of Int8 ≡ neg_ℤ (pos 128)) × (past_of Int8 ≡ pos 128) }
    ensures int16 { (least_of Int16 ≡ neg_ℤ (pos 32768)) × (past_of Int16 ≡ pos 32768) }
    ensures int32 { (least_of Int32 ≡ neg_ℤ (pos 2147483648)) × (past_of Int32 ≡ pos 2147483648) }
    ensures int64 { (least_of Int64 ≡ neg_ℤ (pos 9223372036854775808)) × (past_of Int64 ≡ pos 9223372036854775808) }
    ensures uint8 { (least_of Uint8 ≡ pos 0) × (past_of Uint8 ≡ pos 256) }
    ensures uint16 { (least_of Uint16 ≡ pos 0) × (past_of Uint16 ≡ pos 65536) }
    ensures uint32 { (least_of Uint32 ≡ pos 0) × (past_of Uint32 ≡ pos 4294967296) }
    ensures uint64 { (least_of Uint64 ≡ pos 0) × (past_of Uint64 ≡ pos 18446744073709551616) }
    ensures size { (least_of Size ≡ pos 0) × (past_of Size ≡ pos 18446744073709551616) }
{}

/// Of the number below the least of each whole type, the least, the greatest and the number above
/// that, the type has the second and the third.
pub fn whole_types_hold_their_ends()
    ensures int { map (is_in_range Int) (neg_ℤ (pos 9223372036854775809) ∷ neg_ℤ (pos 9223372036854775808) ∷
        pos 9223372036854775807 ∷ pos 9223372036854775808 ∷ []) ≡ false ∷ true ∷ true ∷ false ∷ [] }
    ensures int8 { map (is_in_range Int8) (neg_ℤ (pos 129) ∷ neg_ℤ (pos 128) ∷
        pos 127 ∷ pos 128 ∷ []) ≡ false ∷ true ∷ true ∷ false ∷ [] }
    ensures int16 { map (is_in_range Int16) (neg_ℤ (pos 32769) ∷ neg_ℤ (pos 32768) ∷
        pos 32767 ∷ pos 32768 ∷ []) ≡ false ∷ true ∷ true ∷ false ∷ [] }
    ensures int32 { map (is_in_range Int32) (neg_ℤ (pos 2147483649) ∷ neg_ℤ (pos 2147483648) ∷
        pos 2147483647 ∷ pos 2147483648 ∷ []) ≡ false ∷ true ∷ true ∷ false ∷ [] }
    ensures int64 { map (is_in_range Int64) (neg_ℤ (pos 9223372036854775809) ∷ neg_ℤ (pos 9223372036854775808) ∷
        pos 9223372036854775807 ∷ pos 9223372036854775808 ∷ []) ≡ false ∷ true ∷ true ∷ false ∷ [] }
    ensures uint8 { map (is_in_range Uint8) (neg_ℤ (pos 1) ∷ pos 0 ∷
        pos 255 ∷ pos 256 ∷ []) ≡ false ∷ true ∷ true ∷ false ∷ [] }
    ensures uint16 { map (is_in_range Uint16) (neg_ℤ (pos 1) ∷ pos 0 ∷
        pos 65535 ∷ pos 65536 ∷ []) ≡ false ∷ true ∷ true ∷ false ∷ [] }
    ensures uint32 { map (is_in_range Uint32) (neg_ℤ (pos 1) ∷ pos 0 ∷
        pos 4294967295 ∷ pos 4294967296 ∷ []) ≡ false ∷ true ∷ true ∷ false ∷ [] }
    ensures uint64 { map (is_in_range Uint64) (neg_ℤ (pos 1) ∷ pos 0 ∷
        pos 18446744073709551615 ∷ pos 18446744073709551616 ∷ []) ≡ false ∷ true ∷ true ∷ false ∷ [] }
    ensures size { map (is_in_range Size) (neg_ℤ (pos 1) ∷ pos 0 ∷
        pos 18446744073709551615 ∷ pos 18446744073709551616 ∷ []) ≡ false ∷ true ∷ true ∷ false ∷ [] }
{}
