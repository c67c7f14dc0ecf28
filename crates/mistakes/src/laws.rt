//! Facts about the definitions alone.
ghost use Rattle.std.specs.Prelude.{◌≡◌, ℕ, ◌<◌, ◌≤◌, List, length, take, true, false};
ghost use Rattle.std.specs.Prelude.{Some};
ghost use Rattle.std.specs.List.{list_all};
ghost use Rattle.mistakes.specs.Corrections.{Correction, Refused, is_accepted, made, only};
ghost use Rattle.mistakes.specs.Forms.{Slot};
ghost use Rattle.mistakes.specs.Fronts.{begins_some};
ghost use Rattle.mistakes.specs.Places.{place_of};

/// The place of a line, among some forms: its tokens up to the place begin like a line of some form, and with
/// any token from the place on they begin like a line of none.
pub fn place_is_where_forms_end()
    ensures up_to { (forms : List (List Slot)) (tokens : List (List ℕ)) (n : ℕ) → 0 < length forms →
        n ≤ place_of forms tokens → begins_some forms (take n tokens) ≡ true }
    ensures beyond { (forms : List (List Slot)) (tokens : List (List ℕ)) (n : ℕ) → place_of forms tokens < n →
        n ≤ length tokens → begins_some forms (take n tokens) ≡ false }
{}

/// A corrected line has a form: each line of the only correction of a table is one that its reader takes, and the
/// place of such a line is its end.
pub fn corrected_lines_have_forms()
    ensures accepted { (refused : Refused) (table : List Correction) (one : Correction) → only refused table ≡ Some one →
        list_all (λ pieces. is_accepted refused (made refused.words pieces)) one.lines ≡ true }
    ensures whole { (refused : Refused) (words : List (List ℕ)) → is_accepted refused words ≡ true →
        place_of refused.forms words ≡ length words }
{}
