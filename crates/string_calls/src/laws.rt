//! What the methods that look for a text in another mean.
ghost use Rattle.std.specs.Prelude.{◌≡◌, ℕ, ◌+◌, ◌<◌, ◌≤◌, List, [], ◌∷◌, take, drop, length, Some, None, is_some};
ghost use Rattle.std.specs.List.{All};
ghost use Rattle.std.specs.Str.Pattern.{LacksTextAt};
ghost use Rattle.variant_values.specs.Operations.{is_part};
ghost use Rattle.variant_values.specs.StringMethods.{first_place, joined_texts, parts};
ghost use Rattle.string_calls.specs.Laws.{IsFirst};

/// A place that is found is the first at which the text stands (`first`); where none is found it stands nowhere (`nowhere`).
pub fn a_place_is_the_first()
    ensures first { (what text : List ℕ) (n : ℕ) → first_place what text ≡ Some n → IsFirst what text n }
    ensures nowhere { (what text : List ℕ) → first_place what text ≡ None → (k : ℕ) → k ≤ length text → LacksTextAt what text k }
{}

/// `in` on texts is `contains`.
pub fn a_part_is_contained()
    ensures { (part text : List ℕ) → is_part part text ≡ is_some {T = ℕ} (first_place part text) }
{}

/// A split cuts a text at the first place of the separator: the first part stands before it, and the others are the split of
/// what stands behind it (`cut`). A text without the separator is its only part (`whole`).
pub fn a_split_cuts_at_the_first_place()
    ensures cut { (by text : List ℕ) (n : ℕ) → 0 < length by → first_place by text ≡ Some n → parts by text ≡ take n text ∷ parts by (drop (n + length by) text) }
    ensures whole { (by text : List ℕ) → first_place by text ≡ None → parts by text ≡ text ∷ [] }
{}

/// The parts of a split, with the separator between them, are the text (`joined`), and none has the separator in it (`lack`).
pub fn a_split_joins_again()
    ensures joined { (by text : List ℕ) → 0 < length by → joined_texts by (parts by text) ≡ text }
    ensures lack { (by text : List ℕ) → 0 < length by → All (λ p. first_place by p ≡ None) (parts by text) }
{}
