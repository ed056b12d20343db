//! What the orders of texts and of a sort are.
ghost use Rattle.std.specs.Prelude.{◌≡◌, List, Bool};
ghost use Rattle.std.specs.List.Sorted.{IsPermutation, IsSortedBy};
ghost use Rattle.std.specs.Str.{chars};
ghost use Rattle.variant_values.specs.declared.values.Value.{Value};
ghost use Rattle.variant_values.specs.ArrayMethods.{in_order, number_before, text_before};
ghost use Rattle.variant_values.specs.Operators.{text_order};

/// The values that a sort gives are sorted (`sorted`), and they are the values that were there (`same`).
pub fn a_sort_is_sorted()
    ensures sorted { (vs : List Value) → IsSortedBy number_before (in_order number_before vs) × IsSortedBy text_before (in_order text_before vs) }
    ensures same { (before : Value → Value → Bool) (vs : List Value) → IsPermutation vs (in_order before vs) }
{}

/// The order of texts, which is computed by their bytes, is their order by code points.
pub fn texts_are_ordered_by_code_points(a: &str, b: &str)
    ensures { text_order a.now b.now ≡ text_order (chars a.now) (chars b.now) }
{}
