//! Laws of the definitions of values, that no call is needed for.
#![tactic(auto)]

ghost use Rattle.std.specs.Prelude.{◌≡◌, ℕ, List, Option, Ok, true, false};
ghost use Rattle.variant_values.specs.declared.cells.Cell.{Cell};
ghost use Rattle.variant_values.specs.declared.container_methods.ArrayMethod.{ArrayMethod};
ghost use Rattle.variant_values.specs.declared.container_methods.DictMethod.{DictMethod};
ghost use Rattle.variant_values.specs.declared.operators.BinaryOp.{BinaryOp};
ghost use Rattle.variant_values.specs.declared.string_methods.StrMethod.{StrMethod};
ghost use Rattle.variant_values.specs.declared.values.Serial.{Serial};
ghost use Rattle.variant_values.specs.declared.values.Value.{Value};
ghost use Rattle.variant_values.specs.Comparisons.{equality, same_value};
ghost use Rattle.variant_values.specs.ContainerCalls.{array_call_of, dict_call_of};
ghost use Rattle.variant_values.specs.Heaps.{Heap};
ghost use Rattle.variant_values.specs.Indexing.{index_put};
ghost use Rattle.variant_values.specs.Kept.{Kept};
ghost use Rattle.variant_values.specs.Operations.{operated};
ghost use Rattle.variant_values.specs.Same.{HaveKeysOnce, IsSame};
ghost use Rattle.variant_values.specs.StringMethods.{string_call_of};
ghost use Rattle.variant_values.specs.ValueTexts.{Names};

/// A comparison that ends says whether two values are equal by what they contain: equal scalars, arrays of equal items, and
/// dictionaries of the same keys with equal values under them, whatever the order of their entries (`same`, `other`). So does
/// `==` (`equal`, `unequal`).
pub fn a_comparison_is_by_contents()
    ensures same { (cells : List (Option Cell)) → HaveKeysOnce cells → (v w : Value) → same_value cells v w ≡ Ok true → IsSame cells v w }
    ensures other { (cells : List (Option Cell)) → HaveKeysOnce cells → (v w : Value) → same_value cells v w ≡ Ok false → IsSame cells v w → ⊥ }
    ensures equal { (cells : List (Option Cell)) → HaveKeysOnce cells → (v w : Value) → equality cells v w ≡ Ok true → IsSame cells v w }
    ensures unequal { (cells : List (Option Cell)) → HaveKeysOnce cells → (v w : Value) → equality cells v w ≡ Ok false → IsSame cells v w → ⊥ }
{}

/// Calls of values leave what a caller retains: as much of each cell is retained as before.
pub fn calls_keep_what_is_retained()
    ensures arrays { (h : Heap) (method : ArrayMethod) (x : Serial) (args : List Value) → Kept h (array_call_of h method x args) }
    ensures dicts { (h : Heap) (method : DictMethod) (x : Serial) (args : List Value) → Kept h (dict_call_of h method x args) }
    ensures strings { (h : Heap) (method : StrMethod) (text : List ℕ) (args : List Value) → Kept h (string_call_of h method text args) }
    ensures operators { (names : Names) (h : Heap) (op : BinaryOp) (v w : Value) → Kept h (operated names h op v w) }
    ensures indexes { (h : Heap) (v w to : Value) → Kept h (index_put h v w to) }
{}
