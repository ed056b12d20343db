//! What native calls are and give: the global functions, and the methods of values that no script declares.
#![tactic(auto)]

ghost use Rattle.std.specs.Prelude.{◌≡◌, ℕ, List, length, Option, Some, None, Err, true, false, is_some};
ghost use Rattle.variant_values.specs.declared.cells.Cell.{Cell};
ghost use Rattle.variant_values.specs.declared.faults.RunFault.TheVariants.{BadArgs, NoMethod};
ghost use Rattle.variant_values.specs.declared.values.Value.{Value};
ghost use Rattle.variant_values.specs.Heaps.{Heap};
ghost use Rattle.variant_values.specs.ValueTexts.{Names};
ghost use Rattle.native_calls.specs.Table.{Kind, GlobalFunctions, Row, rows_of, row_in, are_named_once, admitted, takes_count, Params};
ghost use Rattle.native_calls.specs.Natives.{HasFunction, method_native, global_native, access_fault, row_of};

/// Each name stands once among the rows of a kind.
pub fn names_stand_once()
    ensures { (kind : Kind) → are_named_once (rows_of kind) ≡ true }
{}

/// A name that no row of a receiver has is no method of it.
pub fn there_is_no_method_without_a_row()
    ensures methods { (has : HasFunction) (h : Heap) (v : Value) (name : List ℕ) (args : List Value) → access_fault h.cells v ≡ None → row_of h.cells v name ≡ None → method_native has h v name args ≡ Some (Err NoMethod) }
    ensures globals { (names : Names) (h : Heap) (name : List ℕ) (args : List Value) → row_in GlobalFunctions name ≡ None → global_native names h name args ≡ Some (Err NoMethod) }
{}

/// Arguments that are not those of the row, in number or type, are refused by each call that the meaning tells. Those of a wrong
/// number are not admitted (`numbers`).
pub fn arguments_are_those_of_the_row()
    ensures methods { (has : HasFunction) (h : Heap) (v : Value) (name : List ℕ) (row : Row) (args : List Value) → access_fault h.cells v ≡ None → row_of h.cells v name ≡ Some row → is_some row.call ≡ true → admitted h.cells row.params args ≡ false → method_native has h v name args ≡ Some (Err BadArgs) }
    ensures globals { (names : Names) (h : Heap) (name : List ℕ) (row : Row) (args : List Value) → row_in GlobalFunctions name ≡ Some row → is_some row.call ≡ true → admitted h.cells row.params args ≡ false → global_native names h name args ≡ Some (Err BadArgs) }
    ensures numbers { (cells : List (Option Cell)) (params : Params) (args : List Value) → takes_count params (length args) ≡ false → admitted cells params args ≡ false }
{}
