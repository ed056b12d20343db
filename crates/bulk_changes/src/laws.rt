//! What a merge gives, in the words of look-ups and keys.
ghost use Rattle.std.specs.Prelude.{◌≡◌, ◌++◌, Bool, true, false, List, map};
ghost use Rattle.std.specs.Map.{lookup};
ghost use Rattle.std.specs.Option.{option_or};
ghost use Rattle.variant_values.specs.declared.values.Key.{Key};
ghost use Rattle.variant_values.specs.declared.values.Value.{Value};
ghost use Rattle.variant_values.specs.Keys.{same_key, HasKeysOnce};
ghost use Rattle.variant_values.specs.DictMethods.{merged};
ghost use Rattle.bulk_changes.specs.Merges.{lacking};

/// In merged entries a key has the other's value where that is put in, and else the own one (`overwritten`, `kept`). The own keys
/// stand first, in their order, and behind them the other's keys that were missing, in theirs (`keys`). None stands twice (`once`).
pub fn merged_entries()
    ensures overwritten { (es fs : List (Key × Value)) (k : Key) → HasKeysOnce fs → lookup (same_key k) (merged true es fs) ≡ option_or (lookup (same_key k) fs) (lookup (same_key k) es) }
    ensures kept { (es fs : List (Key × Value)) (k : Key) → lookup (same_key k) (merged false es fs) ≡ option_or (lookup (same_key k) es) (lookup (same_key k) fs) }
    ensures keys { (overwrite : Bool) (es fs : List (Key × Value)) → HasKeysOnce fs → map (λ e. e.0) (merged overwrite es fs) ≡ map (λ e. e.0) es ++ map (λ f. f.0) (lacking es fs) }
    ensures once { (overwrite : Bool) (es fs : List (Key × Value)) → HasKeysOnce es → HasKeysOnce (merged overwrite es fs) }
{}
