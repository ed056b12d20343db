// Laws of the definitions of sweeps, frees and what a caller holds.
ghost use Rattle.std.specs.Prelude.{◌≡◌, ◌<◌, ℕ, Bool, true, List, ◌∷◌, length, Option, Some};
ghost use Rattle.variant_values.specs.declared.cells.Cell.{Cell};
ghost use Rattle.variant_values.specs.declared.values.Serial.{Serial};
ghost use Rattle.variant_values.specs.declared.values.Value.{Value as AValue};
ghost use Rattle.variant_values.specs.Heaps.{Heap, KnowsAll, cell_at, held_at, held_for, holding, is_living, is_no_container, knows, released, retained, with_new};
ghost use Rattle.variant_values.specs.Places.{in_slot, in_values, is_counted, place_of};
ghost use Rattle.variant_values.specs.Sound.{IsSound};
ghost use Rattle.variant_values.specs.Sweeps.{Goes, IsSwept, swept};
ghost use Rattle.variant_values.specs.Trees.{IsFreed, IsGrounded, IsUnder, freed, is_under, parent_of};

/// The laws of what a sweep takes: what a caller holds stays, and so does what a cell that stays holds, and a cell that holds
/// itself. The set is the least, and a value of a cell that stays is known after the sweep.
pub fn sweeps_keep()
    ensures held { (h : Heap) (x : ℕ) → 0 < held_at h x → Goes h.cells h.held x → ⊥ }
    ensures named { (h : Heap) (x y : ℕ) → 0 < in_slot x (cell_at h.cells y) → (Goes h.cells h.held y → ⊥) → Goes h.cells h.held x → ⊥ }
    ensures itself { (h : Heap) (x : ℕ) → 0 < in_slot x (cell_at h.cells x) → Goes h.cells h.held x → ⊥ }
    ensures least { (h : Heap) (set : ℕ → Bool) → ((x : ℕ) → is_counted (cell_at h.cells x) ≡ true → held_at h x ≡ 0 → ((y : ℕ) → 0 < in_slot x (cell_at h.cells y) → set y ≡ true) → set x ≡ true) → (x : ℕ) → Goes h.cells h.held x → set x ≡ true }
    ensures known { (h new : Heap) → IsSwept h new → (v : AValue) → (Goes h.cells h.held (place_of v) → ⊥) → knows h.cells v ≡ true → knows new.cells v ≡ true }
{}

/// The law that a sweep has one outcome.
pub fn sweeps_are_determined()
    ensures one { (h a b : Heap) → IsSwept h a → IsSwept h b → a ≡ b }
    ensures swept { (h new : Heap) → IsSwept h new → new ≡ swept h }
    ensures some { (h : Heap) → IsSwept h (swept h) }
{}

/// The law that the free of an object and its subtree has one outcome.
pub fn frees_are_determined()
    ensures one { (h a b : Heap) (top : ℕ) → IsFreed h a top → IsFreed h b top → a ≡ b }
    ensures freed { (h new : Heap) (top : ℕ) → IsFreed h new top → new ≡ freed h top }
    ensures some { (h : Heap) (top : ℕ) → IsFreed h (freed h top) top }
{}

/// The law that what is known stays known where an object and its subtree are freed: objects are known as gone.
pub fn frees_keep()
    ensures { (h new : Heap) (top : ℕ) → is_no_container (cell_at h.cells top) ≡ true → IsFreed h new top → (v : AValue) → knows h.cells v ≡ true → knows new.cells v ≡ true }
{}

/// The laws of subtrees: the test says what is in one, and no node is below itself.
pub fn subtrees_are_tested()
    ensures under { (cells : List (Option Cell)) (top x : ℕ) → IsUnder cells top x → is_under cells top x ≡ true }
    ensures only { (cells : List (Option Cell)) (top x : ℕ) → is_under cells top x ≡ true → IsUnder cells top x }
    ensures ends { (cells : List (Option Cell)) (x : ℕ) (p : Serial) → ((y : ℕ) → IsGrounded cells y) → parent_of (cell_at cells x) ≡ Some p → IsUnder cells x p.0 → ⊥ }
{}

/// The laws of what frames hold: a value more is retained, a value less is released, in any order; and over a sweep, a free and a
/// new cell it is counted anew.
pub fn places_are_held()
    ensures retained { (h : Heap) (vs : List AValue) (v : AValue) → retained (held_for h vs) v ≡ held_for h (v ∷ vs) }
    ensures released { (h : Heap) (vs : List AValue) (v : AValue) → released (held_for h (v ∷ vs)) v ≡ held_for h vs }
    ensures order { (h : Heap) (vs ws : List AValue) → ((x : ℕ) → in_values x vs ≡ in_values x ws) → held_for h vs ≡ held_for h ws }
    ensures swept { (h : Heap) (vs : List AValue) → swept (held_for h vs) ≡ held_for (swept (held_for h vs)) vs }
    ensures freed { (h : Heap) (top : ℕ) (vs : List AValue) → freed (held_for h vs) top ≡ held_for (freed h top) vs }
    ensures grown { (h : Heap) (c : Cell) (vs : List AValue) → 0 < length h.cells → KnowsAll h.cells vs → with_new (held_for h vs) c ≡ held_for (with_new h c) vs }
    ensures living { (a b : List (Option Cell)) (vs : List AValue) → length b ≡ length a → ((x : ℕ) → is_living b x ≡ is_living a x) → holding b vs ≡ holding a vs }
{}

/// The law that what is retained and released is as before.
pub fn releases_undo()
    ensures { (h : Heap) (v : AValue) → IsSound h → released (retained h v) v ≡ h }
{}
