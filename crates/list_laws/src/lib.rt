//! Laws on lists, options, tests and texts that several crates cite, beside those of std.
//!
//! They stand in `proofs/`. Two of them are stated here as well, by functions that do nothing.
#![tactic(auto)]

ghost use Rattle.std.specs.Prelude.{◌≡◌, ◌+◌, ◌++◌, ◌∷◌, ◌⊎◌, ℕ, List, [], Some, drop, length, slice_get};

/// An item of a list with one more behind it is one of the list, or the one behind.
pub fn pushed_items<T>()
    ensures { (xs : List T) (x y : T) (i : ℕ) → slice_get (xs ++ x ∷ []) i ≡ Some y
        → (slice_get xs i ≡ Some y) ⊎ ((i ≡ length xs) × (x ≡ y)) }
{}

/// What stands from a place on is the item there, and what stands from the next place on.
pub fn drops_one<T>()
    ensures { (xs : List T) (i : ℕ) (x : T) → slice_get xs i ≡ Some x
        → drop i xs ≡ x ∷ drop (i + 1) xs }
{}
