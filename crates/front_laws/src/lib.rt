//! What the front of a module is, and its laws.
//!
//! Answers which bytes have which front, the tree of a module or its first front fault: they have
//! one, and no other. No code: the function states a law, and what the front in code cites stands in
//! `proofs/`. Knows nothing of how a front is found.
#![tactic(auto)]

ghost use Rattle.std.specs.Prelude.{◌≡◌, ℕ, List};
ghost use Rattle.front_laws.specs.Fronts.{Front, IsFront};

/// Bytes have one front, and no other.
pub fn one_front()
    ensures some { (name bytes : List ℕ) → (front : Front) × IsFront name bytes front }
    ensures same { (name bytes : List ℕ) → (front other : Front) → IsFront name bytes front
        → IsFront name bytes other → front ≡ other }
{
    tla_lexeme::reads_longest();
    unit_laws::one_module();
    unit_laws::derivable_or_bad();
}
