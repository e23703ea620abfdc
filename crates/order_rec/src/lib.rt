//! Recursion along an order of numbers, and along a rank, for definitions that are made of what
//! comes before.
//!
//! No code: each function states a law that definitions and proofs above cite. Knows nothing of
//! what the values are.
#![tactic(auto)]

ghost use Rattle.std.specs.Prelude.{◌≡◌, ℕ, ◌<◌};
ghost use Rattle.order_rec.specs.Earlier.{before, along};
ghost use Rattle.order_rec.specs.Ranked.{lower, ranked};

/// A value along an order is its step from the values before it.
pub fn along_unfolds<T>()
    ensures { (d : T) (step : ℕ → (ℕ → T) → T) (i : ℕ)
        → along d step i ≡ step i (before d (along d step) i) }
{}

/// Steps that agree below a number make the same values there.
pub fn along_agrees<T>()
    ensures { (d : T) (step later : ℕ → (ℕ → T) → T) (n : ℕ)
        → ((i : ℕ) → i < n → (f : ℕ → T) → step i f ≡ later i f) → (i : ℕ) → i < n
        → along d step i ≡ along d later i }
{}

/// A value along a rank is its step from the values of lower rank.
pub fn ranked_unfolds<X, T>()
    ensures { (d : T) (rank : X → ℕ) (step : X → (X → T) → T) (x : X)
        → ranked d rank step x ≡ step x (lower d rank (ranked d rank step) x) }
{}
