//! The facts of texts as a function of the texts: what each name is worth, by what it needs.
//!
//! No code: the definitions say what a fact is made from, whether names lead back to one another, and
//! which value each name has; the functions state laws on them. A check of all texts at once and a
//! store that keeps facts while the texts change both answer these values. Knows nothing of what texts
//! and facts are.
#![tactic(auto)]

ghost use Rattle.std.specs.Prelude.{◌≡◌, ℕ, Bool, List, Option, true};
ghost use Rattle.std.specs.FinMap as map;
ghost use Rattle.fact_values.specs.Names.{Texts};
ghost use Rattle.fact_values.specs.Reach.{Reaches};
ghost use Rattle.fact_values.specs.States.{State};
ghost use Rattle.fact_values.specs.Values.{Agree, given_in, needs_in, reaches, value, value_of_text};

/// The value of a name is made of the values of its needs, whether or not they lead back.
pub fn values_unfold<Own, F>()
    ensures { (own_of : List ℕ → List ℕ → Own) (needs_of : Own → Option (List (List ℕ)))
        (fact_of : List ℕ → Own → List (List ℕ × State F) → F)
        → (texts : Texts) (name : List ℕ)
        → value own_of needs_of fact_of texts name ≡ value_of_text own_of needs_of fact_of texts
        (value own_of needs_of fact_of texts) name (map.get texts name) }
{}

/// One name reaches another exactly where a path of needs leads there.
pub fn reach_is_paths<Own, F>()
    ensures path { (own_of : List ℕ → List ℕ → Own) (needs_of : Own → Option (List (List ℕ)))
        (fact_of : List ℕ → Own → List (List ℕ × State F) → F)
        → (texts : Texts) (a b : List ℕ) → reaches own_of needs_of fact_of texts a b ≡ true
        → Reaches (needs_in own_of needs_of fact_of texts) a b }
    ensures found { (own_of : List ℕ → List ℕ → Own) (needs_of : Own → Option (List (List ℕ)))
        (fact_of : List ℕ → Own → List (List ℕ × State F) → F)
        → (texts : Texts) (a b : List ℕ) → Reaches (needs_in own_of needs_of fact_of texts) a b
        → reaches own_of needs_of fact_of texts a b ≡ true }
{}

/// Names are worth the same by two lists of texts that agree on them and on all that they need; and
/// what their needs give to them is the same.
pub fn values_agree<Own, F>()
    ensures values { (own_of : List ℕ → List ℕ → Own) (needs_of : Own → Option (List (List ℕ)))
        (fact_of : List ℕ → Own → List (List ℕ × State F) → F)
        → (texts others : Texts) (among : List ℕ → Bool)
        → Agree own_of needs_of fact_of texts others among
        → (name : List ℕ) → among name ≡ true
        → value own_of needs_of fact_of texts name ≡ value own_of needs_of fact_of others name }
    ensures given { (own_of : List ℕ → List ℕ → Own) (needs_of : Own → Option (List (List ℕ)))
        (fact_of : List ℕ → Own → List (List ℕ × State F) → F)
        → (texts others : Texts) (among : List ℕ → Bool)
        → Agree own_of needs_of fact_of texts others among
        → (name : List ℕ) → among name ≡ true
        → given_in own_of needs_of fact_of texts name
        ≡ given_in own_of needs_of fact_of others name }
{}
