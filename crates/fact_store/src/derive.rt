ghost use Rattle.std.specs.Prelude.{◌≡◌, ◌≤◌, ◌+◌, ℕ, List, Option, Bool, true, IfOk};
ghost use Rattle.fact_values.specs.States.{State, same_given};
ghost use Rattle.fact_store.specs.Given.{states};
ghost use Rattle.fact_values.specs.Values.{ComesFromTexts};

use crate::given::Given;
use std::alloc::Global;
use step_count::Steps;
use tool_list::{Chars, List, Memory};

/// A way to derive facts from texts. A text has an own part, which names what it needs; its fact is
/// made from that and from what the needs give, of which the faces alone count.
pub trait Derive {
    /// What a text gives by itself.
    type Own: Drop;
    /// What is derived of a text and its needs.
    type Fact: Drop;

    /// The own part of a text: of its name and its bytes alone.
    ghost own_of: { List ℕ → List ℕ → Self.Own };

    /// The names that an own part needs, in order; none where the text is broken.
    ghost needs_of: { Self.Own → Option (List (List ℕ)) };

    /// The fact of a name, its own part and what its needs give.
    ghost fact_of: { List ℕ → Self.Own → List (List ℕ × State Self.Fact) → Self.Fact };

    /// Whether two facts have the same face.
    ghost same: { Self.Fact → Self.Fact → Bool };

    /// The own part of a text.
    fn own(&mut self, alloc: Global, name: &str, bytes: &[u8]) -> Result<Self::Own, Memory>
        ensures { IfOk result (λ own. own ≡ own_of name.now bytes.now) };

    /// The needs of an own part, in order. `None` exactly where the text is broken.
    fn needs(&self, alloc: Global, own: &Self::Own) -> Result<Option<List<Chars>>, Memory>
        ensures { IfOk result (λ needs. needs ≡ needs_of own.now) };

    /// The fact of a name. It counts one step at most.
    fn fact<L>(
        &mut self,
        alloc: Global,
        name: &str,
        own: &Self::Own,
        given: &Given<Self::Fact>,
        steps: &mut Steps<L>,
    ) -> Result<Self::Fact, Memory>
        requires { ComesFromTexts own_of needs_of fact_of same name.now own.now (states given.now) }
        ensures fact { IfOk result (λ fact. fact ≡ fact_of name.now own.now (states given.now)) }
        ensures counted { steps.old ≤ steps.new }
        ensures once { steps.new ≤ steps.old + 1 };

    /// Whether two facts have the same face.
    fn same_face(&self, a: &Self::Fact, b: &Self::Fact) -> bool
        ensures { result ≡ same a.now b.now };

    /// Each fact has the face that it has.
    ghost same_refl: { (a : Self.Fact) → same a a ≡ true };

    ghost same_sym: { (a b : Self.Fact) → same a b ≡ true → same b a ≡ true };

    ghost same_trans: { (a b c : Self.Fact) → same a b ≡ true → same b c ≡ true → same a c ≡ true };

    /// Of what is given, the faces alone count.
    ghost respects: { (name : List ℕ) (own : Self.Own) (xs ys : List (List ℕ × State Self.Fact))
        → same_given same xs ys ≡ true → fact_of name own xs ≡ fact_of name own ys };
}
