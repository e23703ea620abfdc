//! What an expression is once every use of a definition in it is its body, and the kind that it has
//! then.
//!
//! No code: each function states a law that definitions and proofs above cite. Knows nothing of names,
//! of places in a text, and of how definitions are kept.
#![tactic(auto)]

ghost use Rattle.std.specs.Prelude.{◌≡◌, ℕ, ◌<◌, List, None, Some, if◌then◌else◌, length, slice_get};
ghost use Rattle.kind_text.specs.ExpandedKind.{Expanded, kind};
ghost use Rattle.kind_text.specs.Substitution.{Alike, Item, Same, at, put, stays};
ghost use Rattle.kind_text.specs.FlatModule.{Definition, Extends, FlatModule, Form, IsOrdered, Node};
ghost use Rattle.kind_text.specs.Expansion.{Guard, along_path, are_met, form_item, guard, items, start, text, use_of};

/// Items of the same kinds, put in for parameters, give expressions of the same kind.
pub fn kinds_alone_count()
    ensures put { (t : Expanded) (s u : ℕ → Item) → ((i : ℕ) → Same (s i) (u i))
        → kind (put t s) ≡ kind (put t u) }
    ensures text { (flat : FlatModule) (i : ℕ) (s u : List Item) → Alike s u
        → Same (text flat i s) (text flat i u) }
{}

/// To expand with items put in is to expand over parameters that stay, and then to put them in.
pub fn text_is_put()
    ensures { (flat : FlatModule) (i : ℕ) (s : List Item)
        → put (text flat i (stays 0 (length s))).text (at s) ≡ (text flat i s).text }
{}

/// The expansion of a node is its form over the expansions of what it is made of.
pub fn text_unfolds()
    ensures { (flat : FlatModule) (i : ℕ) (node : Node) (s : List Item) → IsOrdered flat
        → slice_get flat.nodes i ≡ Some node
        → text flat i s ≡ form_item flat (text flat) node.form node.parts s }
{}

/// A use of a definition is the definition's own expansion, with what stands round it and with the
/// arguments put in for its parameters, under the guards of the path.
pub fn use_is_body()
    ensures { (flat : FlatModule) (i : ℕ) (node : Node) (path : List ℕ) (d : ℕ)
        (definition : Definition) (s : List Item) → IsOrdered flat
        → slice_get flat.nodes i ≡ Some node → node.form ≡ Form.Use path d
        → slice_get flat.definitions d ≡ Some definition
        → (text flat i s).text ≡ use_of flat definition
        (along_path flat (text flat) path (start s (items (text flat) node.parts s))) }
{}

/// An expression under guards has its kind where each replacement is within its bound, and else none.
pub fn guards_decide()
    ensures { (guards : List Guard) (t : Expanded)
        → kind (guard guards t) ≡ if are_met guards then kind t else None }
{}

/// Further definitions change no expansion.
pub fn text_is_kept()
    ensures { (flat more : FlatModule) (i : ℕ) → Extends flat more → IsOrdered flat
        → i < length flat.nodes → text flat i ≡ text more i }
{}
