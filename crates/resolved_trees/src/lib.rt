//! Definitions with their names resolved, as values: without numbers of nodes, definitions and instances.
//!
//! No code: each function states a law that definitions and proofs above cite. Knows nothing of names,
//! of places in a text, and of how definitions are kept.
#![tactic(auto)]

ghost use Rattle.std.specs.Prelude.{◌≡◌, ℕ, ◌<◌, List, Some, length, slice_get};
ghost use Rattle.kind_text.specs.Expansion.{text};
ghost use Rattle.kind_text.specs.FlatModule.{Extends, FlatModule, IsOrdered, Node};
ghost use Rattle.kind_text.specs.Substitution.{Item};
ghost use Rattle.level_text.specs.Depth.{depth};
ghost use Rattle.resolved_trees.specs.Resolved.{depth_in, form_at, item_of, resolved};

/// What a node expands to is told by its resolved tree, whatever is put in.
pub fn trees_tell_expansions()
    ensures { (flat : FlatModule) (i : ℕ) (s : List Item)
        → text flat i s ≡ item_of (resolved flat i) s }
{}

/// So is how deep it is.
pub fn trees_tell_depths()
    ensures { (flat : FlatModule) (i : ℕ) → depth flat i ≡ depth_in (resolved flat i) }
{}

/// The tree of a node is its form over the trees of what it is made of.
pub fn trees_unfold()
    ensures { (flat : FlatModule) (i : ℕ) (node : Node) → IsOrdered flat
        → slice_get flat.nodes i ≡ Some node
        → resolved flat i ≡ form_at flat (resolved flat) node.form node.places node.parts }
{}

/// Further definitions change no resolved tree.
pub fn trees_are_kept()
    ensures { (flat more : FlatModule) (i : ℕ) → Extends flat more → IsOrdered flat
        → i < length flat.nodes → resolved flat i ≡ resolved more i }
{}
