//! The depth of definitions, and the faults of levels.
//!
//! No code: each function states a law that definitions and proofs above cite. Knows nothing of names,
//! of places in a text, and of how definitions are kept.
#![tactic(auto)]

ghost use Rattle.std.specs.Prelude.{◌≡◌, ℕ, ◌<◌, ◌≤◌, List, Some, length, slice_get};
ghost use Rattle.kind_text.specs.FlatModule.{Extends, FlatModule, Form, IsOrdered, Node};
ghost use Rattle.level_text.specs.Depth.{depth, depth_of, form_depth};

/// The depth of a node is that of its form over the depths of what it is made of.
pub fn depth_unfolds()
    ensures { (flat : FlatModule) (i : ℕ) (node : Node) → IsOrdered flat
        → slice_get flat.nodes i ≡ Some node
        → depth flat i ≡ form_depth flat (depth flat) node.form node.parts }
{}

/// Further definitions change no depth.
pub fn depth_is_kept()
    ensures { (flat more : FlatModule) (i : ℕ) → Extends flat more → IsOrdered flat
        → i < length flat.nodes → depth flat i ≡ depth more i }
{}

/// A node is as deep as each definition that it uses, and so a definition is deeper than those.
pub fn uses_lead_down()
    ensures { (flat : FlatModule) (i : ℕ) (node : Node) (path : List ℕ) (d : ℕ) → IsOrdered flat
        → slice_get flat.nodes i ≡ Some node → node.form ≡ Form.Use path d
        → depth_of (depth flat) (slice_get flat.definitions d) ≤ depth flat i }
{}
