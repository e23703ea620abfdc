//! Nodes of a flat module that are made of written trees.
//!
//! Makes the nodes, definitions and instances of expressions and definitions, and notes what is
//! asked of them. Knows nothing of units, of how names are resolved, and of what the answers are.
#![tactic(auto)]

ghost use Rattle.std.specs.Prelude.{ℕ, Bool, List};
ghost use Rattle.tla_symbols.specs.declared.lexeme.Lexeme.{Lexeme};
ghost use Rattle.tla_tree.specs.Syntax.{Tree, Trees};
ghost use Rattle.tla_model.specs.Tables.{Named};
ghost use Rattle.kind_text.specs.FlatModule.{Extends, FlatModule};
ghost use Rattle.flattened_trees.specs.Leads as leads;
ghost use Rattle.flattened_trees.specs.Questions as questions;
ghost use Rattle.flattened_trees.specs.Flattened as flattened;
ghost use Rattle.tree_flattener.specs.Worlds.{World};

mod adding;
mod apart;
mod asking;
mod defining;
mod flattening;
mod forms;
mod instances;
mod leading;
mod locals;
mod names;
mod paths;
mod rules;
mod scopes;
mod shapes;
mod state;
mod written;

pub use apart::{add_frame, add_meaning, ask_constant, claim, definition_apart};
pub use flattening::{definition, flatten, right_sides};
pub use instances::{Right, instantiate, stay};
pub use locals::Local;
pub use names::{Lead, Names};
pub use state::{Asked, Flattening, Question};
pub use written::Written;

/// What is a tree in a flat module is one in each that has more, and so are what it defines, right
/// sides of replacements, and instances.
pub fn trees_stay()
    ensures expressions { (flat more : FlatModule) (w : World) (setting : leads.Setting)
        (x : Tree) (i : ℕ) (asked : List questions.Question) → Extends flat more
        → flattened.IsFlattened w.text w.means w.implied w.faces flat setting x i asked
        → flattened.IsFlattened w.text w.means w.implied w.faces more setting x i asked }
    ensures definitions { (flat more : FlatModule) (w : World) (setting : leads.Setting)
        (x : Tree) (lead : List Named → leads.Lead) (roots : List ℕ)
        (asked : List questions.Question) → Extends flat more
        → flattened.IsDefined w.text w.means w.implied w.faces flat setting x lead roots asked
        → flattened.IsDefined w.text w.means w.implied w.faces more setting x lead roots asked }
    ensures rights { (flat more : FlatModule) (w : World) (setting : leads.Setting) (l : Lexeme)
        (xs : Trees) (rights : List flattened.Right) (roots : List ℕ)
        (asked : List questions.Question) → Extends flat more
        → flattened.AreRights w.text w.means w.implied w.faces flat setting l xs rights roots asked
        → flattened.AreRights w.text w.means w.implied w.faces more setting l xs rights roots
        asked }
    ensures instances { (flat more : FlatModule) (w : World) (setting : leads.Setting)
        (outer count : ℕ) (guards : Bool) (l : Lexeme) (rights : List flattened.Right) (j : ℕ)
        (asked : List questions.Question) → Extends flat more
        → flattened.IsInstance w.text w.means w.implied w.faces flat setting outer count guards l
        rights j asked
        → flattened.IsInstance w.text w.means w.implied w.faces more setting outer count guards l
        rights j asked }
{}
