//! What is found of levels at the nodes of a text, over the symbols and parameters that stand round
//! them.
//!
//! From kinds of nodes to the level of a use, to what is refused, and to what is too high. Knows
//! nothing of trees, of places in a text, and of how questions are kept.
#![tactic(auto)]

ghost use Rattle.std.specs.Prelude.{◌≡◌, ◌<◌, ◌≤◌, ◌≢◌, ◌∷◌, [], Some, ℕ, List, Option, if◌then◌else◌, slice_get};
ghost use Rattle.std.specs.List.{AllByRecursion};
ghost use Rattle.tla_symbols.specs.declared.level.Kind.{Kind};
ghost use Rattle.tla_symbols.specs.declared.lexeme.Lexeme.{Lexeme};
ghost use Rattle.tla_symbols.specs.declared.lexeme.Span.{Span};
ghost use Rattle.tla_model.specs.Entities.{Meaning};
ghost use Rattle.kind_text.specs.FlatModule.{FlatModule, Form, IsOrdered, Node};
ghost use Rattle.kind_table.specs.Flattened.{first_node};
ghost use Rattle.level_facts.specs.Facts.{AreKinds};
ghost use Rattle.level_text.specs.LevelFaults.{parts_of};
ghost use Rattle.tree_kinds.specs.TreeLevels.{Leveled, Refused, TooHigh, is_above, level_word};
ghost use Rattle.flattened_trees.specs.Questions.{HasKind, IsAtMost, UseOf};
ghost use Rattle.flattened_trees.specs.Answers.{items_of, kind_in, level_answer};
ghost use Rattle.level_answers.specs.Found.{found_kind, is_refused as refuses};

mod frames;
mod levels;

pub use frames::{argument_of, kinds_over_frame};
pub use levels::{is_refused, is_too_high, kind_of, level_of};

/// The kinds that were found of nodes answer what is asked of these: the level of a use, whether
/// something is refused where its parts have kinds, and whether a replacement is too high.
pub fn kinds_answer()
    ensures kind { (flat : FlatModule) (frame : List Meaning) (start end : ℕ)
        (kinds : List (Option Kind)) (i : ℕ) → AreKinds flat (items_of frame) start end kinds
        → start ≤ first_node flat i → i < end → found_kind start kinds i ≡ kind_in flat frame i }
    ensures uses { (flat : FlatModule) (frame : List Meaning) (start end : ℕ)
        (kinds : List (Option Kind)) (i : ℕ) (l : Lexeme)
        → AreKinds flat (items_of frame) start end kinds → start ≤ first_node flat i → i < end
        → level_answer flat frame (UseOf l i)
        ≡ Leveled l (level_word (found_kind start kinds i)) ∷ [] }
    ensures refused { (flat : FlatModule) (frame : List Meaning) (start end : ℕ)
        (kinds : List (Option Kind)) (i : ℕ) (s : Span)
        → AreKinds flat (items_of frame) start end kinds → IsOrdered flat
        → start ≤ first_node flat i → i < end
        → AllByRecursion (λ part. start ≤ first_node flat part) (parts_of (slice_get flat.nodes i))
        → level_answer flat frame (HasKind s i)
        ≡ if refuses flat start kinds i then Refused s ∷ [] else [] }
    ensures high { (flat : FlatModule) (frame : List Meaning) (start end : ℕ)
        (kinds : List (Option Kind)) (i most : ℕ) (s : Span)
        → AreKinds flat (items_of frame) start end kinds → start ≤ first_node flat i → i < end
        → level_answer flat frame (IsAtMost s i most)
        ≡ if is_above most (found_kind start kinds i) then TooHigh s ∷ [] else [] }
{}

/// Each part of a node begins where the node does or later. Of LET this is said of its body alone.
pub fn parts_begin_later()
    ensures { (flat : FlatModule) (start i : ℕ) (node : Node) → IsOrdered flat
        → slice_get flat.nodes i ≡ Some node → node.form ≢ Form.Let → start ≤ first_node flat i
        → AllByRecursion (λ part. start ≤ first_node flat part) node.parts }
{}
