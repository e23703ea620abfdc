//! What holds of the shape of all trees that the grammar derives, and so of all that is read.
//!
//! No code: each function states a law. Knows nothing of what names mean, and of how trees are read.
#![tactic(auto)]

ghost use Rattle.std.specs.Prelude.{ℕ, List, Option};
ghost use Rattle.std.specs.List.{AllByRecursion};
ghost use Rattle.tla_symbols.specs.declared.lexeme.Lexeme.{Lexeme};
ghost use Rattle.tla_tree.specs.Syntax.{Tree as TreeOf};
ghost use Rattle.tla_tree.specs.Derivation.{Derives, DerivesDefinition, DerivesInstance};
ghost use Rattle.tla_tree.specs.Lexemes.{one};
ghost use Rattle.unit_grammar.specs.Units.{ModuleUnits};
ghost use Rattle.tla_model.specs.Tables.{Named};
ghost use Rattle.tla_model.specs.Entities.{Text};
ghost use Rattle.module_model.specs.Exports.{Known};
ghost use Rattle.kind_text.specs.FlatModule.{FlatModule};
ghost use Rattle.tree_kinds.specs.Standing.{Outside};
ghost use Rattle.flat_trees.specs.Stands.{Stand};
ghost use Rattle.flattened_trees.specs.Leads.{FlatFace};
ghost use Rattle.front_laws.specs.Fronts.{IsFront, Tree};
ghost use Rattle.flattened_levels.specs.Shapes.{EndsWithInstance, IsShaped, IsShapedDefinition};
ghost use Rattle.flattened_depths.specs.Arranged.{IsArranged, IsArrangedDefinition};
ghost use Rattle.flattened_depths.specs.Rounds.{LeadsBehind};
ghost use Rattle.grammar_shapes.specs.Instances.{HoldsThrough};
ghost use Rattle.grammar_shapes.specs.Units.{IsArrangedUnit, IsArrangedWith, IsShapedUnit};

/// In each tree that lexemes derive the helper forms stand where they belong.
pub fn trees_are_shaped()
    ensures expressions { (x : TreeOf) (a : List Lexeme) (inner : ℕ) (next : Option Lexeme)
        → Derives x a inner next → IsShaped x }
    ensures definitions { (x : TreeOf) (a : List Lexeme) (inner : ℕ) (next : Option Lexeme)
        → DerivesDefinition x a inner next → IsShapedDefinition x }
    ensures instances { (x : TreeOf) (a : List Lexeme) (inner : ℕ) (next : Option Lexeme)
        → DerivesInstance x a inner next → EndsWithInstance (one x) }
{}

/// Each tree that lexemes derive is arranged as it is written, where the modules that definitions in
/// it name lead to what is as deep as they are.
pub fn trees_are_arranged()
    ensures expressions { (flat : FlatModule) (text : Text) (known : Known)
        (named : List ℕ → Outside) (faces : List ℕ → FlatFace) (inside : List ℕ → Named → Stand)
        (x : TreeOf) (a : List Lexeme) (inner : ℕ) (next : Option Lexeme)
        → Derives x a inner next → HoldsThrough (LeadsBehind flat text known named faces inside) x
        → IsArranged (LeadsBehind flat text known named faces inside) x }
    ensures definitions { (flat : FlatModule) (text : Text) (known : Known)
        (named : List ℕ → Outside) (faces : List ℕ → FlatFace) (inside : List ℕ → Named → Stand)
        (x : TreeOf) (a : List Lexeme) (inner : ℕ) (next : Option Lexeme)
        → DerivesDefinition x a inner next
        → HoldsThrough (LeadsBehind flat text known named faces inside) x
        → IsArrangedDefinition (LeadsBehind flat text known named faces inside) x }
    ensures instances { (flat : FlatModule) (text : Text) (known : Known)
        (named : List ℕ → Outside) (faces : List ℕ → FlatFace) (inside : List ℕ → Named → Stand)
        (x : TreeOf) (a : List Lexeme) (inner : ℕ) (next : Option Lexeme)
        → DerivesInstance x a inner next
        → HoldsThrough (LeadsBehind flat text known named faces inside) x
        → IsArrangedWith (LeadsBehind flat text known named faces inside) x }
{}

/// The trees of each unit of a module that is the front of some bytes are shaped and arranged so.
pub fn fronts_are_shaped()
    ensures shaped { (name bytes : List ℕ) (found : ModuleUnits) → IsFront name bytes (Tree found)
        → AllByRecursion IsShapedUnit found.units }
    ensures arranged { (flat : FlatModule) (text : Text) (known : Known) (named : List ℕ → Outside)
        (faces : List ℕ → FlatFace) (inside : List ℕ → Named → Stand) (name bytes : List ℕ)
        (found : ModuleUnits) → IsFront name bytes (Tree found)
        → AllByRecursion (IsArrangedUnit (LeadsBehind flat text known named faces inside))
        found.units }
{}
