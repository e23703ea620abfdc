//! How deep the nodes of a flat module are that are written trees, node by node.
//!
//! No code: each function states a law that definitions and proofs above cite. Knows nothing of how
//! nodes are built.
#![tactic(auto)]

ghost use Rattle.std.specs.Prelude.{◌≡◌, ℕ, Bool, true, List, [], ◌∷◌, ◌++◌, Option, Some, map};
ghost use Rattle.std.specs.Prelude.{slice_get};
ghost use Rattle.tla_symbols.specs.declared.lexeme.Lexeme.{Lexeme};
ghost use Rattle.tla_symbols.specs.declared.lexeme.Span.{Span};
ghost use Rattle.tla_tree.specs.declared.form.Form.TheVariants as Form;
ghost use Rattle.tla_tree.specs.Syntax as tree;
ghost use Rattle.tla_tree.specs.Syntax.{Tree, Trees};
ghost use Rattle.tla_model.specs.declared.names.Binding.TheVariants as binding;
ghost use Rattle.tla_model.specs.declared.names.Binder.{Binder};
ghost use Rattle.tla_model.specs.declared.names.Meaning.TheVariants.{BuiltIn};
ghost use Rattle.tla_model.specs.Contexts.{bind};
ghost use Rattle.tla_model.specs.Tables.{Named};
ghost use Rattle.tla_model.specs.Entities.{Meaning, Text, binding_of, defined, meant};
ghost use Rattle.tla_model.specs.Scopes.{binders};
ghost use Rattle.module_model.specs.Exports.{Known, behind_meaning};
ghost use Rattle.kind_text.specs.FlatModule.{Extends, FlatModule, IsOrdered, places_of};
ghost use Rattle.tree_kinds.specs.Standing.{Outside};
ghost use Rattle.tree_kinds.specs.Expanding.{places_at};
ghost use Rattle.tree_kinds.specs.TreeDepths.{Beneath, deep_names, in_scope};
ghost use Rattle.flat_trees.specs.Growing.{IsLayoutWithin};
ghost use Rattle.flat_trees.specs.Layouts.{Layout, layout_in, layout_repeating, layout_with};
ghost use Rattle.flat_trees.specs.Stands.{Stand};
ghost use Rattle.flat_depths.specs.Depths.{IsAsDeep, beneath_in};
ghost use Rattle.flattened_trees.specs.Leads.{FlatFace, Lead, Setting, repeating};
ghost use Rattle.flattened_trees.specs.Leads.{with_parameters};
ghost use Rattle.flattened_trees.specs.Questions.{Question};
ghost use Rattle.flattened_trees.specs.Flattened.{AreRights, IsDefined, IsFlattened, IsInstance};
ghost use Rattle.flattened_trees.specs.Flattened.{Right};
ghost use Rattle.flattened_trees.specs.Readable.{IsReadable, IsReadableDefinition};
ghost use Rattle.flattened_trees.specs.Readable.{IsReadableThrough};
ghost use Rattle.flattened_trees.specs.Agreeing.{AreNew, IsFresh, TakesAs, is_seen};
ghost use Rattle.flattened_depths.specs.Arranged.{AreArranged, BindsNothing, IsArranged};
ghost use Rattle.flattened_depths.specs.Arranged.{IsArrangedDefinition};
ghost use Rattle.flattened_trees.specs.Answers.{deep_answers};
ghost use Rattle.flattened_depths.specs.Rounds.{IsDefinedAs, IsKnownRound, LeadsBehind};
ghost use Rattle.flattened_depths.specs.Rounds.{PutsInAsDeep, first_beneath, first_layout};
ghost use Rattle.flattened_depths.specs.Rounds.{first_setting, layout_at};

/// A node that is a written tree, node by node, is as deep as the tree, where names lead to what is
/// as deep as they are. And it is a bare operator of so many places where the tree is one.
pub fn trees_are_as_deep()
    ensures depths { (flat : FlatModule) (text : Text) (known : Known) (named : List ℕ → Outside)
        (means : ℕ → Option Meaning) (implied : ℕ → List Meaning) (faces : List ℕ → FlatFace)
        (inside : List ℕ → Named → Stand) (seen : List Meaning) (layout : Layout)
        (setting : Setting) (beneath : Beneath) (x : Tree) (i : ℕ) (asked : List Question)
        → IsOrdered flat → IsKnownRound flat known seen layout setting beneath
        → IsFresh text seen x
        → IsArranged (LeadsBehind flat text known named faces inside) x
        → IsReadable text known named means implied faces layout.context x
        → IsFlattened text means implied faces flat setting x i asked
        → IsAsDeep flat text known named beneath i x }
    ensures places { (flat : FlatModule) (text : Text) (known : Known) (named : List ℕ → Outside)
        (means : ℕ → Option Meaning) (implied : ℕ → List Meaning) (faces : List ℕ → FlatFace)
        (inside : List ℕ → Named → Stand) (seen : List Meaning) (layout : Layout)
        (setting : Setting) (beneath : Beneath) (x : Tree) (i : ℕ) (asked : List Question)
        → IsOrdered flat → IsKnownRound flat known seen layout setting beneath
        → IsFresh text seen x
        → IsArranged (LeadsBehind flat text known named faces inside) x
        → IsReadable text known named means implied faces layout.context x
        → IsFlattened text means implied faces flat setting x i asked
        → places_of (slice_get flat.nodes i) ≡ places_at text known named layout.context x }
{}

/// The name of a definition leads to what is as deep as it is written, so that behind it all is
/// known of names that was known before. And what stands in it is as deep as its tree.
pub fn definitions_are_known()
    ensures { (flat : FlatModule) (text : Text) (known : Known) (named : List ℕ → Outside)
        (means : ℕ → Option Meaning) (implied : ℕ → List Meaning) (faces : List ℕ → FlatFace)
        (inside : List ℕ → Named → Stand) (seen : List Meaning) (layout : Layout)
        (setting : Setting) (beneath : Beneath) (x : Tree) (lead : List Named → Lead)
        (roots : List ℕ) (asked : List Question) → IsOrdered flat
        → IsKnownRound flat known seen layout setting beneath → IsFresh text seen x
        → IsArrangedDefinition (LeadsBehind flat text known named faces inside) x
        → IsReadableDefinition text known named means implied faces layout.context x
        → IsDefined text means implied faces flat setting x lead roots asked
        → (number : ℕ)
        × IsDefinedAs flat text known named faces inside seen layout setting beneath x lead roots
        number }
{}

/// Of the definitions and instances that questions ask for, those that are too deep are, in the
/// order of the questions, the definitions in the tree that are too deep.
pub fn deep_definitions_are_asked()
    ensures trees { (flat : FlatModule) (text : Text) (known : Known) (named : List ℕ → Outside)
        (means : ℕ → Option Meaning) (implied : ℕ → List Meaning) (faces : List ℕ → FlatFace)
        (inside : List ℕ → Named → Stand) (seen : List Meaning) (layout : Layout)
        (setting : Setting) (beneath : Beneath) (x : Tree) (i : ℕ) (asked : List Question)
        → IsOrdered flat → IsKnownRound flat known seen layout setting beneath
        → IsFresh text seen x
        → IsArranged (LeadsBehind flat text known named faces inside) x
        → IsReadable text known named means implied faces layout.context x
        → IsFlattened text means implied faces flat setting x i asked
        → deep_answers flat asked ≡ deep_names text known named beneath x }
    ensures definitions { (flat : FlatModule) (text : Text) (known : Known)
        (named : List ℕ → Outside) (means : ℕ → Option Meaning) (implied : ℕ → List Meaning)
        (faces : List ℕ → FlatFace) (inside : List ℕ → Named → Stand) (seen : List Meaning)
        (layout : Layout) (setting : Setting) (beneath : Beneath) (x : Tree)
        (lead : List Named → Lead) (roots : List ℕ) (asked : List Question) → IsOrdered flat
        → IsKnownRound flat known seen layout setting beneath → IsFresh text seen x
        → IsArrangedDefinition (LeadsBehind flat text known named faces inside) x
        → IsReadableDefinition text known named means implied faces layout.context x
        → IsDefined text means implied faces flat setting x lead roots asked
        → deep_answers flat asked ≡ deep_names text known named beneath x }
{}

/// An instance puts in what is as deep as the replacements of its INSTANCE, with a name or without,
/// behind symbols that stay. And of the definitions that questions ask for there, those that are
/// too deep are the ones in its right sides.
pub fn instances_are_as_deep()
    ensures depths { (flat : FlatModule) (text : Text) (known : Known) (named : List ℕ → Outside)
        (means : ℕ → Option Meaning) (implied : ℕ → List Meaning) (faces : List ℕ → FlatFace)
        (inside : List ℕ → Named → Stand) (seen : List Meaning) (layout : Layout)
        (setting : Setting) (beneath : Beneath) (l : Lexeme) (at : Span) (rights : Trees)
        (outer count : ℕ) (guards : Bool) (sides : List Right) (roots : List ℕ) (j : ℕ)
        (a b : List Question) → IsOrdered flat
        → IsKnownRound flat known seen layout setting beneath
        → IsFresh text seen (tree.Node (Form.Instance l) at rights)
        → BindsNothing (Form.Instance l) rights
        → AreArranged (LeadsBehind flat text known named faces inside) true rights
        → IsReadableThrough text known named means implied faces layout.context
        (tree.Cons (tree.Node (Form.Instance l) at rights) tree.Nil)
        → AreRights text means implied faces flat setting l rights sides roots a
        → IsInstance text means implied faces flat setting outer count guards l sides j b
        → PutsInAsDeep flat text known named beneath l rights j }
    ensures questions { (flat : FlatModule) (text : Text) (known : Known)
        (named : List ℕ → Outside) (means : ℕ → Option Meaning) (implied : ℕ → List Meaning)
        (faces : List ℕ → FlatFace) (inside : List ℕ → Named → Stand) (seen : List Meaning)
        (layout : Layout) (setting : Setting) (beneath : Beneath) (l : Lexeme) (at : Span)
        (rights : Trees) (outer count : ℕ) (guards : Bool) (sides : List Right) (roots : List ℕ)
        (j : ℕ) (a b : List Question) → IsOrdered flat
        → IsKnownRound flat known seen layout setting beneath
        → IsFresh text seen (tree.Node (Form.Instance l) at rights)
        → BindsNothing (Form.Instance l) rights
        → AreArranged (LeadsBehind flat text known named faces inside) true rights
        → IsReadableThrough text known named means implied faces layout.context
        (tree.Cons (tree.Node (Form.Instance l) at rights) tree.Nil)
        → AreRights text means implied faces flat setting l rights sides roots a
        → IsInstance text means implied faces flat setting outer count guards l sides j b
        → deep_answers flat (a ++ b)
        ≡ deep_names text known named beneath (tree.Node (Form.Instance l) at rights) }
{}

/// Before all names all is known of those that are built in. It stays known with one name more that
/// was seen, where more names may have been seen, where `@` repeats other nodes, in the scope of a
/// form that binds names, with parameters, and in a flat module that has more.
pub fn names_stay_known()
    ensures first { (flat : FlatModule) (known : Known)
        → IsKnownRound flat known (BuiltIn ∷ []) first_layout first_setting first_beneath }
    ensures bound { (flat : FlatModule) (text : Text) (known : Known) (seen : List Meaning)
        (layout : Layout) (setting : Setting) (beneath : Beneath) (binder : Binder)
        → IsKnownRound flat known seen layout setting beneath
        → is_seen seen (meant text binder) ≡ true
        → TakesAs (layout.stands (meant text binder))
        (behind_meaning known (Some (meant text binder))) (meant text binder)
        → IsKnownRound flat known seen (layout_at layout (bind text layout.context binder))
        setting (beneath_in beneath (bind text layout.context binder)) }
    ensures seen { (flat : FlatModule) (known : Known) (seen more : List Meaning)
        (layout : Layout) (setting : Setting) (beneath : Beneath)
        → ((meaning : Meaning) → is_seen seen meaning ≡ true → is_seen more meaning ≡ true)
        → IsKnownRound flat known seen layout setting beneath
        → IsKnownRound flat known more layout setting beneath }
    ensures olds { (flat : FlatModule) (known : Known) (seen : List Meaning) (layout : Layout)
        (setting : Setting) (beneath : Beneath) (olds : List ℕ)
        → IsKnownRound flat known seen layout setting beneath
        → IsKnownRound flat known seen (layout_repeating layout olds) (repeating setting olds)
        beneath }
    ensures scopes { (flat : FlatModule) (text : Text) (known : Known) (named : List ℕ → Outside)
        (seen : List Meaning) (layout : Layout) (setting : Setting) (beneath : Beneath)
        (state : Bool) (form : Form.the_data) (parts : Trees)
        → IsKnownRound flat known seen layout setting beneath
        → binding_of form ≡ binding.Bound state
        → AreNew seen (map (meant text) (defined form parts ++ binders form parts))
        → IsKnownRound flat known
        (map (meant text) (defined form parts ++ binders form parts) ++ seen)
        (layout_in text layout form parts) setting
        (in_scope text known named beneath form parts) }
    ensures parameters { (flat : FlatModule) (text : Text) (known : Known)
        (named : List ℕ → Outside) (seen : List Meaning) (layout : Layout) (setting : Setting)
        (beneath : Beneath) (form : Form.the_data) (parts : Trees)
        → IsKnownRound flat known seen layout setting beneath
        → binding_of form ≡ binding.Parameter
        → AreNew seen (map (meant text) (defined form parts ++ binders form parts))
        → IsKnownRound flat known
        (map (meant text) (defined form parts ++ binders form parts) ++ seen)
        (layout_with text layout form parts) (with_parameters text setting form parts)
        (in_scope text known named beneath form parts) }
    ensures grows { (flat more : FlatModule) (known : Known) (seen : List Meaning)
        (layout : Layout) (setting : Setting) (beneath : Beneath) → Extends flat more
        → IsOrdered flat → IsLayoutWithin flat layout
        → IsKnownRound flat known seen layout setting beneath
        → IsKnownRound more known seen layout setting beneath }
{}
