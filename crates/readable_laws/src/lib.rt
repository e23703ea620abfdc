//! Trees of an accepted text can be read without their contexts.
//!
//! No code: each function states a law. Knows nothing of how nodes are built.
#![tactic(auto)]

ghost use Rattle.std.specs.Prelude.{◌≡◌, ℕ, ◌≤◌, ◌∷◌, ◌++◌, Bool, List, Option, Some};
ghost use Rattle.tla_symbols.specs.declared.lexeme.Lexeme.{Lexeme};
ghost use Rattle.tla_symbols.specs.declared.lexeme.Span.{Span};
ghost use Rattle.unit_grammar.specs.Units.{ModuleUnits, UnitTree};
ghost use Rattle.unit_grammar.specs.Derivation.{DerivesModule};
ghost use Rattle.front_laws.specs.Fronts.{IsFront, Tree as TreeFront};
ghost use Rattle.tla_model.specs.Lexemes.{lexemes, module_lexemes};
ghost use Rattle.module_model.specs.Resolution.{ReadState, findings, known_in, module_named};
ghost use Rattle.module_model.specs.Resolution.{outside_in, words_of};
ghost use Rattle.module_model.specs.Modules.{text_of};
ghost use Rattle.module_model.specs.Instances.{unit_trees};
ghost use Rattle.module_model.specs.TreeFindings.{Surroundings, walk};
ghost use Rattle.lexeme_laws.specs.Apart.{BeginApart, counted};
ghost use Rattle.tla_tree.specs.Derivation.{Derives, DerivesDefinition, DerivesInstance};
ghost use Rattle.tla_tree.specs.Lexemes.{one};
ghost use Rattle.tla_tree.specs.Syntax.{Tree};
ghost use Rattle.tla_model.specs.Contexts.{Context};
ghost use Rattle.tla_model.specs.Entities.{Text};
ghost use Rattle.tla_model.specs.Scopes.{Finding};
ghost use Rattle.module_model.specs.Exports.{Known, ModuleView};
ghost use Rattle.tree_kinds.specs.Standing.{Outside};
ghost use Rattle.tree_kinds.specs.Expanding.{places_at};
ghost use Rattle.flat_trees.specs.Names.{places_by};
ghost use Rattle.arity_rules.specs.Arities.{due_by};
ghost use Rattle.arity_rules.specs.declared.place.Due.TheVariants.{Expression};
ghost use Rattle.flattened_trees.specs.Leads.{FlatFace};
ghost use Rattle.flattened_trees.specs.Readable.{IsReadable, IsReadableDefinition};
ghost use Rattle.flattened_trees.specs.Readable.{IsReadableThrough};
ghost use Rattle.readable_laws.specs.Uses.{implied_by, means_by, used_lexemes};
ghost use Rattle.readable_laws.specs.Accepted.{AreBehindInstances, AreSound, IsAccepted};
ghost use Rattle.readable_laws.specs.Accepted.{IsAcceptedUnit};
ghost use Rattle.readable_laws.specs.ReadUnits.{AreKnownAmong, IsAcceptedModule, IsReadableUnit};
ghost use Rattle.readable_laws.specs.StandIns.{AreAllFilled};
ghost use Rattle.readable_laws.specs.Steady.{IsSteady, IsSteadyView, state_behind};

use lexeme_laws::names_begin_apart;

/// An expression that is accepted where an argument of this order is due can be read, where what
/// names mean is taken from what was found of them; it is an operator with so many places, or none.
pub fn accepted_expressions_are_read()
    ensures read { (text : Text) (known : Known) (named : List ℕ → Outside) (paths : List ℕ)
        (found : List Finding) (faces : List ℕ → FlatFace) (context : Context) (order : ℕ)
        (whole : Span) (inside : Bool) (x : Tree) (a : List Lexeme) (i : ℕ) (o : Option Lexeme)
        → Derives x a i o → AreSound known found
        → IsAccepted text known named found faces paths context (due_by (Some order) whole) inside x
        → IsReadable text known named (means_by found) (implied_by found) faces context x }
    ensures places { (text : Text) (known : Known) (named : List ℕ → Outside) (paths : List ℕ)
        (found : List Finding) (faces : List ℕ → FlatFace) (context : Context) (order : ℕ)
        (whole : Span) (inside : Bool) (x : Tree) (a : List Lexeme) (i : ℕ) (o : Option Lexeme)
        → Derives x a i o → AreSound known found
        → IsAccepted text known named found faces paths context (due_by (Some order) whole) inside x
        → places_at text known named context x ≡ places_by order }
{}

/// A definition that is accepted can be read.
pub fn accepted_definitions_are_read()
    ensures { (text : Text) (known : Known) (named : List ℕ → Outside) (paths : List ℕ)
        (found : List Finding) (faces : List ℕ → FlatFace) (context : Context) (inside : Bool)
        (x : Tree) (a : List Lexeme) (i : ℕ) (o : Option Lexeme)
        → DerivesDefinition x a i o → AreSound known found
        → IsAccepted text known named found faces paths context Expression inside x
        → IsReadableDefinition text known named (means_by found) (implied_by found) faces
        context x }
{}

/// An INSTANCE without a name that is accepted can be read.
pub fn accepted_instances_are_read()
    ensures { (text : Text) (known : Known) (named : List ℕ → Outside) (paths : List ℕ)
        (found : List Finding) (faces : List ℕ → FlatFace) (context : Context) (inside : Bool)
        (x : Tree) (a : List Lexeme) (i : ℕ) (o : Option Lexeme)
        → DerivesInstance x a i o → AreSound known found
        → IsAccepted text known named found faces paths context Expression inside x
        → IsAcceptedUnit text known named found faces x
        → IsReadableThrough text known named (means_by found) (implied_by found) faces context
        (one x) }
{}

/// Of the lexemes at which names of a tree are found to mean something no more pass a test than of
/// those that the tree holds; and of those of a module no more than of all that it holds.
pub fn uses_are_held_once()
    ensures trees { (p : Lexeme → Bool) (text : Text) (around : Surroundings) (context : Context)
        (x : Tree) → counted p (used_lexemes (walk text around context x)) ≤ counted p (lexemes x) }
    ensures modules { (p : Lexeme → Bool) (files : List ℕ → ModuleView) (source : List ℕ)
        (units : ModuleUnits)
        → counted p (used_lexemes (findings files source units))
        ≤ counted p (module_lexemes units) }
{}

/// No two names of a module that is the front of some bytes are found to mean something at one
/// place.
pub fn uses_begin_apart()
    ensures { (name bytes : List ℕ) (units : ModuleUnits) (files : List ℕ → ModuleView)
        → IsFront name bytes (TreeFront units)
        → BeginApart (used_lexemes (findings files bytes units)) }
{
    names_begin_apart();
}

/// No more symbols are found to stand in at an INSTANCE of a module that is the front of some bytes
/// than the module that it names has parameters which it does not write.
pub fn symbols_stand_in_once()
    ensures { (name bytes : List ℕ) (units : ModuleUnits) (files : List ℕ → ModuleView)
        (before : List UnitTree) (unit : UnitTree) (behind : List UnitTree)
        → IsFront name bytes (TreeFront units) → units.units ≡ before ++ unit ∷ behind
        → AreAllFilled (text_of bytes units)
        (module_named (text_of bytes units) files (words_of units)
        (state_behind files bytes units before))
        (findings files bytes units) (unit_trees unit) }
{
    names_begin_apart();
}

/// While a module is read, each symbol that can be used takes as many expressions as it has places,
/// and names stand behind instances alone, if that is so of the files that its names mean; then it
/// is so of what can be named in a unit, and of the module for those that name it.
pub fn modules_stay_steady()
    ensures read { (files : List ℕ → ModuleView) (source : List ℕ) (units : ModuleUnits)
        (a : List Lexeme) (before behind : List UnitTree) → DerivesModule units a
        → ((name : List ℕ) → IsSteadyView (files name)) → units.units ≡ before ++ behind
        → IsSteady (state_behind files source units before) }
    ensures known { (files : List ℕ → ModuleView) (text : Text) (words : List ℕ)
        (state : ReadState) (unit : UnitTree) → ((name : List ℕ) → IsSteadyView (files name))
        → IsSteady state → AreBehindInstances (known_in text files words state unit) }
    ensures outside { (files : List ℕ → ModuleView) (source : List ℕ) (units : ModuleUnits)
        (a : List Lexeme) → DerivesModule units a → ((name : List ℕ) → IsSteadyView (files name))
        → IsSteadyView (outside_in files source units) }
{}

/// Each unit of an accepted module can be read, behind the units before it, if the modules that its
/// INSTANCEs name are to these what they are to those that name them, and if it is known what
/// stands behind the names of its instances.
pub fn accepted_units_are_read()
    ensures { (name bytes : List ℕ) (units : ModuleUnits) (files : List ℕ → ModuleView)
        (named : List ℕ → Outside) (faces : List ℕ → FlatFace) (before : List UnitTree)
        (unit : UnitTree) (behind : List UnitTree)
        → IsFront name bytes (TreeFront units) → IsAcceptedModule files bytes units
        → units.units ≡ before ++ unit ∷ behind
        → ((n : List ℕ) → (named n).view ≡ module_named (text_of bytes units) files
        (words_of units) (state_behind files bytes units before) n)
        → AreKnownAmong (text_of bytes units)
        (known_in (text_of bytes units) files (words_of units)
        (state_behind files bytes units before) unit)
        named (means_by (findings files bytes units))
        (implied_by (findings files bytes units)) faces (unit_trees unit)
        → IsReadableUnit (text_of bytes units)
        (known_in (text_of bytes units) files (words_of units)
        (state_behind files bytes units before) unit)
        named (means_by (findings files bytes units))
        (implied_by (findings files bytes units)) faces
        (state_behind files bytes units before).place.here.context unit }
{
    names_begin_apart();
}
