//! That modules without faults are given as laws on their nodes ask.
//!
//! No code: each function states a law. Knows nothing of how nodes are built, and of how modules
//! are checked.
#![tactic(auto)]

ghost use Rattle.std.specs.Prelude.{◌≡◌, ℕ, List, [], ◌∷◌, ◌++◌, Option};
ghost use Rattle.tla_symbols.specs.declared.lexeme.Lexeme.{Lexeme};
ghost use Rattle.tla_symbols.specs.declared.lexeme.Span.{Span};
ghost use Rattle.tla_tree.specs.declared.form.Form.TheVariants as Form;
ghost use Rattle.tla_tree.specs.Syntax.{Node, Trees};
ghost use Rattle.unit_grammar.specs.Units.{Instance, ModuleUnits, UnitTree};
ghost use Rattle.front_laws.specs.Fronts.{IsFront, Tree as TreeFront};
ghost use Rattle.tla_model.specs.Entities.{Meaning};
ghost use Rattle.tla_model.specs.Lexemes.{spelled};
ghost use Rattle.module_model.specs.Exports.{Known};
ghost use Rattle.module_model.specs.Modules.{text_of};
ghost use Rattle.module_model.specs.Resolution.{findings, words_of};
ghost use Rattle.kind_text.specs.FlatModule.{Extends, FlatModule, IsOrdered};
ghost use Rattle.tree_kinds.specs.Expanding.{unguarded};
ghost use Rattle.tree_kinds.specs.Standing.{Environment, Outside, Steps};
ghost use Rattle.module_kinds.specs.ModuleKinds.{KindState, last, level_findings, nowhere};
ghost use Rattle.module_kinds.specs.ModuleKinds.{around, known_at, named, outside, views};
ghost use Rattle.flat_trees.specs.Instances.{symbols_of};
ghost use Rattle.flat_kinds.specs.Declarations.{Declarations};
ghost use Rattle.flat_kinds.specs.Yields.{IsYielding, Yields};
ghost use Rattle.steady_kinds.specs.Steady.{IsOpen, IsSteady};
ghost use Rattle.flattened_trees.specs.Answers.{level_answers};
ghost use Rattle.flattened_trees.specs.Leads.{FlatFace};
ghost use Rattle.flattened_trees.specs.Questions.{Question};
ghost use Rattle.flattened_units.specs.Units.{IsModuleMade, Reader, no_face};
ghost use Rattle.module_meanings.specs.Premises.{IsModuleGiven};
ghost use Rattle.given_depths.specs.Passed.{IsModuleShaped};
ghost use Rattle.readable_laws.specs.Uses.{implied_by, means_by};
ghost use Rattle.accepted_modules.specs.Behind.{Behinds, IsForeignView, with_own};
ghost use Rattle.accepted_modules.specs.States.{kinds_behind};
ghost use Rattle.given_modules.specs.Fresh.{IsModuleFresh};
ghost use Rattle.given_modules.specs.Good.{AreGoodFiles, IsFaultless, IsGoodFile, face_of};
ghost use Rattle.given_modules.specs.Good.{with_file};
ghost use Rattle.given_modules.specs.Nested.{AreQuiet, IsModuleBringing};
ghost use Rattle.given_modules.specs.Others.{BringsOthers};
ghost use Rattle.given_modules.specs.Yielding.{with_own_yields};

use accepted_modules::{
    faultless_units_are_read, modules_come_steady, readers_end, symbols_are_parameters,
};
use flat_kinds::{names_come_again, places_are_declared};
use fresh_names::declared_names_are_new;
use given_depths::module_levels_are_found;
use grammar_shapes::fronts_are_shaped;
use lexeme_laws::{lexemes_are_held_once, names_begin_apart};

// Laws above stand on these beside those that are stated here.
pub use accepted_modules::brought_names_come;
pub use given_depths::{module_depths_are_found, own_depths_are_given, own_names_are_apart};

/// The names of all trees of a module that is the front of some bytes are new, each at its unit, if
/// no file has a name that the module declares.
pub fn units_stay_fresh()
    ensures { (flat : FlatModule) (means : ℕ → Option Meaning) (implied : ℕ → List Meaning)
        (files : List ℕ → FlatFace) (outsides : List ℕ → Outside) (name bytes : List ℕ)
        (units : ModuleUnits) (symbols : List Meaning) (last : Reader) (asked : List Question)
        (made : IsModuleMade flat means implied files outsides bytes units symbols last asked)
        → IsFront name bytes (TreeFront units)
        → ((title : List ℕ) → IsForeignView (text_of bytes units).file (outsides title).view)
        → symbols ≡ symbols_of (outside outsides bytes units)
        → IsModuleFresh flat means implied files outsides bytes units symbols last asked made }
{
    readers_end();
    declared_names_are_new();
}

/// A module without faults, over good files, is shaped as what its nodes answer of levels asks: its
/// assumptions and theorems can be read, where what is meant and what stands in is what is found.
pub fn faultless_modules_are_shaped()
    ensures { (flat : FlatModule) (declares : Declarations) (behinds : Behinds)
        (files : List ℕ → FlatFace) (outsides : List ℕ → Outside) (name bytes : List ℕ)
        (units : ModuleUnits) (symbols : List Meaning) (last : Reader) (asked : List Question)
        → let found = findings (views (text_of bytes units) outsides (words_of units)) bytes units
        in (made : IsModuleMade flat (means_by found) (implied_by found) files outsides bytes units
        symbols last asked)
        → AreGoodFiles flat declares behinds (text_of bytes units).file files outsides
        → IsFaultless declares outsides name bytes units
        → symbols ≡ symbols_of (outside outsides bytes units)
        → IsModuleShaped flat (means_by found) (implied_by found) files outsides bytes units symbols
        last asked made }
{
    faultless_units_are_read();
    modules_come_steady();
    readers_end();
    places_are_declared();
    declared_names_are_new();
    fronts_are_shaped();
    names_begin_apart();
}

/// Nothing is asked of what nested modules bring that extend nothing and have no INSTANCE without a
/// name; nor of a module without nested ones. And what nested modules bring is new, or stands as
/// before, over files that are steady and bring names of other modules alone. If it comes again
/// from a file, it has what its declaration yields, as in all files; a nested module brings what
/// stands there; what an INSTANCE that replaces parameters brings is new; and another one brings
/// what its module does where that is extended.
pub fn nested_names_are_given()
    ensures nothing { (flat : FlatModule) (means : ℕ → Option Meaning) (implied : ℕ → List Meaning)
        (files : List ℕ → FlatFace) (outsides : List ℕ → Outside) (source : List ℕ)
        (units : ModuleUnits) (symbols : List Meaning) (last : Reader) (asked : List Question)
        (made : IsModuleMade flat means implied files outsides source units symbols last asked)
        → AreQuiet 0 units.units
        → IsModuleBringing flat means implied files outsides source units symbols last asked made }
    ensures extended { (yields : Yields) (flat : FlatModule) (declares : Declarations)
        (behinds : Behinds) (means : ℕ → Option Meaning) (implied : ℕ → List Meaning)
        (files : List ℕ → FlatFace) (outsides : List ℕ → Outside) (name bytes : List ℕ)
        (units : ModuleUnits) (symbols : List Meaning) (last : Reader) (asked : List Question)
        (made : IsModuleMade flat means implied files outsides bytes units symbols last asked)
        → AreGoodFiles flat declares behinds (text_of bytes units).file files outsides
        → IsFaultless declares outsides name bytes units
        → symbols ≡ symbols_of (outside outsides bytes units)
        → ((title : List ℕ) → BringsOthers (text_of bytes units).file (outsides title))
        → ((title : List ℕ) → IsYielding yields (outsides title))
        → ((title : List ℕ) → IsSteady (IsOpen declares) (outsides title))
        → IsModuleBringing flat means implied files outsides bytes units symbols last asked made }
{
    modules_come_steady();
    readers_end();
    places_are_declared();
    declared_names_are_new();
    names_begin_apart();
    own_names_are_apart();
}

/// A module without faults, over good files, is given as what its nodes mean asks, where what is
/// meant and what stands in is what is found. It is asked that what its nested modules bring is new
/// in the modules round them, or stands there as before.
pub fn faultless_modules_are_given()
    ensures { (flat : FlatModule) (declares : Declarations) (behinds : Behinds)
        (files : List ℕ → FlatFace) (outsides : List ℕ → Outside) (name bytes : List ℕ)
        (units : ModuleUnits) (symbols : List Meaning) (last : Reader) (asked : List Question)
        → let found = findings (views (text_of bytes units) outsides (words_of units)) bytes units
        in (made : IsModuleMade flat (means_by found) (implied_by found) files outsides bytes units
        symbols last asked)
        → AreGoodFiles flat declares behinds (text_of bytes units).file files outsides
        → IsFaultless declares outsides name bytes units
        → symbols ≡ symbols_of (outside outsides bytes units)
        → IsModuleBringing flat (means_by found) (implied_by found) files outsides bytes units
        symbols last asked made
        → IsModuleGiven flat (means_by found) (implied_by found) files outsides bytes units symbols
        last asked made }
{
    faultless_units_are_read();
    modules_come_steady();
    readers_end();
    places_are_declared();
    declared_names_are_new();
    lexemes_are_held_once();
    names_begin_apart();
    brought_names_come();
    symbols_are_parameters();
}

/// So what the nodes of such a module answer is what is found of levels in it.
pub fn faultless_modules_answer()
    ensures { (flat : FlatModule) (declares : Declarations) (behinds : Behinds)
        (files : List ℕ → FlatFace) (outsides : List ℕ → Outside) (name bytes : List ℕ)
        (units : ModuleUnits) (symbols : List Meaning) (last : Reader) (asked : List Question)
        → let found = findings (views (text_of bytes units) outsides (words_of units)) bytes units
        in (made : IsModuleMade flat (means_by found) (implied_by found) files outsides bytes units
        symbols last asked)
        → IsOrdered flat
        → AreGoodFiles flat declares behinds (text_of bytes units).file files outsides
        → IsFaultless declares outsides name bytes units
        → symbols ≡ symbols_of (outside outsides bytes units)
        → IsModuleBringing flat (means_by found) (implied_by found) files outsides bytes units
        symbols last asked made
        → level_answers flat asked ≡ level_findings outsides bytes units }
{
    faultless_modules_are_shaped();
    faultless_modules_are_given();
    module_levels_are_found();
}

/// A module that is given is good itself, with the face that it has by the reader behind its units,
/// where what stands behind its own declarations is what is known in the end. A good file that has
/// no name of a module stays good with what is known of that one; a module that is not there is
/// good; and all this stays so in a flat module that has more. So files with a module that is good
/// are good to the next one, of which none has a name.
pub fn given_modules_are_good()
    ensures itself { (flat : FlatModule) (declares : Declarations) (behinds : Behinds)
        (means : ℕ → Option Meaning) (implied : ℕ → List Meaning) (files : List ℕ → FlatFace)
        (outsides : List ℕ → Outside) (name bytes : List ℕ) (units : ModuleUnits)
        (symbols : List Meaning) (final : Reader) (asked : List Question)
        (made : IsModuleMade flat means implied files outsides bytes units symbols final asked)
        → IsOrdered flat
        → AreGoodFiles flat declares behinds (text_of bytes units).file files outsides
        → IsFaultless declares outsides name bytes units
        → symbols ≡ symbols_of (outside outsides bytes units)
        → IsModuleGiven flat means implied files outsides bytes units symbols final asked made
        → IsGoodFile flat declares
        (with_own (text_of bytes units).file (last outsides bytes units).read.known behinds)
        (face_of outsides bytes units final) (outside outsides bytes units) }
    ensures others { (flat : FlatModule) (declares : Declarations) (behinds : Behinds)
        (title : List ℕ) (known : Known) (face : FlatFace) (named : Outside)
        → IsGoodFile flat declares behinds face named → IsForeignView title named.view
        → IsGoodFile flat declares (with_own title known behinds) face named }
    ensures nothing { (flat : FlatModule) (declares : Declarations) (behinds : Behinds)
        → IsGoodFile flat declares behinds no_face nowhere }
    ensures next { (flat more : FlatModule) (declares : Declarations) (behinds : Behinds)
        (title next : List ℕ) (known : Known) (files : List ℕ → FlatFace)
        (outsides : List ℕ → Outside) (face : FlatFace) (named : Outside) → Extends flat more
        → IsOrdered flat → AreGoodFiles flat declares behinds title files outsides
        → ((name : List ℕ) → IsForeignView next (outsides name).view)
        → IsGoodFile more declares (with_own title known behinds) face named
        → IsForeignView next named.view
        → AreGoodFiles more declares (with_own title known behinds) next
        (with_file title face files) (with_file title named outsides) }
    ensures grows { (flat more : FlatModule) (declares : Declarations) (behinds : Behinds)
        (face : FlatFace) (named : Outside) → Extends flat more → IsOrdered flat
        → IsGoodFile flat declares behinds face named
        → IsGoodFile more declares behinds face named }
{
    places_are_declared();
    names_begin_apart();
    brought_names_come();
}

/// A module without faults brings its names for what their declarations yield, if files do, which
/// are steady and bring names of other modules alone: its own, and those that came through its
/// INSTANCEs, for what stands for them in the end. Files without such names do so still.
pub fn declarations_yield_names()
    ensures itself { (yields : Yields) (flat : FlatModule) (declares : Declarations)
        (behinds : Behinds) (files : List ℕ → FlatFace) (outsides : List ℕ → Outside)
        (name bytes : List ℕ) (units : ModuleUnits)
        → AreGoodFiles flat declares behinds (text_of bytes units).file files outsides
        → IsFaultless declares outsides name bytes units
        → ((title : List ℕ) → BringsOthers (text_of bytes units).file (outsides title))
        → ((title : List ℕ) → IsYielding yields (outsides title))
        → ((title : List ℕ) → IsSteady (IsOpen declares) (outsides title))
        → IsYielding
        (with_own_yields declares (text_of bytes units).file (last outsides bytes units) yields)
        (outside outsides bytes units) }
    ensures others { (yields : Yields) (declares : Declarations) (title : List ℕ)
        (state : KindState) (named : Outside) → BringsOthers title named
        → IsYielding yields named
        → IsYielding (with_own_yields declares title state yields) named }
{
    modules_come_steady();
    places_are_declared();
    declared_names_are_new();
    names_begin_apart();
    names_come_again();
    own_names_are_apart();
}

/// What a module without faults gives depends on what stands for names alone that are by their
/// declarations no definitions, or are bound, if this is so of files. So a module that stands over
/// what stands for the names of another one gives what it does over the symbols of that: so does
/// what an INSTANCE without a name brings of a module without parameters.
pub fn modules_are_steady()
    ensures itself { (flat : FlatModule) (declares : Declarations) (behinds : Behinds)
        (files : List ℕ → FlatFace) (outsides : List ℕ → Outside) (name bytes : List ℕ)
        (units : ModuleUnits)
        → AreGoodFiles flat declares behinds (text_of bytes units).file files outsides
        → IsFaultless declares outsides name bytes units
        → ((title : List ℕ) → IsSteady (IsOpen declares) (outsides title))
        → IsSteady (IsOpen declares) (outside outsides bytes units) }
    ensures instances { (flat : FlatModule) (declares : Declarations) (behinds : Behinds)
        (files : List ℕ → FlatFace) (outsides : List ℕ → Outside) (name bytes : List ℕ)
        (units : ModuleUnits) (before behind : List UnitTree) (local : Option Lexeme)
        (l : Lexeme) (at : Span) (parts : Trees)
        → AreGoodFiles flat declares behinds (text_of bytes units).file files outsides
        → IsFaultless declares outsides name bytes units
        → ((title : List ℕ) → IsSteady (IsOpen declares) (outsides title))
        → units.units ≡ before ++ Instance local (Node (Form.Instance l) at parts) ∷ behind
        → let state : KindState = kinds_behind outsides bytes units before in
        let modules = named (text_of bytes units) outsides (words_of units) state in
        (modules (spelled bytes l)).view.parameters ≡ [] → (parameters : Environment)
        (path : Steps)
        → unguarded (text_of bytes units)
        (known_at (text_of bytes units) outsides (words_of units) state
        (Instance local (Node (Form.Instance l) at parts))) modules
        (around (text_of bytes units) outsides (words_of units) state parameters)
        (Node (Form.Instance l) at parts) path
        ≡ (modules (spelled bytes l)).standing parameters path }
    ensures nothing { (declares : Declarations) → IsSteady (IsOpen declares) nowhere }
{
    modules_come_steady();
    places_are_declared();
    names_begin_apart();
}
