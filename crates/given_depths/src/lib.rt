//! How deep what declarations declare is, whichever way their names come: symbols have no depth, and
//! names that come again are as deep as before.
//!
//! No code: each function states a law. Knows nothing of flat modules, and of how depths are found.
#![tactic(auto)]

ghost use Rattle.std.specs.Prelude.{◌≡◌, ◌⊎◌, ℕ, true, List, [], ◌∷◌, ◌++◌, Option, Some};
ghost use Rattle.std.specs.List.{AllByRecursion};
ghost use Rattle.tla_symbols.specs.declared.lexeme.Lexeme.{Lexeme};
ghost use Rattle.tla_symbols.specs.declared.lexeme.Span.{Span};
ghost use Rattle.tla_tree.specs.declared.form.Form.TheVariants as Form;
ghost use Rattle.tla_tree.specs.Syntax.{Node, Trees};
ghost use Rattle.unit_grammar.specs.Units.{Instance, ModuleBegin, ModuleUnits, UnitTree};
ghost use Rattle.front_laws.specs.Fronts.{IsFront, Tree};
ghost use Rattle.tla_model.specs.Contexts.{meaning_of};
ghost use Rattle.tla_model.specs.Entities.{Meaning, Text};
ghost use Rattle.tla_model.specs.EntityKinds.{is_meant, stands_behind};
ghost use Rattle.tla_model.specs.Lexemes.{spelled};
ghost use Rattle.tla_model.specs.Tables.{Named};
ghost use Rattle.module_scope.specs.Environments.{first as first_scope};
ghost use Rattle.module_model.specs.Exports.{Exports, entry_of, exported, exports_of};
ghost use Rattle.module_model.specs.Exports.{instantiable};
ghost use Rattle.module_model.specs.Modules.{Reading, text_of};
ghost use Rattle.module_model.specs.NamedModules.{view_of};
ghost use Rattle.module_model.specs.Resolution.{module_named, words_of};
ghost use Rattle.kind_text.specs.FlatModule.{FlatModule};
ghost use Rattle.tree_kinds.specs.Standing.{Outside, name_among};
ghost use Rattle.tree_kinds.specs.TreeDepths.{Depths, replaced_depth};
ghost use Rattle.module_kinds.specs.ModuleKinds.{KindState, after, beneath, first, known_at};
ghost use Rattle.module_kinds.specs.ModuleKinds.{last, named, nested_outside, outside, read_all};
ghost use Rattle.module_kinds.specs.ModuleKinds.{views};
ghost use Rattle.flat_kinds.specs.Declarations.{AreNamesDeclared, AreUnitsDeclared, Declarations};
ghost use Rattle.flat_kinds.specs.Declarations.{IsNoDefinition, IsOnce, IsOutsideDeclared};
ghost use Rattle.flat_kinds.specs.Declarations.{KeepsDeclarations, OfAllKnown, declared_names};
ghost use Rattle.flat_kinds.specs.Readings.{BringNone};
ghost use Rattle.flat_kinds.specs.Symbols.{same_symbol};
ghost use Rattle.flattened_trees.specs.Agreeing.{is_seen};
ghost use Rattle.flattened_trees.specs.Leads.{FlatFace};
ghost use Rattle.flattened_units.specs.Units.{Reader};
ghost use Rattle.module_meanings.specs.Premises.{first_seen, seen_behind};
ghost use Rattle.module_answers.specs.Deep.{SeenStayDeep};
ghost use Rattle.given_depths.specs.Given.{AreEndsGiven, AreExportsGiven, AreModulesGiven};
ghost use Rattle.given_depths.specs.Given.{ArePlainNames, AreSeenGiven, AreSymbolsPlain, Gives};
ghost use Rattle.given_depths.specs.Own.{AreOwnApart, HasOwnNames, IsOfNone, IsOfOthers};
ghost use Rattle.given_depths.specs.Own.{with_own_depths};
ghost use Rattle.given_depths.specs.Given.{GivenDepths, IsGiven, IsGivenOutside, no_reach};

use lexeme_laws::names_begin_apart;

// Laws above stand on these beside those that are stated here.
pub use module_answers::{module_depths_are_found, module_levels_are_found};

/// What is by its declaration no definition and no instance has no depth, and neither has what is
/// bound: behind what a module extends, and behind units. So own symbols of a nested module have
/// none.
pub fn symbols_have_no_depth()
    ensures begins { (declares : Declarations) (files : List ℕ → Outside) (source : List ℕ)
        (units : ModuleUnits) → ((name : List ℕ) → IsOutsideDeclared declares (files name))
        → ArePlainNames declares (first files source units).depths }
    ensures units { (declares : Declarations) (text : Text) (files : List ℕ → Outside)
        (words : List ℕ) (state : KindState) (units : List UnitTree)
        → ((name : List ℕ) → IsOutsideDeclared declares (files name))
        → AreUnitsDeclared declares text units → KeepsDeclarations declares state
        → ArePlainNames declares state.depths
        → ArePlainNames declares (read_all text files words state units).depths }
    ensures own { (declares : Declarations) (depths : Depths) (own : List Meaning)
        → ArePlainNames declares depths → AllByRecursion (IsNoDefinition declares) own
        → AllByRecursion (λ symbol. (meaning : Meaning) → same_symbol meaning symbol ≡ true
        → depths meaning [] ≡ no_reach) own }
{}

/// How deep names are is given by their declarations, whichever way they come: where files bring
/// names as deep as is given, so does what a module extends, and a nested module too; and so does an
/// INSTANCE of a module without parameters, which puts in nothing that is deep. A nested module and
/// one of a file are as deep as is given where what they export is, and so are all modules that can
/// be named behind a unit.
pub fn names_are_given_depths()
    ensures extended { (given : GivenDepths) (files : List ℕ → Outside) (source : List ℕ)
        (units : ModuleUnits) (meaning : Meaning)
        → ((title : List ℕ) → IsGivenOutside given (files title))
        → BringNone (text_of source units) files (words_of units)
        (first_scope (text_of source units).file) units.extends meaning
        ⊎ IsGiven given (first files source units).depths meaning }
    ensures begins { (given : GivenDepths) (text : Text) (files : List ℕ → Outside)
        (words : List ℕ) (state : KindState) (dashes name : Lexeme) (extends : List Lexeme)
        → ((title : List ℕ) → IsGivenOutside given (files title))
        → OfAllKnown (IsGivenOutside given) state.modules.here
        → Gives given text files words state (ModuleBegin dashes name extends) }
    ensures brings { (given : GivenDepths) (text : Text) (files : List ℕ → Outside)
        (words : List ℕ) (state : KindState) (local : Option Lexeme) (l : Lexeme) (at : Span)
        (rights : Trees) → ((title : List ℕ) → IsGivenOutside given (files title))
        → OfAllKnown (IsGivenOutside given) state.modules.here
        → (named text files words state (spelled text.source l)).view
        ≡ view_of text (module_named text (views text files words) words state.read) l
        → (named text files words state (spelled text.source l)).view.parameters ≡ []
        → replaced_depth text
        (known_at text files words state (Instance local (Node (Form.Instance l) at rights)))
        (named text files words state) (beneath text files words state)
        (Node (Form.Instance l) at rights) ≡ 0
        → Gives given text files words state (Instance local (Node (Form.Instance l) at rights)) }
    ensures ended { (given : GivenDepths) (state : KindState) (outer : Reading)
        (round : List Reading) → IsOnce state.read.place.here.exports
        → AreExportsGiven given state
        → IsGivenOutside given (nested_outside state (outer ∷ round)) }
    ensures exported { (given : GivenDepths) (files : List ℕ → Outside) (source : List ℕ)
        (units : ModuleUnits) → IsOnce (last files source units).read.place.here.exports
        → AreExportsGiven given (last files source units)
        → IsGivenOutside given (outside files source units) }
    ensures modules { (given : GivenDepths) (text : Text) (files : List ℕ → Outside)
        (words : List ℕ) (state : KindState) (unit : UnitTree)
        → AreModulesGiven given state.modules → AreEndsGiven given state unit
        → AreModulesGiven given (after text files words state unit).modules }
{}

/// All that was seen is as deep as is given, from what a module extends on and behind each unit that
/// gives what it does not leave that depth, where symbols are given none. So what was seen stays as
/// deep as it was, which is asked of what nested modules bring (`module_answers`); and what is
/// exported is as deep as is given, where it can be used, and what can be used was seen.
pub fn seen_names_stay_deep()
    ensures first { (declares : Declarations) (given : GivenDepths) (flat : FlatModule)
        (means : ℕ → Option Meaning) (implied : ℕ → List Meaning) (faces : List ℕ → FlatFace)
        (files : List ℕ → Outside) (source : List ℕ) (units : ModuleUnits)
        (symbols : List Meaning) → AreSymbolsPlain declares given
        → ((title : List ℕ) → IsOutsideDeclared declares (files title))
        → ((title : List ℕ) → IsGivenOutside given (files title))
        → AllByRecursion (IsNoDefinition declares) symbols
        → AreSeenGiven given (first files source units).depths
        (first_seen flat means implied faces files source units symbols) }
    ensures behind { (declares : Declarations) (given : GivenDepths) (text : Text)
        (files : List ℕ → Outside) (words : List ℕ) (state : KindState) (unit : UnitTree)
        (next : Reader) (seen : List Meaning) → AreSymbolsPlain declares given
        → ((title : List ℕ) → IsOutsideDeclared declares (files title))
        → KeepsDeclarations declares state → ArePlainNames declares state.depths
        → AreNamesDeclared declares text (declared_names unit)
        → AllByRecursion (IsNoDefinition declares) next.setting.frame
        → Gives given text files words state unit → AreSeenGiven given state.depths seen
        → AreSeenGiven given (after text files words state unit).depths
        (seen_behind text files words state unit next seen) }
    ensures stays { (given : GivenDepths) (flat : FlatModule) (text : Text)
        (means : ℕ → Option Meaning) (implied : ℕ → List Meaning) (faces : List ℕ → FlatFace)
        (files : List ℕ → Outside) (words : List ℕ) (state : KindState) (unit : UnitTree)
        (seen : List Meaning) → Gives given text files words state unit
        → AreSeenGiven given state.depths seen
        → SeenStayDeep flat text means implied faces files words state unit seen }
    ensures exports { (given : GivenDepths) (state : KindState) (seen : List Meaning)
        → ((name : Named) (meaning : Meaning)
        → entry_of (exports_of state.read.place.here.exports) name ≡ Some meaning
        → is_meant stands_behind meaning ≡ true
        → meaning_of state.read.place.here.context name ≡ Some meaning)
        → ((name : Named) (meaning : Meaning)
        → meaning_of state.read.place.here.context name ≡ Some meaning
        → is_seen seen meaning ≡ true)
        → AreSeenGiven given state.depths seen → AreExportsGiven given state }
{}

/// A module gives depths to what it declares, and to what comes through its INSTANCEs that replace
/// parameters: as deep as each is behind its unit, if no name is so by two units. Files that bring
/// none of these names are as deep as before, and symbols have no depth still.
pub fn own_depths_are_given()
    ensures units { (given : GivenDepths) (files : List ℕ → Outside) (source : List ℕ)
        (units : ModuleUnits) (before : List UnitTree) (unit : UnitTree)
        (behind : List UnitTree) → units.units ≡ before ++ unit ∷ behind
        → AreOwnApart (text_of source units) files (words_of units) (first files source units)
        units.units
        → HasOwnNames (text_of source units) files (words_of units)
        (read_all (text_of source units) files (words_of units) (first files source units) before)
        unit
        → Gives (with_own_depths files source units given) (text_of source units) files
        (words_of units)
        (read_all (text_of source units) files (words_of units) (first files source units) before)
        unit }
    ensures files { (given : GivenDepths) (files : List ℕ → Outside) (source : List ℕ)
        (units : ModuleUnits) (file : Outside) → IsGivenOutside given file
        → ((meaning : Meaning) (name : Named)
        → name_among (instantiable (exported file.view)) meaning ≡ Some name
        → IsOfNone (text_of source units) files (words_of units) (first files source units)
        units.units meaning)
        → IsGivenOutside (with_own_depths files source units given) file }
    ensures symbols { (declares : Declarations) (given : GivenDepths)
        (files : List ℕ → Outside) (source : List ℕ) (units : ModuleUnits)
        → ((title : List ℕ) → IsOutsideDeclared declares (files title))
        → AreUnitsDeclared declares (text_of source units) units.units
        → AreSymbolsPlain declares given
        → AreSymbolsPlain declares (with_own_depths files source units given) }
{}

/// No name is declared by two units of a module that is the front of some bytes, nor comes through
/// two of its INSTANCEs that replace parameters, which have names of their own; and no name is so
/// that is declared in other modules and came through INSTANCEs of these.
pub fn own_names_are_apart()
    ensures replaces { (text : Text) (files : List ℕ → Outside) (words : List ℕ)
        (state : KindState) (local : Option Lexeme) (l : Lexeme) (at : Span) (rights : Trees)
        (parameter : Named × Meaning) (parameters : Exports)
        → (view_of text (module_named text (views text files words) words state.read) l).parameters
        ≡ parameter ∷ parameters
        → HasOwnNames text files words state (Instance local (Node (Form.Instance l) at rights)) }
    ensures others { (files : List ℕ → Outside) (source : List ℕ) (units : ModuleUnits)
        (meaning : Meaning) → IsOfOthers (text_of source units).file meaning
        → IsOfNone (text_of source units) files (words_of units) (first files source units)
        units.units meaning }
    ensures apart { (files : List ℕ → Outside) (name bytes : List ℕ) (units : ModuleUnits)
        → IsFront name bytes (Tree units)
        → AreOwnApart (text_of bytes units) files (words_of units) (first files bytes units)
        units.units }
{
    names_begin_apart();
}
