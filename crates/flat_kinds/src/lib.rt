//! That a flat module which is built along a module means what the module does to those that name
//! it.
//!
//! No code: each function states a law that definitions and proofs above cite. Knows nothing of how
//! flat modules are built.
#![tactic(auto)]

ghost use Rattle.std.specs.Prelude.{◌≡◌, ◌⊎◌, ℕ, ◌+◌, Bool, false, List, [], ◌∷◌, ◌++◌};
ghost use Rattle.std.specs.Prelude.{length, map};
ghost use Rattle.std.specs.List.{AllByRecursion};
ghost use Rattle.tla_symbols.specs.declared.lexeme.Lexeme.{Lexeme};
ghost use Rattle.unit_grammar.specs.Units.{ModuleBegin, ModuleUnits, UnitTree};
ghost use Rattle.tla_model.specs.Tables.{Named};
ghost use Rattle.tla_model.specs.Entities.{Meaning, Text};
ghost use Rattle.module_scope.specs.Environments.{first as first_scope};
ghost use Rattle.module_model.specs.Exports.{ModuleView, exports_of};
ghost use Rattle.module_model.specs.Modules.{Reading, text_of};
ghost use Rattle.module_model.specs.Resolution.{words_of};
ghost use Rattle.kind_text.specs.FlatModule.{Extends, FlatModule, IsOrdered};
ghost use Rattle.kind_text.specs.Substitution.{Item};
ghost use Rattle.tree_kinds.specs.Standing.{Environment, Outside, themselves};
ghost use Rattle.module_kinds.specs.ModuleKinds.{KindState, after, first, outside, outside_by};
ghost use Rattle.module_kinds.specs.ModuleKinds.{around, last, nested_outside, read_all};
ghost use Rattle.module_kinds.specs.ModuleKinds.{standing_behind};
ghost use Rattle.flat_trees.specs.Stands.{AreStanding, Stand, Unsaid};
ghost use Rattle.flat_trees.specs.Layouts.{Agrees, Layout, StandsBefore};
ghost use Rattle.flat_trees.specs.Instances.{IsModule, symbols_of, with_symbols};
ghost use Rattle.flat_kinds.specs.Readings.{AreNew, BringNone, Extension, KeepsStanding};
ghost use Rattle.flat_kinds.specs.Readings.{KeepsState, Leaves, SaysLess, StaysBehind};
ghost use Rattle.flat_kinds.specs.Readings.{StandsItself, exported_stand, is_among, with_own};
ghost use Rattle.flat_kinds.specs.Symbols.{AreDistinct, SaysNothing, item_itself, symbols_at};
ghost use Rattle.flat_kinds.specs.Declarations.{AreNamesDeclared, AreSymbols, AreUnitsDeclared};
ghost use Rattle.flat_kinds.specs.Declarations.{Declarations, HasPlaces, IsNoDefinition, IsOnce};
ghost use Rattle.flat_kinds.specs.Declarations.{IsOutsideDeclared, IsSymbol, KeepsDeclarations};
ghost use Rattle.flat_kinds.specs.Declarations.{OfAllKnown, StandApart, declared_names};
ghost use Rattle.flat_kinds.specs.Yields.{AreYielding, ComesAgain, EndsYielding, HasExported};
ghost use Rattle.flat_kinds.specs.Yields.{HasYielded, IsYielding, Yields};
ghost use Rattle.flat_kinds.specs.Modules.{Coming, Current, IsBuiltAlong, IsExtended, IsRead};
ghost use Rattle.flat_kinds.specs.Modules.{IsCurrentWithin, KeepsAll, first_current, here_behind};
ghost use Rattle.flat_kinds.specs.Modules.{module_stands, round_behind};

/// A flat module keeps the state of a module behind what that extends. Where it keeps a state, with
/// the modules round it, it keeps the state behind each unit, by what comes of the unit; and the
/// names that a state exports stand so outside of the module that is read there. In a state that is
/// kept a frame agrees with what stands round the expressions of a unit. And a flat module that has
/// more keeps the same states, where what stands in them is there already.
pub fn states_are_kept()
    ensures begins { (flat : FlatModule) (files : List ℕ → Outside) (source : List ℕ)
        (units : ModuleUnits) (symbols : Meaning → Stand) (places : ℕ)
        (extensions : List Extension)
        → IsExtended files source units flat symbols places extensions
        → KeepsAll flat (first files source units)
        (first_current files source units symbols places extensions) [] }
    ensures units { (flat : FlatModule) (text : Text) (files : List ℕ → Outside) (words : List ℕ)
        (state : KindState) (here : Current) (round : List Current) (unit : UnitTree)
        (coming : Coming) → KeepsAll flat state here round
        → IsRead text files words flat state here round unit coming
        → KeepsAll flat (after text files words state unit)
        (here_behind text files words state here round unit coming)
        (round_behind text files words here round coming) }
    ensures exports { (flat : FlatModule) (symbols : Meaning → Stand) (layout : Layout)
        (state : KindState) (view : ModuleView) (constant : Bool)
        → KeepsState flat symbols layout state
        → IsModule flat symbols layout.places
        (exported_stand layout.stands (exports_of state.read.place.here.exports))
        (outside_by view constant state) }
    ensures agrees { (flat : FlatModule) (text : Text) (files : List ℕ → Outside) (words : List ℕ)
        (symbols : Meaning → Stand) (layout : Layout) (state : KindState) (frame : List Item)
        (parameters : Environment) → KeepsState flat symbols layout state
        → length frame ≡ layout.places → AreStanding flat frame symbols parameters
        → Agrees flat layout frame (around text files words state parameters) }
    ensures grows { (flat more : FlatModule) (state : KindState) (here : Current)
        (round : List Current) → Extends flat more → IsOrdered flat → IsCurrentWithin flat here
        → AllByRecursion (IsCurrentWithin flat) round → KeepsAll flat state here round
        → KeepsAll more state here round }
{}

/// A module that is meant where less is said of its symbols is meant where more is said. Over a
/// frame with the item that each symbol is, the symbols stand for themselves: so do symbols at
/// places, each of its own entity, and less is said of these than of all that mean the same. These
/// stand before the place behind them.
pub fn symbols_stand()
    ensures less { (flat : FlatModule) (less more : Meaning → Stand) (places : ℕ)
        (inner : Named → Stand) (outside : Outside) → SaysLess less more
        → IsModule flat less places inner outside → IsModule flat more places inner outside }
    ensures themselves { (flat : FlatModule) (frame : List Item) (symbols : Meaning → Stand)
        → ((meaning : Meaning) → StandsItself frame (symbols meaning) meaning)
        → AreStanding flat frame symbols themselves }
    ensures places { (base : Meaning → Stand) (before : List Item) (symbols : List Meaning)
        → ((meaning : Meaning) → StandsItself before (base meaning) meaning) → (meaning : Meaning)
        → StandsItself (before ++ map item_itself symbols)
        (symbols_at base symbols (length before) meaning) meaning }
    ensures same { (base : Meaning → Stand) (symbols : List Meaning) (place : ℕ)
        → AreDistinct symbols → SaysNothing base symbols
        → SaysLess (symbols_at base symbols place) (with_symbols base symbols place) }
    ensures own { (base : Meaning → Stand) (symbols : List Meaning) (place : ℕ)
        → AreDistinct symbols → SaysNothing base symbols
        → SaysLess (with_own base (symbols_at (λ (meaning : Meaning). Unsaid) symbols place))
        (with_symbols base symbols place) }
    ensures before { (base : Meaning → Stand) (symbols : List Meaning) (place : ℕ)
        → ((meaning : Meaning) → StandsBefore place (base meaning)) → (meaning : Meaning)
        → StandsBefore (place + length symbols) (symbols_at base symbols place meaning) }
{}

/// A meaning that a unit leaves stands behind it for what it does before.
pub fn meanings_are_left()
    ensures { (text : Text) (files : List ℕ → Outside) (words : List ℕ) (state : KindState)
        (unit : UnitTree) (meaning : Meaning) → Leaves text files words state unit meaning
        → (parameters : Environment)
        → standing_behind text files words state unit parameters meaning
        ≡ state.standing parameters meaning }
{}

/// Where the names of a text, and those that the files export, have the meanings of their
/// declarations, a state has such names alone behind what the module extends and behind units, and
/// nothing stands in for symbols there; so has what the module is to others. A unit leaves what is
/// by its declaration no definition and no instance. So own symbols of a nested module are new.
pub fn declarations_are_kept()
    ensures begins { (declares : Declarations) (files : List ℕ → Outside) (source : List ℕ)
        (units : ModuleUnits) → ((name : List ℕ) → IsOutsideDeclared declares (files name))
        → KeepsDeclarations declares (first files source units) }
    ensures units { (declares : Declarations) (text : Text) (files : List ℕ → Outside)
        (words : List ℕ) (state : KindState) (units : List UnitTree)
        → ((name : List ℕ) → IsOutsideDeclared declares (files name))
        → AreUnitsDeclared declares text units → KeepsDeclarations declares state
        → KeepsDeclarations declares (read_all text files words state units) }
    ensures exports { (declares : Declarations) (files : List ℕ → Outside) (source : List ℕ)
        (units : ModuleUnits) → ((name : List ℕ) → IsOutsideDeclared declares (files name))
        → AreUnitsDeclared declares (text_of source units) units.units
        → IsOutsideDeclared declares (outside files source units) }
    ensures leaves { (declares : Declarations) (text : Text) (files : List ℕ → Outside)
        (words : List ℕ) (state : KindState) (unit : UnitTree) (meaning : Meaning)
        → ((name : List ℕ) → IsOutsideDeclared declares (files name))
        → AreNamesDeclared declares text (declared_names unit)
        → KeepsDeclarations declares state → IsNoDefinition declares meaning
        → Leaves text files words state unit meaning }
    ensures new { (declares : Declarations) (state : KindState) (symbols : Meaning → Stand)
        (layout : Layout) (own : List Meaning) → KeepsDeclarations declares state
        → ((meaning : Meaning) → StandsBefore layout.places (symbols meaning))
        → AllByRecursion (IsNoDefinition declares) own → SaysNothing symbols own
        → AreNew symbols layout state
        (symbols_at (λ (meaning : Meaning). Unsaid) own layout.places) }
{}

/// Where the declaring names of a text begin at places of their own, and a declaration declares the
/// name at its place, the names of the units have the meanings of their declarations.
pub fn places_are_declared()
    ensures { (declares : Declarations) (source : List ℕ) (units : ModuleUnits)
        → StandApart (text_of source units).starts → HasPlaces declares source units
        → AreUnitsDeclared declares (text_of source units) units.units }
{}

/// The symbols of a module, and the own ones of a nested module at its end, are constants and
/// variables by their declarations, and no two mean the same; so they are no definitions. Nothing
/// is said of them where nothing is said of what is declared as a symbol, and neither where other
/// symbols stand at places.
pub fn symbols_are_distinct()
    ensures exported { (declares : Declarations) (files : List ℕ → Outside) (source : List ℕ)
        (units : ModuleUnits) → ((name : List ℕ) → IsOutsideDeclared declares (files name))
        → AreUnitsDeclared declares (text_of source units) units.units
        → AreSymbols declares (symbols_of (outside files source units)) }
    ensures nested { (declares : Declarations) (state : KindState) (round : List Reading)
        → KeepsDeclarations declares state
        → AreSymbols declares (symbols_of (nested_outside state round)) }
    ensures kinds { (declares : Declarations) (symbols : List Meaning)
        → AreSymbols declares symbols → AllByRecursion (IsNoDefinition declares) symbols }
    ensures nothing { (declares : Declarations) (base : Meaning → Stand) (symbols : List Meaning)
        → ((meaning : Meaning) → IsSymbol declares meaning → base meaning ≡ Unsaid)
        → AreSymbols declares symbols → SaysNothing base symbols }
    ensures behind { (base : Meaning → Stand) (outer own : List Meaning) (place : ℕ)
        → SaysNothing base own
        → AllByRecursion (λ (meaning : Meaning). is_among outer meaning ≡ false) own
        → SaysNothing (symbols_at base outer place) own }
{}

/// What declarations yield, whichever way their names come: where files bring names for what they
/// yield, so does what a module extends; what a unit leaves stands for what it yields as before,
/// and in a nested module it does so whatever is extended, files and nested modules that can be
/// named. A nested module and one of a file bring their names so where the state has what its
/// exports yield, and so do all that can be named behind a unit. So names of a module round a
/// nested one stand as before, also those that come again.
pub fn names_come_again()
    ensures extended { (yields : Yields) (files : List ℕ → Outside) (source : List ℕ)
        (units : ModuleUnits) (meaning : Meaning)
        → ((title : List ℕ) → IsYielding yields (files title))
        → BringNone (text_of source units) files (words_of units)
        (first_scope (text_of source units).file) units.extends meaning
        ⊎ HasYielded yields (first files source units) meaning }
    ensures left { (yields : Yields) (text : Text) (files : List ℕ → Outside) (words : List ℕ)
        (state : KindState) (unit : UnitTree) (meaning : Meaning)
        → Leaves text files words state unit meaning → HasYielded yields state meaning
        → HasYielded yields (after text files words state unit) meaning }
    ensures nested { (yields : Yields) (text : Text) (files : List ℕ → Outside) (words : List ℕ)
        (state : KindState) (dashes name : Lexeme) (extends : List Lexeme) (meaning : Meaning)
        → ((title : List ℕ) → IsYielding yields (files title))
        → OfAllKnown (IsYielding yields) state.modules.here → HasYielded yields state meaning
        → HasYielded yields (after text files words state (ModuleBegin dashes name extends))
        meaning }
    ensures ended { (yields : Yields) (state : KindState) (outer : Reading) (round : List Reading)
        → IsOnce state.read.place.here.exports → HasExported yields state
        → IsYielding yields (nested_outside state (outer ∷ round)) }
    ensures exported { (yields : Yields) (files : List ℕ → Outside) (source : List ℕ)
        (units : ModuleUnits) → IsOnce (last files source units).read.place.here.exports
        → HasExported yields (last files source units)
        → IsYielding yields (outside files source units) }
    ensures modules { (yields : Yields) (text : Text) (files : List ℕ → Outside) (words : List ℕ)
        (state : KindState) (unit : UnitTree) → AreYielding yields state.modules
        → EndsYielding yields state unit
        → AreYielding yields (after text files words state unit).modules }
    ensures stays { (yields : Yields) (text : Text) (files : List ℕ → Outside) (words : List ℕ)
        (flat : FlatModule) (symbols : Meaning → Stand) (layout : Layout) (state : KindState)
        (unit : UnitTree) → KeepsStanding flat symbols layout state.standing
        → ((meaning : Meaning) → ComesAgain yields text files words state unit layout meaning)
        → StaysBehind text files words flat state unit symbols layout }
    ensures begins { (yields : Yields) (text : Text) (files : List ℕ → Outside) (words : List ℕ)
        (flat : FlatModule) (symbols : Meaning → Stand) (layout : Layout) (state : KindState)
        (dashes name : Lexeme) (extends : List Lexeme)
        → ((title : List ℕ) → IsYielding yields (files title))
        → OfAllKnown (IsYielding yields) state.modules.here
        → KeepsStanding flat symbols layout state.standing
        → ((meaning : Meaning)
        → Leaves text files words state (ModuleBegin dashes name extends) meaning
        ⊎ ((layout.stands meaning ≡ Unsaid) ⊎ HasYielded yields state meaning))
        → StaysBehind text files words flat state (ModuleBegin dashes name extends) symbols
        layout }
{}

/// A flat module that is built along a module, with the modules that are nested in it, means the
/// module, by what its symbols stand for and how many places they have.
pub fn modules_are_kept()
    ensures { (flat : FlatModule) (files : List ℕ → Outside) (source : List ℕ)
        (units : ModuleUnits) (symbols : Meaning → Stand) (places : ℕ)
        (extensions : List Extension) (comings : List Coming) (behind : Current)
        → IsBuiltAlong files source units flat symbols places extensions comings behind
        → IsModule flat symbols places (module_stands files source units behind.layout)
        (outside files source units) }
{}
