//! That modules between which levels and depths are known stay so, one after another.
//!
//! No code: each function states a law. Knows nothing of how nodes are built, and of how modules
//! are found.
#![tactic(auto)]

ghost use Rattle.std.specs.Prelude.{◌≡◌, ℕ, false, List};
ghost use Rattle.std.specs.Str.{bytes_eq};
ghost use Rattle.unit_grammar.specs.Units.{ModuleUnits};
ghost use Rattle.tla_model.specs.Entities.{Meaning};
ghost use Rattle.module_model.specs.Modules.{text_of};
ghost use Rattle.kind_text.specs.FlatModule.{Extends, FlatModule, IsOrdered};
ghost use Rattle.tree_kinds.specs.Standing.{Outside};
ghost use Rattle.module_kinds.specs.ModuleKinds.{level_findings, nowhere, outside, too_deep};
ghost use Rattle.flat_kinds.specs.Declarations.{Declarations};
ghost use Rattle.flattened_trees.specs.Answers.{deep_answers, level_answers};
ghost use Rattle.flattened_trees.specs.Leads.{FlatFace};
ghost use Rattle.flattened_trees.specs.Questions.{Question};
ghost use Rattle.arranged_modules.specs.Passed.{Reader, no_face};
ghost use Rattle.arranged_modules.specs.Passed.{IsModuleGiven};
ghost use Rattle.arranged_modules.specs.Passed.{implied_by, means_by};
ghost use Rattle.arranged_modules.specs.Passed.{face_of};
ghost use Rattle.arranged_modules.specs.Passed.{IsModuleBringing};
ghost use Rattle.arranged_modules.specs.Passed.{AreSymbolsPlain};
ghost use Rattle.known_modules.specs.Known.{IsForeignTo, IsKnownFile, IsMadeOver, Knowledge};
ghost use Rattle.known_modules.specs.Known.{found_over, no_knowledge, with_own_knowledge};

use arranged_modules::{
    brought_names_come, declarations_yield_names, deep_modules_are_files, faultless_modules_answer,
    faultless_modules_answer_depths, faultless_modules_are_given, given_modules_are_good,
    modules_are_steady, nested_names_are_given, own_depths_are_given,
};
use flat_kinds::places_are_declared;
use lexeme_laws::names_begin_apart;

/// A module without faults, over files that are known, is given as laws on its nodes ask, and so is
/// what modules that are nested in it bring.
pub fn made_modules_are_given()
    ensures nested { (declares : Declarations) (flat : FlatModule) (knowledge : Knowledge)
        (files : List ℕ → FlatFace) (outsides : List ℕ → Outside) (name bytes : List ℕ)
        (units : ModuleUnits) (symbols : List Meaning) (last : Reader) (asked : List Question)
        (is : IsMadeOver declares flat knowledge files outsides name bytes units symbols last
        asked)
        → let found = found_over outsides bytes units in
        IsModuleBringing flat (means_by found) (implied_by found) files outsides bytes units symbols
        last asked is.made }
    ensures itself { (declares : Declarations) (flat : FlatModule) (knowledge : Knowledge)
        (files : List ℕ → FlatFace) (outsides : List ℕ → Outside) (name bytes : List ℕ)
        (units : ModuleUnits) (symbols : List Meaning) (last : Reader) (asked : List Question)
        (is : IsMadeOver declares flat knowledge files outsides name bytes units symbols last
        asked)
        → let found = found_over outsides bytes units in
        IsModuleGiven flat (means_by found) (implied_by found) files outsides bytes units symbols
        last asked is.made }
{
    nested_names_are_given();
    faultless_modules_are_given();
}

/// What the nodes of such a module answer is what is found in it: of levels, and of what is too
/// deep.
pub fn made_modules_answer()
    ensures levels { (declares : Declarations) (flat : FlatModule) (knowledge : Knowledge)
        (files : List ℕ → FlatFace) (outsides : List ℕ → Outside) (name bytes : List ℕ)
        (units : ModuleUnits) (symbols : List Meaning) (last : Reader) (asked : List Question)
        → IsMadeOver declares flat knowledge files outsides name bytes units symbols last asked
        → level_answers flat asked ≡ level_findings outsides bytes units }
    ensures depths { (declares : Declarations) (flat : FlatModule) (knowledge : Knowledge)
        (files : List ℕ → FlatFace) (outsides : List ℕ → Outside) (name bytes : List ℕ)
        (units : ModuleUnits) (symbols : List Meaning) (last : Reader) (asked : List Question)
        → IsMadeOver declares flat knowledge files outsides name bytes units symbols last asked
        → deep_answers flat asked ≡ too_deep outsides bytes units }
{
    made_modules_are_given();
    faultless_modules_answer();
    faultless_modules_answer_depths();
}

/// Such a module is known itself, with what is known of its own declarations; and symbols have no
/// depth by that. To begin with nothing need be known.
pub fn made_modules_are_known()
    ensures itself { (declares : Declarations) (flat : FlatModule) (knowledge : Knowledge)
        (files : List ℕ → FlatFace) (outsides : List ℕ → Outside) (name bytes : List ℕ)
        (units : ModuleUnits) (symbols : List Meaning) (last : Reader) (asked : List Question)
        → IsMadeOver declares flat knowledge files outsides name bytes units symbols last asked
        → IsKnownFile declares flat (with_own_knowledge declares outsides bytes units knowledge)
        (face_of outsides bytes units last) (outside outsides bytes units) }
    ensures symbols { (declares : Declarations) (flat : FlatModule) (knowledge : Knowledge)
        (files : List ℕ → FlatFace) (outsides : List ℕ → Outside) (name bytes : List ℕ)
        (units : ModuleUnits) (symbols : List Meaning) (last : Reader) (asked : List Question)
        → IsMadeOver declares flat knowledge files outsides name bytes units symbols last asked
        → AreSymbolsPlain declares
        (with_own_knowledge declares outsides bytes units knowledge).depths }
    ensures begins { (declares : Declarations) → AreSymbolsPlain declares no_knowledge.depths }
{
    places_are_declared();
    names_begin_apart();
    made_modules_are_given();
    given_modules_are_good();
    declarations_yield_names();
    modules_are_steady();
    deep_modules_are_files();
    own_depths_are_given();
}

/// A known file stays so with what is known of a module to which it is foreign, and in a flat module
/// that has more. A module that is not there is known.
pub fn known_files_stay_known()
    ensures others { (declares : Declarations) (flat : FlatModule) (knowledge : Knowledge)
        (outsides : List ℕ → Outside) (bytes : List ℕ) (units : ModuleUnits) (face : FlatFace)
        (file : Outside) → IsKnownFile declares flat knowledge face file
        → IsForeignTo (text_of bytes units).file file
        → IsKnownFile declares flat (with_own_knowledge declares outsides bytes units knowledge)
        face file }
    ensures grows { (declares : Declarations) (flat more : FlatModule) (knowledge : Knowledge)
        (face : FlatFace) (file : Outside) → Extends flat more → IsOrdered flat
        → IsKnownFile declares flat knowledge face file
        → IsKnownFile declares more knowledge face file }
    ensures nothing { (declares : Declarations) (flat : FlatModule) (knowledge : Knowledge)
        → IsKnownFile declares flat knowledge no_face nowhere }
{
    given_modules_are_good();
    declarations_yield_names();
    modules_are_steady();
    deep_modules_are_files();
}

/// A module over files that are foreign to the next one, of another title, is foreign to it; so is
/// a module that is not there.
pub fn modules_are_foreign()
    ensures itself { (outsides : List ℕ → Outside) (bytes next : List ℕ) (units : ModuleUnits)
        → ((title : List ℕ) → IsForeignTo next (outsides title))
        → bytes_eq (text_of bytes units).file next ≡ false
        → IsForeignTo next (outside outsides bytes units) }
    ensures nothing { (title : List ℕ) → IsForeignTo title nowhere }
{
    brought_names_come();
    deep_modules_are_files();
}
