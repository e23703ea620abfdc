//! That modules without faults over files that lead as deep as they are answer what is found of
//! depths, and lead so themselves.
//!
//! No code: each function states a law. Knows nothing of how nodes are built, and of how depths are
//! found.
#![tactic(auto)]

ghost use Rattle.std.specs.Prelude.{◌≡◌, ℕ, false, List, Option};
ghost use Rattle.std.specs.Str.{bytes_eq};
ghost use Rattle.unit_grammar.specs.Units.{ModuleUnits};
ghost use Rattle.tla_model.specs.Entities.{Meaning};
ghost use Rattle.tla_model.specs.Tables.{Named};
ghost use Rattle.module_model.specs.Modules.{text_of};
ghost use Rattle.module_model.specs.Resolution.{findings, words_of};
ghost use Rattle.kind_text.specs.FlatModule.{Extends, FlatModule, IsOrdered};
ghost use Rattle.tree_kinds.specs.Standing.{Outside};
ghost use Rattle.module_kinds.specs.ModuleKinds.{nowhere, outside, too_deep, views};
ghost use Rattle.flat_trees.specs.Instances.{symbols_of};
ghost use Rattle.flat_trees.specs.Stands.{Stand, Unsaid};
ghost use Rattle.flat_kinds.specs.Declarations.{Declarations};
ghost use Rattle.flattened_trees.specs.Answers.{deep_answers};
ghost use Rattle.flattened_trees.specs.Leads.{FlatFace};
ghost use Rattle.flattened_trees.specs.Questions.{Question};
ghost use Rattle.flattened_units.specs.Units.{IsModuleMade, Reader, no_face};
ghost use Rattle.given_modules.specs.Passed.{IsFaceWithin, IsModuleGiven};
ghost use Rattle.given_modules.specs.Passed.{IsDeepSo, IsModuleArranged};
ghost use Rattle.readable_laws.specs.Uses.{implied_by, means_by};
ghost use Rattle.given_modules.specs.Passed.{Behinds};
ghost use Rattle.given_modules.specs.Good.{AreGoodFiles, IsFaultless, face_of, with_file};
ghost use Rattle.given_modules.specs.Others.{BringsOthers};
ghost use Rattle.given_modules.specs.Passed.{GivenDepths, IsGivenOutside};
ghost use Rattle.given_modules.specs.Passed.{with_own_depths};
ghost use Rattle.arranged_modules.specs.Files.{AreDeepFiles, IsDeepFace};

use flat_kinds::places_are_declared;
use given_modules::{faultless_modules_are_shaped, module_depths_are_found, own_names_are_apart};
use lexeme_laws::names_begin_apart;

// Laws above stand on these beside those that are stated here.
pub use given_modules::{
    brought_names_come, declarations_yield_names, faultless_modules_answer,
    faultless_modules_are_given, given_modules_are_good, modules_are_steady,
    nested_names_are_given, own_depths_are_given,
};

/// A module without faults that is given is arranged, over files that are good, and whose names
/// lead to what is as deep as they are outside of them: by how deep their declarations are.
pub fn faultless_modules_are_arranged()
    ensures { (flat : FlatModule) (declares : Declarations) (behinds : Behinds)
        (given : GivenDepths) (inside : List ℕ → Named → Stand) (files : List ℕ → FlatFace)
        (outsides : List ℕ → Outside) (name bytes : List ℕ) (units : ModuleUnits)
        (symbols : List Meaning) (last : Reader) (asked : List Question)
        → let found = findings (views (text_of bytes units) outsides (words_of units)) bytes units
        in (made : IsModuleMade flat (means_by found) (implied_by found) files outsides bytes units
        symbols last asked)
        → AreGoodFiles flat declares behinds (text_of bytes units).file files outsides
        → AreDeepFiles flat declares given inside (text_of bytes units).file files outsides
        → IsFaultless declares outsides name bytes units
        → symbols ≡ symbols_of (outside outsides bytes units)
        → IsModuleGiven flat (means_by found) (implied_by found) files outsides bytes units symbols
        last asked made
        → IsModuleArranged flat (means_by found) (implied_by found) files outsides bytes units
        symbols last asked made }
{
    places_are_declared();
    names_begin_apart();
    faultless_modules_are_shaped();
    own_names_are_apart();
}

/// So what its nodes answer is what is found to be too deep in it, and its names lead to what is as
/// deep as they are outside of it.
pub fn faultless_modules_answer_depths()
    ensures names { (flat : FlatModule) (declares : Declarations) (behinds : Behinds)
        (given : GivenDepths) (inside : List ℕ → Named → Stand) (files : List ℕ → FlatFace)
        (outsides : List ℕ → Outside) (name bytes : List ℕ) (units : ModuleUnits)
        (symbols : List Meaning) (last : Reader) (asked : List Question)
        → let found = findings (views (text_of bytes units) outsides (words_of units)) bytes units
        in (made : IsModuleMade flat (means_by found) (implied_by found) files outsides bytes units
        symbols last asked)
        → IsOrdered flat
        → AreGoodFiles flat declares behinds (text_of bytes units).file files outsides
        → AreDeepFiles flat declares given inside (text_of bytes units).file files outsides
        → IsFaultless declares outsides name bytes units
        → symbols ≡ symbols_of (outside outsides bytes units)
        → IsModuleGiven flat (means_by found) (implied_by found) files outsides bytes units symbols
        last asked made
        → deep_answers flat asked ≡ too_deep outsides bytes units }
    ensures outside { (flat : FlatModule) (declares : Declarations) (behinds : Behinds)
        (given : GivenDepths) (inside : List ℕ → Named → Stand) (files : List ℕ → FlatFace)
        (outsides : List ℕ → Outside) (name bytes : List ℕ) (units : ModuleUnits)
        (symbols : List Meaning) (last : Reader) (asked : List Question)
        → let found = findings (views (text_of bytes units) outsides (words_of units)) bytes units
        in (made : IsModuleMade flat (means_by found) (implied_by found) files outsides bytes units
        symbols last asked)
        → IsOrdered flat
        → AreGoodFiles flat declares behinds (text_of bytes units).file files outsides
        → AreDeepFiles flat declares given inside (text_of bytes units).file files outsides
        → IsFaultless declares outsides name bytes units
        → symbols ≡ symbols_of (outside outsides bytes units)
        → IsModuleGiven flat (means_by found) (implied_by found) files outsides bytes units symbols
        last asked made
        → IsDeepSo flat outsides bytes units symbols last }
{
    faultless_modules_are_arranged();
    module_depths_are_found();
}

/// Such a module is a file to others that leads as deep as it is, with the depths of its own names.
/// Files do so still: with these depths they are as deep as before, and they lead so in a flat
/// module that has more. A module has no names of the next one, if files have none. So they do with
/// it, to the next one.
pub fn deep_modules_are_files()
    ensures itself { (flat : FlatModule) (declares : Declarations) (behinds : Behinds)
        (given : GivenDepths) (inside : List ℕ → Named → Stand) (files : List ℕ → FlatFace)
        (outsides : List ℕ → Outside) (name bytes : List ℕ) (units : ModuleUnits)
        (symbols : List Meaning) (last : Reader) (asked : List Question)
        → let found = findings (views (text_of bytes units) outsides (words_of units)) bytes units
        in (made : IsModuleMade flat (means_by found) (implied_by found) files outsides bytes units
        symbols last asked)
        → IsOrdered flat
        → AreGoodFiles flat declares behinds (text_of bytes units).file files outsides
        → AreDeepFiles flat declares given inside (text_of bytes units).file files outsides
        → IsFaultless declares outsides name bytes units
        → symbols ≡ symbols_of (outside outsides bytes units)
        → IsModuleGiven flat (means_by found) (implied_by found) files outsides bytes units symbols
        last asked made
        → (inner : Named → Stand)
        × IsDeepFace flat inner (face_of outsides bytes units last) (outside outsides bytes units) }
    ensures given { (flat : FlatModule) (declares : Declarations) (behinds : Behinds)
        (given : GivenDepths) (inside : List ℕ → Named → Stand) (files : List ℕ → FlatFace)
        (outsides : List ℕ → Outside) (name bytes : List ℕ) (units : ModuleUnits)
        (symbols : List Meaning) (last : Reader) (asked : List Question)
        → let found = findings (views (text_of bytes units) outsides (words_of units)) bytes units
        in (made : IsModuleMade flat (means_by found) (implied_by found) files outsides bytes units
        symbols last asked)
        → AreGoodFiles flat declares behinds (text_of bytes units).file files outsides
        → AreDeepFiles flat declares given inside (text_of bytes units).file files outsides
        → IsFaultless declares outsides name bytes units
        → symbols ≡ symbols_of (outside outsides bytes units)
        → IsModuleGiven flat (means_by found) (implied_by found) files outsides bytes units symbols
        last asked made
        → IsGivenOutside (with_own_depths outsides bytes units given)
        (outside outsides bytes units) }
    ensures others { (given : GivenDepths) (outsides : List ℕ → Outside) (bytes : List ℕ)
        (units : ModuleUnits) (named : Outside) → IsGivenOutside given named
        → BringsOthers (text_of bytes units).file named
        → IsGivenOutside (with_own_depths outsides bytes units given) named }
    ensures foreign { (outsides : List ℕ → Outside) (bytes next : List ℕ) (units : ModuleUnits)
        → ((title : List ℕ) → BringsOthers next (outsides title))
        → bytes_eq (text_of bytes units).file next ≡ false
        → BringsOthers next (outside outsides bytes units) }
    ensures grows { (flat more : FlatModule) (inner : Named → Stand) (face : FlatFace)
        (named : Outside) → Extends flat more → IsOrdered flat → IsFaceWithin flat face
        → IsDeepFace flat inner face named → IsDeepFace more inner face named }
    ensures next { (flat more : FlatModule) (declares : Declarations) (behinds : Behinds)
        (given : GivenDepths) (inside : List ℕ → Named → Stand) (files : List ℕ → FlatFace)
        (outsides : List ℕ → Outside) (name bytes next : List ℕ) (units : ModuleUnits)
        (inner : Named → Stand) (face : FlatFace) → Extends flat more → IsOrdered flat
        → AreGoodFiles flat declares behinds (text_of bytes units).file files outsides
        → AreDeepFiles flat declares given inside (text_of bytes units).file files outsides
        → IsFaultless declares outsides name bytes units
        → ((title : List ℕ) → BringsOthers next (outsides title))
        → IsDeepFace more inner face (outside outsides bytes units)
        → IsGivenOutside (with_own_depths outsides bytes units given)
        (outside outsides bytes units) → bytes_eq (text_of bytes units).file next ≡ false
        → AreDeepFiles more declares (with_own_depths outsides bytes units given)
        (with_file (text_of bytes units).file inner inside) next
        (with_file (text_of bytes units).file face files)
        (with_file (text_of bytes units).file (outside outsides bytes units) outsides) }
    ensures nothing { (flat : FlatModule) (given : GivenDepths) (title : List ℕ)
        → (IsDeepFace flat (λ name. Unsaid) no_face nowhere)
        × IsGivenOutside given nowhere × BringsOthers title nowhere }
{
    places_are_declared();
    names_begin_apart();
    faultless_modules_answer_depths();
    own_names_are_apart();
    own_depths_are_given();
}
