//! What the nodes of the units of a module answer is what is found in the module: of levels and of
//! depths.
//!
//! No code: each function states a law that proofs above cite. Knows nothing of how nodes are
//! built, and of how kinds and depths are found.
#![tactic(auto)]

ghost use Rattle.std.specs.Prelude.{◌≡◌, ℕ, List, [], ◌∷◌, Option, Some};
ghost use Rattle.tla_symbols.specs.declared.lexeme.Lexeme.{Lexeme};
ghost use Rattle.unit_grammar.specs.Units.{ModuleUnits};
ghost use Rattle.tla_model.specs.Entities.{Meaning, Text};
ghost use Rattle.tla_model.specs.Lexemes.{spelled};
ghost use Rattle.tla_model.specs.Tables.{Named};
ghost use Rattle.module_model.specs.Exports.{Behind, Known, entry_of, exports_of, onward};
ghost use Rattle.kind_text.specs.FlatModule.{Extends, FlatModule, IsOrdered};
ghost use Rattle.tree_kinds.specs.Standing.{Outside};
ghost use Rattle.tree_kinds.specs.Expanding.{module_of};
ghost use Rattle.module_kinds.specs.ModuleKinds.{last, level_findings, outside, too_deep};
ghost use Rattle.flattened_trees.specs.Agreeing.{TakesBehind};
ghost use Rattle.flattened_trees.specs.Answers.{deep_answers, level_answers};
ghost use Rattle.flattened_trees.specs.Leads.{FlatFace};
ghost use Rattle.flattened_trees.specs.Questions.{Question};
ghost use Rattle.flattened_trees.specs.Within.{IsLeadWithin};
ghost use Rattle.flattened_depths.specs.Rounds.{LeadsAs};
ghost use Rattle.flattened_units.specs.Units.{IsModuleMade, Reader, exported_leads};
ghost use Rattle.module_meanings.specs.Premises.{IsModuleGiven};
ghost use Rattle.module_answers.specs.Deep.{IsDeepSo, IsModuleArranged};
ghost use Rattle.module_answers.specs.Shaped.{IsModuleShaped};

/// What the kinds of the nodes of a module answer to what is asked of these is what is found of
/// levels in the module and in those that are nested in it, in the order of the text.
pub fn module_levels_are_found()
    ensures { (flat : FlatModule) (means : ℕ → Option Meaning) (implied : ℕ → List Meaning)
        (files : List ℕ → FlatFace) (outsides : List ℕ → Outside) (source : List ℕ)
        (units : ModuleUnits) (symbols : List Meaning) (last : Reader) (asked : List Question)
        (made : IsModuleMade flat means implied files outsides source units symbols last asked)
        → IsOrdered flat
        → IsModuleGiven flat means implied files outsides source units symbols last asked made
        → IsModuleShaped flat means implied files outsides source units symbols last asked made
        → level_answers flat asked ≡ level_findings outsides source units }
{}

/// What the nodes of a module answer is which definitions, assumptions and theorems are too deep in
/// it and in the modules that are nested in it, in the order of the text; and its names lead to what
/// is as deep as they are outside of it.
pub fn module_depths_are_found()
    ensures names { (flat : FlatModule) (means : ℕ → Option Meaning) (implied : ℕ → List Meaning)
        (files : List ℕ → FlatFace) (outsides : List ℕ → Outside) (source : List ℕ)
        (units : ModuleUnits) (symbols : List Meaning) (last : Reader) (asked : List Question)
        (made : IsModuleMade flat means implied files outsides source units symbols last asked)
        → IsOrdered flat
        → IsModuleGiven flat means implied files outsides source units symbols last asked made
        → IsModuleArranged flat means implied files outsides source units symbols last asked made
        → deep_answers flat asked ≡ too_deep outsides source units }
    ensures outside { (flat : FlatModule) (means : ℕ → Option Meaning)
        (implied : ℕ → List Meaning) (files : List ℕ → FlatFace) (outsides : List ℕ → Outside)
        (source : List ℕ) (units : ModuleUnits) (symbols : List Meaning) (last : Reader)
        (asked : List Question)
        (made : IsModuleMade flat means implied files outsides source units symbols last asked)
        → IsOrdered flat
        → IsModuleGiven flat means implied files outsides source units symbols last asked made
        → IsModuleArranged flat means implied files outsides source units symbols last asked made
        → IsDeepSo flat outsides source units symbols last }
{}

/// A module that is so deep is what is asked of one that a tree names, where its names take what is
/// known of them there: to a module definition, to an INSTANCE without a name, and to a module that
/// extends it.
pub fn deep_modules_are_named()
    ensures { (flat : FlatModule) (outsides : List ℕ → Outside) (source : List ℕ)
        (units : ModuleUnits) (symbols : List Meaning) (last_reader : Reader) (text : Text)
        (known : Known) (named : List ℕ → Outside) (faces : List ℕ → FlatFace) (l : Lexeme)
        (held : Behind) (deep : IsDeepSo flat outsides source units symbols last_reader)
        → module_of text known named l ≡ outside outsides source units
        → ((name : Named) (names : List Named)
        → (faces (spelled text.source l)).leads (name ∷ names)
        ≡ exported_leads last_reader.setting.leads
        (exports_of (last outsides source units).read.place.here.exports) (name ∷ names))
        → ((name : Named) (next : Meaning) → entry_of (held []) name ≡ Some next
        → TakesBehind (deep.inner name) (onward held name) next)
        → LeadsAs flat text known named faces l deep.inner held }
{}

/// A module that is so deep in a flat module is so in one that has more, where its names lead to
/// what is there already.
pub fn deep_modules_grow()
    ensures { (flat more : FlatModule) (outsides : List ℕ → Outside) (source : List ℕ)
        (units : ModuleUnits) (symbols : List Meaning) (last_reader : Reader)
        → Extends flat more → IsOrdered flat
        → ((name : Named) (names : List Named) → IsLeadWithin flat
        (exported_leads last_reader.setting.leads
        (exports_of (last outsides source units).read.place.here.exports) (name ∷ names)))
        → IsDeepSo flat outsides source units symbols last_reader
        → IsDeepSo more outsides source units symbols last_reader }
{}
