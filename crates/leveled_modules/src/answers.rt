// What nodes answer of a module, and its levels.
ghost use Rattle.std.specs.Prelude.{◌≡◌, ℕ, List};
ghost use Rattle.unit_grammar.specs.Units.{ModuleUnits};
ghost use Rattle.kind_text.specs.FlatModule.{FlatModule};
ghost use Rattle.tree_kinds.specs.Standing.{Outside};
ghost use Rattle.module_kinds.specs.ModuleKinds.{level_findings, too_deep};
ghost use Rattle.flattened_trees.specs.Answers.{deep_answers, level_answers};
ghost use Rattle.flattened_trees.specs.Questions.{Question};
ghost use Rattle.module_levels.specs.declared.levels.ModuleLevels.{ModuleLevels};
ghost use Rattle.module_levels.specs.Kept.{IsAnswered};
ghost use Rattle.leveled_modules.specs.Leveled.{AreLevelsOf};

/// Where nodes answer to what is asked of a module what the language finds in it, faults and levels
/// that are as they answer are those of the module.
pub fn answers_are_levels()
    ensures { (flat : FlatModule) (asked : List Question) (outsides : List ℕ → Outside)
        (source : List ℕ) (units : ModuleUnits) (found : ModuleLevels)
        → IsAnswered flat asked found
        → level_answers flat asked ≡ level_findings outsides source units
        → deep_answers flat asked ≡ too_deep outsides source units
        → AreLevelsOf outsides source units found }
{}
