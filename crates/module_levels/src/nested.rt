// Nested modules of texts.
ghost use Rattle.std.specs.Prelude.{ℕ, List};
ghost use Rattle.unit_grammar.specs.Units.{ModuleUnits};
ghost use Rattle.front_laws.specs.Fronts.{IsFront, Tree};
ghost use Rattle.module_model.specs.Imports.{Imports};
ghost use Rattle.unit_flattener.specs.Modules.{BeginsAreEnded, EndsAreBegun};

use accepted_modules::readers_end;

/// In a module that is read from a text each end of a nested module belongs to one that begins
/// there, and each nested module that begins there ends there.
pub fn nested_modules_close()
    ensures ends { (name bytes : List ℕ) (units : ModuleUnits) (imports : Imports)
        → IsFront name bytes (Tree units) → EndsAreBegun imports bytes units }
    ensures begins { (name bytes : List ℕ) (units : ModuleUnits) (imports : Imports)
        → IsFront name bytes (Tree units) → BeginsAreEnded imports bytes units }
{
    readers_end();
}
