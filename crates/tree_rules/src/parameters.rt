// Levels of parameters, and of what replaces them.
ghost use Rattle.std.specs.Prelude.{◌≡◌};
ghost use Rattle.std.specs.Option.{option_copied};
ghost use Rattle.tree_kinds.specs.Expanding as expanding;
ghost use Rattle.tree_kinds.specs.TreeLevels as tree_levels;

use tla_model::{Entity, Level, Meaning};

/// The greatest level of what replaces a parameter.
pub fn greatest_level(constant: bool, parameter: &Meaning) -> u8
    ensures { result ≡ expanding.greatest_level constant parameter.now }
{
    if constant {
        return 2;
    }
    match parameter {
        Meaning::Declared {
            entity: Entity::Variable,
            ..
        } => 1,
        _ => 0,
    }
}

/// The level of a parameter, by its declaration.
pub fn declared_level(parameter: Option<&Meaning>) -> Level
    ensures { result ≡ tree_levels.declared_level (option_copied parameter.entry) }
{
    match parameter {
        Some(
            Meaning::Declared {
                entity: Entity::Variable,
                ..
            },
        ) => Level::State,
        _ => Level::Constant,
    }
}
