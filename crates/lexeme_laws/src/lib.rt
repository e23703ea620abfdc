//! Where the names of a module begin: each at a place of its own.
//!
//! No code: each function states a law. Knows nothing of how trees are built, and of what names mean.
#![tactic(auto)]

ghost use Rattle.std.specs.Prelude.{ℕ, ◌≤◌, Bool, List};
ghost use Rattle.tla_symbols.specs.declared.lexeme.Lexeme.{Lexeme};
ghost use Rattle.tla_model.specs.Lexemes.{module_lexemes};
ghost use Rattle.unit_grammar.specs.Units.{ModuleUnits};
ghost use Rattle.unit_grammar.specs.Derivation.{DerivesModule};
ghost use Rattle.front_laws.specs.Fronts.{IsFront, Tree};
ghost use Rattle.module_model.specs.Modules.{text_of};
ghost use Rattle.flat_kinds.specs.Declarations.{StandApart};
ghost use Rattle.lexeme_laws.specs.Apart.{BeginApart, counted, declared_lexemes};

/// What a module holds is among its lexemes, each at most as often: of the names and symbols that it
/// holds no more pass a test than of its lexemes, and of the names that it declares and binds no more
/// than of those.
pub fn lexemes_are_held_once()
    ensures held { (p : Lexeme → Bool) (found : ModuleUnits) (lexemes : List Lexeme)
        → DerivesModule found lexemes → counted p (module_lexemes found) ≤ counted p lexemes }
    ensures declared { (p : Lexeme → Bool) (found : ModuleUnits)
        → counted p (declared_lexemes found) ≤ counted p (module_lexemes found) }
{}

/// No two names or symbols of a module that is the front of some bytes begin at one place, and so no
/// two of the names that it declares and binds.
pub fn names_begin_apart()
    ensures held { (name bytes : List ℕ) (found : ModuleUnits) → IsFront name bytes (Tree found)
        → BeginApart (module_lexemes found) }
    ensures declared { (name bytes : List ℕ) (found : ModuleUnits) → IsFront name bytes (Tree found)
        → StandApart (text_of bytes found).starts }
{}
