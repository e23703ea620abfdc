// What the definition of needs means.
ghost use Rattle.std.specs.Prelude.{⊤, ℕ, List, All, Contains};
ghost use Rattle.std.specs.List.{AllByRecursion};
ghost use Rattle.tla_symbols.specs.declared.lexeme.Lexeme.{Lexeme};
ghost use Rattle.tla_model.specs.Lexemes.{LexemesLie, module_lexemes};
ghost use Rattle.unit_grammar.specs.Units.{ModuleUnits};
ghost use Rattle.unit_grammar.specs.Derivation.{DerivesModule};
ghost use Rattle.module_scope.specs.Environments.{Scope};
ghost use Rattle.module_scope.specs.Imports.{enclosing_of, imports_of};
ghost use Rattle.module_graph.specs.Imports.{AreNamesPlaced, LiesIn};
ghost use Rattle.module_graph.specs.Named.{PassesNested};
ghost use Rattle.module_graph.specs.Within.{IsWithin};

/// A nested module needs what is needed inside it. Behind it all is as before it, with its own name.
pub fn passes_nested()
    ensures { (text outermost : List ℕ) → (scope : Scope ⊤) → PassesNested text outermost scope }
{}

/// What a module needs stands in its lexemes, in their order.
pub fn needs_in_order()
    ensures { (text : List ℕ) → (found : ModuleUnits) → (lexemes : List Lexeme)
        → DerivesModule found lexemes → IsWithin (imports_of text found) lexemes }
{}

/// Where the lexemes of a module lie in a text, so do the names that `named_modules` compares.
pub fn names_lie()
    ensures { (text : List ℕ) → (found : ModuleUnits) → (lexemes : List Lexeme)
        → DerivesModule found lexemes → AllByRecursion (LiesIn text) lexemes
        → AreNamesPlaced text found }
{}

/// Where the names and symbols of a module lie in a text, so do the names that `named_modules` compares.
pub fn lexemes_lie_names()
    ensures { (source : List ℕ) → (units : ModuleUnits) → LexemesLie source units
        → AreNamesPlaced source units }
{}

/// What a module needs stands among its names and symbols.
pub fn imports_are_lexemes()
    ensures { (source : List ℕ) → (units : ModuleUnits)
        → All (Contains (module_lexemes units)) (imports_of source units) }
{}

/// The module names that are those of nested modules round them stand among the names and symbols of
/// the module.
pub fn enclosing_are_lexemes()
    ensures { (source : List ℕ) → (units : ModuleUnits)
        → All (Contains (module_lexemes units)) (enclosing_of source units) }
{}
