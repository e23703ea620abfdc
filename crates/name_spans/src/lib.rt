//! Where the uses and the declaring names of a module stand.
//!
//! Answers that they stand in the module's text, where its lexemes do. No code: each function states a
//! law. Knows nothing of how they are found, and of families of modules.
#![tactic(auto)]

ghost use Rattle.std.specs.Prelude.{[], ℕ, List};
ghost use Rattle.std.specs.List.{All};
ghost use Rattle.std.specs.Str.{IsUtf8};
ghost use Rattle.unit_grammar.specs.Units.{ModuleUnits};
ghost use Rattle.tla_model.specs.Lexemes.{LexemesLie};
ghost use Rattle.front_laws.specs.Fronts.{Tree, IsFront};
ghost use Rattle.span_laws.specs.NodeSpans.{SpansText};
ghost use Rattle.module_facts.specs.Checks.{ImportStatus, all_decls, all_uses};

/// Each use of a module stands in its text, from one character to a later one or itself, where the
/// names and symbols of the module do.
pub fn uses_stand_in_text()
    ensures { (given : List ℕ → ImportStatus) → (source : List ℕ) → (units : ModuleUnits)
        → LexemesLie source units
        → All (λ u. SpansText source u.name) (all_uses given source units) }
{}

/// So does each of its declaring names. A declaration of another module is none of these: it stands in
/// that module's text.
pub fn decls_stand_in_text()
    ensures { (given : List ℕ → ImportStatus) → (source : List ℕ) → (units : ModuleUnits)
        → LexemesLie source units
        → All (λ d. SpansText source d.name) (all_decls given source units) }
{}

/// Bytes that are a module are UTF-8.
pub fn modules_are_texts()
    ensures { (name bytes : List ℕ) → (found : ModuleUnits) → IsFront name bytes (Tree found)
        → IsUtf8 bytes }
{}
