// What follows from the definitions alone.
ghost use Rattle.std.specs.Prelude.{◌≡◌, [], ℕ, List};
ghost use Rattle.std.specs.List.{All};
ghost use Rattle.unit_grammar.specs.Units.{ModuleUnits};
ghost use Rattle.tla_model.specs.declared.Diagnostic.{Diagnostic};
ghost use Rattle.module_model.specs.Bindings.{AreInOrder};
ghost use Rattle.tla_model.specs.Lexemes.{LexemesLie};
ghost use Rattle.span_laws.specs.NodeSpans.{NodeSpans, SpansText};
ghost use Rattle.module_facts.specs.Checks.{ImportStatus, all_faults};
ghost use Rattle.module_facts.specs.Ordered as ordered;

use module_graph::{enclosing_are_lexemes, imports_are_lexemes};

/// Diagnostics have one order.
pub fn one_order()
    ensures { (all found other : List Diagnostic) → AreInOrder all found → AreInOrder all other
        → found ≡ other }
{}

/// Diagnostics are put in order by `in_order`, and in no other way.
pub fn in_order()
    ensures are { (all : List Diagnostic) → AreInOrder all (ordered.in_order all) }
    ensures no_other { (all found : List Diagnostic) → AreInOrder all found
        → found ≡ ordered.in_order all }
{}

/// Where there are no diagnostics, there are none in order, and the other way round.
pub fn none_in_order()
    ensures none { (found : List Diagnostic) → AreInOrder [] found → found ≡ [] }
    ensures any { (all : List Diagnostic) → AreInOrder all [] → all ≡ [] }
{}

/// Each fault of a module stands in its text, from one character to a later one or itself, where its
/// names and its nodes do.
pub fn faults_stand_in_text()
    ensures { (given : List ℕ → ImportStatus) → (source : List ℕ) → (units : ModuleUnits)
        → LexemesLie source units → NodeSpans (SpansText source) units
        → All (λ fault. SpansText source fault.span) (all_faults given source units) }
{
    imports_are_lexemes();
    enclosing_are_lexemes();
}
