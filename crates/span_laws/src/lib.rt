//! Where the nodes of a module's trees stand.
//!
//! Answers between which lexemes the span of each node stands, and that it lies in the text. No
//! code: each function states a law. Knows nothing of how trees are built, and of what names mean.
#![tactic(auto)]

ghost use Rattle.std.specs.Prelude.{ℕ, List};
ghost use Rattle.tla_symbols.specs.declared.lexeme.Lexeme.{Lexeme};
ghost use Rattle.unit_grammar.specs.Units.{ModuleUnits};
ghost use Rattle.unit_grammar.specs.Derivation.{DerivesModule};
ghost use Rattle.front_laws.specs.Fronts.{Tree, IsFront};
ghost use Rattle.span_laws.specs.NodeSpans.{SpansLexemes, SpansText, NodeSpans};
ghost use Rattle.span_laws.specs.UnitWords.{WordsLie};

/// The span of each node of a module is that of one or more lexemes that stand side by side in those
/// of the module: it begins where the first does, and ends where the last does.
pub fn nodes_span_lexemes()
    ensures { (found : ModuleUnits) → (lexemes : List Lexeme) → DerivesModule found lexemes
        → NodeSpans (SpansLexemes lexemes) found }
{}

/// Of a module that is the front of some bytes, both ends of each node's span stand at characters
/// of these bytes, in their order.
pub fn front_nodes_placed()
    ensures { (name bytes : List ℕ) → (found : ModuleUnits) → IsFront name bytes (Tree found)
        → NodeSpans (SpansText bytes) found }
{
    tla_lexeme::reads_longest();
}

/// Of a module that is the front of some bytes, the words and dashes that its units hold, the names of
/// claims and the runs of `=` that end nested modules lie in these bytes.
pub fn front_words_lie()
    ensures { (name bytes : List ℕ) → (found : ModuleUnits) → IsFront name bytes (Tree found)
        → WordsLie bytes found }
{
    tla_lexeme::reads_longest();
}
