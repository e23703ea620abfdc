//! Where faults of depth and of levels stand.
//!
//! Answers that they stand in their module's text, at its names, symbols, words and nodes. No code:
//! each function states a law. Knows nothing of how levels are found, and of families of modules.
#![tactic(auto)]

ghost use Rattle.std.specs.Prelude.{◌≡◌, ◌++◌, ◌∷◌, [], ℕ, List};
ghost use Rattle.std.specs.List.{All};
ghost use Rattle.tla_symbols.specs.declared.lexeme.Lexeme.{Lexeme};
ghost use Rattle.unit_grammar.specs.Units.{ModuleUnits};
ghost use Rattle.tla_model.specs.declared.entity.Level.{Level};
ghost use Rattle.tla_model.specs.Lexemes.{LexemesLie, LiesIn};
ghost use Rattle.span_laws.specs.NodeSpans.{NodeSpans, SpansText};
ghost use Rattle.span_laws.specs.UnitWords.{WordsLie};
ghost use Rattle.tree_kinds.specs.Standing.{Outside};
ghost use Rattle.tree_kinds.specs.TreeLevels.{LevelFinding, Leveled};
ghost use Rattle.module_kinds.specs.ModuleKinds.{kind_faults, level_fault, level_faults, level_findings};
ghost use Rattle.module_kinds.specs.ModuleKinds.{too_deep};
ghost use Rattle.level_spans.specs.LevelSpans.{StandsAt};

/// What is found of levels in a module stands in its text, from one character to a later one or
/// itself: faults where its names and its nodes do, and uses where its names and symbols do.
pub fn findings_stand_in_text()
    ensures { (files : List ℕ → Outside) (source : List ℕ) (units : ModuleUnits)
        → LexemesLie source units → NodeSpans (SpansText source) units
        → All (StandsAt (SpansText source)) (level_findings files source units) }
{}

/// What is too deep in a module lies in its text, where its names and symbols do, and the words of
/// its assumptions and theorems.
pub fn deep_names_lie()
    ensures { (files : List ℕ → Outside) (source : List ℕ) (units : ModuleUnits)
        → LexemesLie source units → WordsLie source units
        → All (LiesIn source) (too_deep files source units) }
{}

/// Each fault of depth or of levels of a module stands in its text, from one character to a later one
/// or itself, where its names, the words of its units and its nodes do.
pub fn level_faults_stand_in_text()
    ensures { (files : List ℕ → Outside) (source : List ℕ) (units : ModuleUnits)
        → LexemesLie source units → WordsLie source units → NodeSpans (SpansText source) units
        → All (λ fault. SpansText source fault.span) (kind_faults files source units) }
{}

/// The level of a use is no fault, by itself and wherever it stands among what is found.
pub fn uses_are_no_faults()
    ensures alone { (l : Lexeme) (level : Level) → level_fault (Leveled l level) ≡ [] }
    ensures among { (before behind : List LevelFinding) (l : Lexeme) (level : Level)
        → level_faults (before ++ Leveled l level ∷ behind) ≡ level_faults (before ++ behind) }
{}
