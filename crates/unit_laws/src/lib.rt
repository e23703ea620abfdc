//! The laws of the machine that reads modules and their units, and of their grammar.
//!
//! Answers which modules the machine finds: every derivable list of lexemes is accepted, with its
//! module, no other module derives it, and nothing else is accepted. No code: each function states a
//! law. Knows nothing of how a machine is run.
#![tactic(auto)]

ghost use Rattle.std.specs.Prelude.{◌≡◌, ◌⊎◌, ℕ, suc, ◌<◌, ◌≤◌, max, List, [], ◌∷◌, ◌++◌, length, Some, None};
ghost use Rattle.tla_symbols.specs.declared.lexeme.Lexeme.{Lexeme};
ghost use Rattle.unit_grammar.specs.Units.{UnitTree, ModuleBegin, ModuleEnd, ModuleUnits};
ghost use Rattle.unit_grammar.specs.Derivation.{DerivesUnits, DerivesModule};
ghost use Rattle.unit_grammar.specs.FirstBad.{IsDerivable, Begins, IsFirstBad, EndsOnce};
ghost use Rattle.unit_grammar.specs.Heights.{highest_unit};
ghost use Rattle.unit_machine.specs.Machine.{State, held, run, opening, parse, RefusesAt};

/// The machine accepts each derivable list, with the module that derives it.
pub fn accepts_derivable()
    ensures { (found : ModuleUnits) → (lexemes : List Lexeme) → DerivesModule found lexemes
        → parse lexemes ≡ Some found }
{}

/// What the machine accepts is derivable, by the module that it answers.
pub fn accepted_derives()
    ensures { (found : ModuleUnits) → (lexemes : List Lexeme) → parse lexemes ≡ Some found
        → DerivesModule found lexemes }
{}

/// No two modules derive one list.
pub fn one_module()
    ensures { (found other : ModuleUnits) → (lexemes : List Lexeme) → DerivesModule found lexemes
        → DerivesModule other lexemes → found ≡ other }
{}

/// Where the machine refuses, no derivable list begins with the lexemes so far.
pub fn refuses_no_beginning()
    ensures { (lexemes : List Lexeme) → run (Some opening) lexemes ≡ None → Begins lexemes → ⊥ }
{}

/// Where the machine has not refused, some lexemes complete those so far to a list that it accepts.
pub fn unrefused_completes()
    ensures { (lexemes : List Lexeme) → (reached : State)
        → run (Some opening) lexemes ≡ Some reached → (rest : List Lexeme) × (found : ModuleUnits)
        × (parse (lexemes ++ rest) ≡ Some found) }
{}

/// The machine refuses exactly at the first bad lexeme: the lexemes before it begin a derivable
/// list, and those up to and with it do not.
pub fn refuses_at_first_bad()
    ensures refused { (lexemes : List Lexeme) → (index : ℕ) → RefusesAt lexemes index
        → IsFirstBad lexemes index }
    ensures bad { (lexemes : List Lexeme) → (index : ℕ) → IsFirstBad lexemes index
        → RefusesAt lexemes index }
{}

/// A list that ends as the lexemes of a text do is accepted where the machine has not refused it.
pub fn accepts_read()
    ensures { (lexemes : List Lexeme) → EndsOnce lexemes → (reached : State)
        → run (Some opening) lexemes ≡ Some reached
        → (found : ModuleUnits) × (parse lexemes ≡ Some found) }
{}

/// A list that ends as the lexemes of a text do is derivable, or some lexeme of it is the first bad
/// one.
pub fn derivable_or_bad()
    ensures { (lexemes : List Lexeme) → EndsOnce lexemes
        → IsDerivable lexemes
        ⊎ ((index : ℕ) × (index < length lexemes) × IsFirstBad lexemes index) }
{}

/// At most three frames are held: a definition, an instance on its right, a replacement in that.
pub fn few_held()
    ensures { (lexemes : List Lexeme) → (reached : State)
        → run (Some opening) lexemes ≡ Some reached → held reached.focus ≤ 3 }
{}

/// A nested module is one higher than its highest unit, and of units that stand beside others the
/// higher counts.
pub fn heights_nest()
    ensures nested { (units : List UnitTree) → (lexemes : List Lexeme) → (next : Lexeme)
        → DerivesUnits units lexemes next → (dashes name : Lexeme) → (extends : List Lexeme)
        → (closing : Lexeme)
        → highest_unit 0 (ModuleBegin dashes name extends ∷ (units ++ ModuleEnd closing ∷ []))
        ≡ suc (highest_unit 0 units) }
    ensures beside { (units : List UnitTree) → (lexemes : List Lexeme) → (next : Lexeme)
        → DerivesUnits units lexemes next → (more : List UnitTree)
        → highest_unit 0 (units ++ more) ≡ max (highest_unit 0 units) (highest_unit 0 more) }
{}
