//! The laws of the machine that reads expressions.
//!
//! Answers which trees the machine finds: every derivable list of lexemes is accepted, with its
//! tree, no other tree derives it, and nothing else is accepted. No code: each function states a law.
//! Knows nothing of how a machine is run.
#![tactic(auto)]

ghost use Rattle.std.specs.Prelude.{◌≡◌, true, ℕ, ◌+◌, ◌*◌, ◌≤◌, List, ◌++◌, length, Option, Some, None};
ghost use Rattle.tla_symbols.specs.declared.lexeme.Lexeme.{Lexeme};
ghost use Rattle.tla_tree.specs.Syntax.{Tree, Trees};
ghost use Rattle.tla_tree.specs.FirstBad.{DerivesWhole, Begins, IsFirstBad};
ghost use Rattle.tla_tree.specs.Derivation.{Derives, DerivesBounds};
ghost use Rattle.expr_grammar.specs.Kinds.{is_right_bracket};
ghost use Rattle.expr_grammar.specs.Following.{IsQuietNext, stops, done_before, bounds_done_before};
ghost use Rattle.expr_grammar.specs.Counting.{nodes, all_nodes, held_by, made_step, made, made_bounds};
ghost use Rattle.expr_grammar.specs.Machine.{State, step, run, start, parse, start_bounds, parse_bounds, RefusesAt};
ghost use Rattle.expr_grammar.specs.BoundsAlone.{BeginsBounds, IsFirstBadOfBounds, RefusesBoundsAt};

/// The machine accepts each derivable list, with the tree that derives it.
pub fn accepts_derivable()
    ensures { (tree : Tree) → (lexemes : List Lexeme) → DerivesWhole tree lexemes
        → parse lexemes ≡ Some tree }
{}

/// What the machine accepts is derivable, by the tree that it answers.
pub fn accepted_derives()
    ensures { (tree : Tree) → (lexemes : List Lexeme) → parse lexemes ≡ Some tree
        → DerivesWhole tree lexemes }
{}

/// Bounds alone, as in the head of a function's definition, are accepted where they are derivable.
pub fn accepts_bounds()
    ensures { (bounds : Trees) → (lexemes : List Lexeme) → DerivesBounds bounds lexemes 0 None
        → parse_bounds lexemes ≡ Some bounds }
{}

/// And what is accepted as bounds alone is derivable so.
pub fn accepted_bounds_derive()
    ensures { (bounds : Trees) → (lexemes : List Lexeme) → parse_bounds lexemes ≡ Some bounds
        → DerivesBounds bounds lexemes 0 None }
{}

/// No two trees derive one list.
pub fn one_tree()
    ensures { (tree other : Tree) → (lexemes : List Lexeme) → DerivesWhole tree lexemes
        → DerivesWhole other lexemes → tree ≡ other }
{}

/// Where the machine refuses, no derivable list begins with the lexemes so far.
pub fn refuses_no_beginning()
    ensures { (lexemes : List Lexeme) → run (Some start) lexemes ≡ None → Begins lexemes → ⊥ }
{}

/// Where the machine has not refused, some lexemes complete those so far to a list that it accepts.
pub fn unrefused_completes()
    ensures { (lexemes : List Lexeme) → (state : State) → run (Some start) lexemes ≡ Some state
        → (rest : List Lexeme) × (tree : Tree) × (parse (lexemes ++ rest) ≡ Some tree) }
{}

/// The machine refuses exactly at the first bad lexeme: the lexemes before it begin a derivable
/// list, and those up to and with it do not.
pub fn refuses_at_first_bad()
    ensures refused { (lexemes : List Lexeme) → (index : ℕ) → RefusesAt lexemes index
        → IsFirstBad lexemes index }
    ensures bad { (lexemes : List Lexeme) → (index : ℕ) → IsFirstBad lexemes index
        → RefusesAt lexemes index }
{}

/// Where the machine refuses bounds alone, no derivable list of bounds begins with the lexemes so far.
pub fn refuses_no_beginning_of_bounds()
    ensures { (lexemes : List Lexeme) → run (Some start_bounds) lexemes ≡ None
        → BeginsBounds lexemes → ⊥ }
{}

/// Where it has not refused them, some lexemes complete those so far to a list that it accepts.
pub fn unrefused_bounds_complete()
    ensures { (lexemes : List Lexeme) → (state : State)
        → run (Some start_bounds) lexemes ≡ Some state → (rest : List Lexeme) × (bounds : Trees)
        × (parse_bounds (lexemes ++ rest) ≡ Some bounds) }
{}

/// The machine refuses bounds alone exactly at the first bad lexeme: the lexemes before it begin a
/// derivable list of bounds, and those up to and with it do not.
pub fn refuses_bounds_at_first_bad()
    ensures refused { (lexemes : List Lexeme) → (index : ℕ) → RefusesBoundsAt lexemes index
        → IsFirstBadOfBounds lexemes index }
    ensures bad { (lexemes : List Lexeme) → (index : ℕ) → IsFirstBadOfBounds lexemes index
        → RefusesBoundsAt lexemes index }
{}

/// An expression stays one, by the same tree, before the end and before each lexeme that is no
/// operator, no bullet and no `[]`.
pub fn ends_before_quiet()
    ensures { (tree : Tree) → (lexemes : List Lexeme) → (inner : ℕ) → (follows next : Option Lexeme)
        → Derives tree lexemes inner follows → IsQuietNext next → Derives tree lexemes inner next }
{}

/// An expression is done exactly before a comma, `]`, `-.`, a name, a word that begins a unit, a run
/// of dashes or of `=`, and the run that closes the module, where it is derivable before that.
pub fn done_exactly()
    ensures done { (lexemes : List Lexeme) → (tree : Tree) → (next : Lexeme)
        → done_before (run (Some start) lexemes) next.kind ≡ Some tree
        → (stops next.kind ≡ true) × Derives tree lexemes 0 (Some next) }
    ensures all { (lexemes : List Lexeme) → (tree : Tree) → (next : Lexeme) → stops next.kind ≡ true
        → Derives tree lexemes 0 (Some next) → done_before (run (Some start) lexemes) next.kind
        ≡ Some tree }
{}

/// Bounds alone are done exactly before the `]` that closes the head of a function's definition, where
/// they are derivable before that.
pub fn bounds_done_exactly()
    ensures done { (lexemes : List Lexeme) → (bounds : Trees) → (next : Lexeme)
        → bounds_done_before (run (Some start_bounds) lexemes) next.kind ≡ Some bounds
        → (is_right_bracket next.kind ≡ true) × DerivesBounds bounds lexemes 0 (Some next) }
    ensures all { (lexemes : List Lexeme) → (bounds : Trees) → (next : Lexeme)
        → is_right_bracket next.kind ≡ true → DerivesBounds bounds lexemes 0 (Some next)
        → bounds_done_before (run (Some start_bounds) lexemes) next.kind ≡ Some bounds }
{}

/// A tree has at most two nodes for each of its lexemes.
pub fn few_nodes()
    ensures { (tree : Tree) → (lexemes : List Lexeme) → DerivesWhole tree lexemes
        → nodes tree ≤ 2 * length lexemes }
{}

/// By the count of `made`, which has those that it drops, the machine makes at most eight nodes for
/// each lexeme, whether it refuses or not. A tree that it finds has no more than that count.
pub fn few_made()
    ensures few { (lexemes : List Lexeme) → made lexemes ≤ 8 * length lexemes }
    ensures counted { (tree : Tree) → (lexemes : List Lexeme) → parse lexemes ≡ Some tree
        → nodes tree ≤ made lexemes }
{}

/// The same for bounds alone, by the count of `made_bounds`.
pub fn few_made_of_bounds()
    ensures few { (lexemes : List Lexeme) → made_bounds lexemes ≤ 8 * length lexemes }
    ensures counted { (bounds : Trees) → (lexemes : List Lexeme)
        → parse_bounds lexemes ≡ Some bounds → all_nodes bounds ≤ made_bounds lexemes }
{}

/// What the trees in the machine's state have more after a step is counted as made by that step.
pub fn made_tied()
    ensures { (state next : State) → (lexeme : Lexeme) → step state lexeme ≡ Some next
        → held_by next ≤ held_by state + made_step state lexeme }
{}
