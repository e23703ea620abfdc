//! That the names which a unit of a module declares and binds are new there.
//!
//! No code: each function states a law. Knows nothing of how trees are read, and of what names stand
//! for.
#![tactic(auto)]

ghost use Rattle.std.specs.Prelude.{◌≡◌, ℕ, List, [], ◌∷◌, ◌++◌, Option};
ghost use Rattle.std.specs.List.{AllByRecursion};
ghost use Rattle.tla_symbols.specs.declared.lexeme.Lexeme.{Lexeme};
ghost use Rattle.tla_symbols.specs.declared.lexeme.Span.{Span};
ghost use Rattle.tla_tree.specs.declared.form.Form.TheVariants as Form;
ghost use Rattle.tla_tree.specs.Syntax.{Cons, Nil, Node, Tree as TreeOf, Trees};
ghost use Rattle.tla_model.specs.declared.names.Binder.{Binder};
ghost use Rattle.tla_model.specs.Lexemes.{spelled};
ghost use Rattle.tla_model.specs.Entities.{Meaning, Text, declared_by, declaring, within};
ghost use Rattle.unit_grammar.specs.Units.{Instance, ModuleBegin, ModuleUnits, UnitTree};
ghost use Rattle.front_laws.specs.Fronts.{IsFront, Tree};
ghost use Rattle.module_model.specs.Modules.{text_of};
ghost use Rattle.module_scope.specs.Environments.{begun};
ghost use Rattle.module_model.specs.Exports.{exported};
ghost use Rattle.module_model.specs.NamedModules.{view_of};
ghost use Rattle.module_model.specs.Resolution.{module_named};
ghost use Rattle.module_model.specs.Instances.{unit_trees};
ghost use Rattle.kind_text.specs.FlatModule.{FlatModule};
ghost use Rattle.tree_kinds.specs.Standing.{Outside};
ghost use Rattle.module_kinds.specs.ModuleKinds.{KindState, named_in, views};
ghost use Rattle.flattened_trees.specs.Agreeing.{IsFresh};
ghost use Rattle.flattened_trees.specs.Leads.{FlatFace};
ghost use Rattle.flattened_units.specs.Units.{Reader, meanings_of};
ghost use Rattle.module_meanings.specs.Premises.{first_seen, seen_behind};
ghost use Rattle.fresh_names.specs.Seen.{IsElsewhere, brought_by, symbols_in};

use lexeme_laws::{lexemes_are_held_once, names_begin_apart};

/// The names that the tree of a unit declares and binds are new, in a module that is the front of
/// some bytes: they mean nothing that was seen before, where that is built in, came through an
/// INSTANCE, is declared in another text, or is declared by another unit. So they are where what was
/// seen of the text itself is declared by units before, or is a symbol of those behind.
pub fn declared_names_are_new()
    ensures own { (name bytes : List ℕ) (found : ModuleUnits) (before behind : List UnitTree)
        (unit : UnitTree) (x : TreeOf) (seen : List Meaning) → IsFront name bytes (Tree found)
        → found.units ≡ before ++ unit ∷ behind → declared_by unit ≡ within x
        → AllByRecursion
        (IsElsewhere (text_of bytes found) (declaring before ++ declaring behind)) seen
        → IsFresh (text_of bytes found) seen x }
    ensures trees { (name bytes : List ℕ) (found : ModuleUnits) (before behind : List UnitTree)
        (unit : UnitTree) (x : TreeOf) (seen : List Meaning) → IsFront name bytes (Tree found)
        → found.units ≡ before ++ unit ∷ behind → unit_trees unit ≡ Cons x Nil
        → AllByRecursion
        (IsElsewhere (text_of bytes found) (declaring before ++ symbols_in (unit ∷ behind))) seen
        → IsFresh (text_of bytes found) seen x }
{
    lexemes_are_held_once();
    names_begin_apart();
}

/// What was seen stays so along units: of the text itself, names that units before declare, and
/// symbols of those behind. It is asked that what a unit brings is so.
pub fn seen_names_stay_elsewhere()
    ensures { (text : Text) (outsides : List ℕ → Outside) (words : List ℕ) (state : KindState)
        (before behind : List UnitTree) (unit : UnitTree) (next : Reader) (seen : List Meaning)
        → AllByRecursion
        (IsElsewhere text (declaring before ++ symbols_in (unit ∷ behind))) seen
        → AllByRecursion (IsElsewhere text (declaring before ++ symbols_in (unit ∷ behind)))
        (brought_by text outsides words state unit next)
        → AllByRecursion
        (IsElsewhere text (declaring (before ++ unit ∷ []) ++ symbols_in behind))
        (seen_behind text outsides words state unit next seen) }
{}

/// What is seen before the first unit of a module is so, where its symbols are, and the names of
/// files are built in, came through an INSTANCE or are declared in other texts.
pub fn first_names_are_elsewhere()
    ensures { (flat : FlatModule) (means : ℕ → Option Meaning) (implied : ℕ → List Meaning)
        (files : List ℕ → FlatFace) (outsides : List ℕ → Outside) (source : List ℕ)
        (units : ModuleUnits) (symbols : List Meaning)
        → ((name : List ℕ) → AllByRecursion (IsElsewhere (text_of source units) [])
        (meanings_of (exported (outsides name).view)))
        → AllByRecursion (IsElsewhere (text_of source units) (symbols_in units.units)) symbols
        → AllByRecursion (IsElsewhere (text_of source units) (symbols_in units.units))
        (first_seen flat means implied files outsides source units symbols) }
{}

/// What a unit brings is so: through an INSTANCE without a name, where the names of its module are;
/// and for a nested module, where its symbols are and the names of the modules that it extends.
pub fn brought_names_are_elsewhere()
    ensures instances { (text : Text) (outsides : List ℕ → Outside) (words : List ℕ)
        (state : KindState) (local : Option Lexeme) (l : Lexeme) (s : Span) (parts : Trees)
        (next : Reader) (others : List Binder)
        → AllByRecursion (IsElsewhere text others) (meanings_of (exported
        (view_of text (module_named text (views text outsides words) words state.read) l)))
        → AllByRecursion (IsElsewhere text others) (brought_by text outsides words state
        (Instance local (Node (Form.Instance l) s parts)) next) }
    ensures nested { (text : Text) (outsides : List ℕ → Outside) (words : List ℕ)
        (state : KindState) (dashes name : Lexeme) (extends : List Lexeme) (next : Reader)
        (others : List Binder)
        → AllByRecursion (IsElsewhere text others) next.setting.frame
        → AllByRecursion (λ l. AllByRecursion (IsElsewhere text others) (meanings_of (exported
        (named_in text outsides words (begun state.modules (spelled text.source name))
        (spelled text.source l)).view))) extends
        → AllByRecursion (IsElsewhere text others) (brought_by text outsides words state
        (ModuleBegin dashes name extends) next) }
{}
