// What lexemes do in modules, outside definitions, declarations, instances and expressions.
ghost use Rattle.std.specs.Prelude.{◌≡◌};
ghost use Rattle.unit_machine.specs.Tables as tables;

use expr_kinds::{is_comma, is_name};
use tla_symbols::{LexKind, Lexeme, Op, Word};
use unit_machine::{Due, DueMove, UnitStart, Wait};

fn is_dashes(kind: LexKind) -> bool
    ensures { result ≡ tables.is_dashes kind }
{
    matches!(&kind, LexKind::Dashes)
}

fn is_module(kind: LexKind) -> bool
    ensures { result ≡ tables.is_module kind }
{
    matches!(&kind, LexKind::Word(Word::Module))
}

fn is_extends(kind: LexKind) -> bool
    ensures { result ≡ tables.is_extends kind }
{
    matches!(&kind, LexKind::Word(Word::Extends))
}

// Whether the lexeme begins a definition or an instance.
fn may_be_local(kind: LexKind) -> bool
    ensures { result ≡ tables.may_be_local kind }
{
    matches!(
        &kind,
        LexKind::Name | LexKind::Sym(Op::Negative) | LexKind::Word(Word::Instance)
    )
}

fn if_due(test: bool, due_move: DueMove) -> DueMove
    ensures { result ≡ tables.if_due test due_move }
{
    if test { due_move } else { DueMove::Refused }
}

// `EXTENDS` after the line that begins a module, or what is due in it.
fn after_header(dashes: Lexeme, name: Lexeme, lexeme: Lexeme) -> DueMove
    ensures { result ≡ tables.due_move (Due.ModuleRead dashes name) lexeme }
{
    if is_extends(lexeme.kind) {
        return DueMove::Goes(Due::ExtendsName(dashes, name));
    }
    DueMove::Begun(dashes, name)
}

fn after_extended(dashes: Lexeme, name: Lexeme, lexeme: Lexeme) -> DueMove
    ensures { result ≡ tables.due_move (Due.ExtendsRead dashes name) lexeme }
{
    if is_comma(lexeme.kind) {
        return DueMove::Goes(Due::ExtendsName(dashes, name));
    }
    DueMove::Begun(dashes, name)
}

fn after_dashes(dashes: Lexeme, lexeme: Lexeme) -> DueMove
    ensures { result ≡ tables.due_move (Due.Dashes dashes) lexeme }
{
    if is_module(lexeme.kind) {
        return DueMove::Goes(Due::ModuleName(dashes));
    }
    DueMove::Lined(dashes)
}

fn after_variable(lexeme: Lexeme) -> DueMove
    ensures { result ≡ tables.due_move Due.VariableRead lexeme }
{
    if is_comma(lexeme.kind) {
        return DueMove::Goes(Due::VariableName);
    }
    DueMove::Listed
}

/// What the lexeme does where this is due.
pub fn due_move(due: Due, lexeme: Lexeme) -> DueMove
    ensures { result ≡ tables.due_move due lexeme }
{
    let kind = lexeme.kind;
    match due {
        Due::Opening => if_due(is_dashes(kind), DueMove::Goes(Due::OpeningWord(lexeme))),
        Due::OpeningWord(dashes) => if_due(is_module(kind), DueMove::Goes(Due::ModuleName(dashes))),
        Due::ModuleName(dashes) => {
            if_due(
                is_name(kind),
                DueMove::Goes(Due::ModuleDashes(dashes, lexeme)),
            )
        }
        Due::ModuleDashes(dashes, name) => {
            if_due(
                is_dashes(kind),
                DueMove::Goes(Due::ModuleRead(dashes, name)),
            )
        }
        Due::ModuleRead(dashes, name) => after_header(dashes, name, lexeme),
        Due::ExtendsName(dashes, name) => {
            if_due(
                is_name(kind),
                DueMove::Named(Due::ExtendsRead(dashes, name)),
            )
        }
        Due::ExtendsRead(dashes, name) => after_extended(dashes, name, lexeme),
        Due::Unit => DueMove::Begins(None),
        Due::Dashes(dashes) => after_dashes(dashes, lexeme),
        Due::Local(word) => if_due(may_be_local(kind), DueMove::Begins(Some(word))),
        Due::VariableName => if_due(is_name(kind), DueMove::Named(Due::VariableRead)),
        Due::VariableRead => after_variable(lexeme),
        Due::Closed => DueMove::Refused,
    }
}

fn unit_of_word(word: Word, lexeme: Lexeme) -> UnitStart
    ensures { result ≡ tables.unit_start (LexKind.Word word) lexeme }
{
    match word {
        Word::Variable | Word::Variables => UnitStart::Goes(Due::VariableName),
        Word::Constant | Word::Constants => UnitStart::Constants,
        Word::Local => UnitStart::Goes(Due::Local(lexeme)),
        Word::Instance => UnitStart::Instance,
        Word::Assume | Word::Assumption | Word::Axiom => UnitStart::Assumption,
        Word::Theorem => UnitStart::Theorem,
        _ => UnitStart::Refused,
    }
}

/// What the lexeme begins where a unit is due.
pub fn unit_start(lexeme: Lexeme) -> UnitStart
    ensures { result ≡ tables.unit_start lexeme.kind lexeme }
{
    match lexeme.kind {
        LexKind::Name => UnitStart::Definition(Wait::DefinitionName(lexeme)),
        LexKind::Sym(Op::Negative) => UnitStart::Definition(Wait::PrefixName(lexeme)),
        LexKind::Dashes => UnitStart::Goes(Due::Dashes(lexeme)),
        LexKind::Equals => UnitStart::Ends,
        LexKind::Close => UnitStart::Closes,
        LexKind::Word(word) => unit_of_word(word, lexeme),
        _ => UnitStart::Refused,
    }
}
