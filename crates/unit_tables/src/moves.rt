// What lexemes do to the frames of a unit.
ghost use Rattle.std.specs.Prelude.{◌≡◌, ◌-◌, ◌<◌, ◌^◌};
ghost use Rattle.expr_grammar.specs.Kinds as kinds;
ghost use Rattle.unit_machine.specs.Tables as tables;

use expr_kinds::{
    is_comma, is_define, is_instance, is_left_arrow, is_left_bracket, is_left_paren, is_name,
    is_negative, is_right_bracket, is_right_paren, is_underscore, is_with,
};
use expr_moves::{defines, is_given, is_replaceable};
use tla_symbols::{Fix, LexKind, Lexeme};
use tla_tree::Form;
use unit_machine::{Move, Wait};

fn if_move(test: bool, frame_move: Move) -> Move
    ensures { result ≡ tables.if_move test frame_move }
{
    if test { frame_move } else { Move::Refused }
}

fn at_declaration(lexeme: Lexeme) -> Move
    ensures { result ≡ tables.move Wait.Declaration lexeme }
{
    if is_name(lexeme.kind) {
        return Move::Shift(Wait::DeclarationName(lexeme));
    }
    if is_negative(lexeme.kind) {
        return Move::Shift(Wait::PrefixPlace(lexeme));
    }
    if_move(is_underscore(lexeme.kind), Move::Shift(Wait::SymbolPlace))
}

fn at_declared_name(name: Lexeme, lexeme: Lexeme) -> Move
    ensures { result ≡ tables.move (Wait.DeclarationName name) lexeme }
{
    if is_left_paren(lexeme.kind) {
        return Move::Shift(Wait::Places(name, 0));
    }
    Move::Ends(Form::Name(name))
}

fn at_places_read(name: Lexeme, places: u32, lexeme: Lexeme) -> Move
    ensures { result ≡ tables.move (Wait.PlacesRead name places) lexeme }
{
    if is_comma(lexeme.kind) {
        return Move::Shift(Wait::Places(name, places));
    }
    if_move(
        is_right_paren(lexeme.kind),
        Move::Close(Form::OperatorParameter(name, places)),
    )
}

fn at_symbol_place(lexeme: Lexeme) -> Move
    ensures { result ≡ tables.move Wait.SymbolPlace lexeme }
{
    if defines(Fix::Infix, lexeme.kind) {
        return Move::Shift(Wait::InfixPlace(lexeme));
    }
    if_move(
        defines(Fix::Postfix, lexeme.kind),
        Move::Close(Form::PostfixParameter(lexeme)),
    )
}

fn at_definition_name(name: Lexeme, lexeme: Lexeme) -> Move
    ensures { result ≡ tables.move (Wait.DefinitionName name) lexeme }
{
    let kind = lexeme.kind;
    if is_define(kind) {
        return Move::Shift(Wait::Body(name));
    }
    if is_left_paren(kind) {
        return Move::Opens(Wait::Parameters(name), Wait::Declaration);
    }
    if is_left_bracket(kind) {
        return Move::Bounds(Wait::Bounds(name));
    }
    if defines(Fix::Infix, kind) {
        return Move::LeafOf(Form::Name(name), name, Wait::InfixName(lexeme));
    }
    if_move(
        defines(Fix::Postfix, kind),
        Move::LeafOf(Form::Name(name), name, Wait::PostfixDefine(lexeme)),
    )
}

fn at_parameters_read(name: Lexeme, lexeme: Lexeme) -> Move
    ensures { result ≡ tables.move (Wait.ParametersRead name) lexeme }
{
    if is_comma(lexeme.kind) {
        return Move::Opens(Wait::Parameters(name), Wait::Declaration);
    }
    if_move(is_right_paren(lexeme.kind), Move::Shift(Wait::Define(name)))
}

fn at_body(name: Lexeme, lexeme: Lexeme) -> Move
    ensures { result ≡ tables.move (Wait.Body name) lexeme }
{
    if is_instance(lexeme.kind) {
        return Move::Push(Wait::InstanceName);
    }
    Move::Expression
}

fn at_instance_read(name: Lexeme, lexeme: Lexeme) -> Move
    ensures { result ≡ tables.move (Wait.InstanceRead name) lexeme }
{
    if is_with(lexeme.kind) {
        return Move::Opens(Wait::Replacements(name), Wait::ReplacementStart);
    }
    Move::Ends(Form::Instance(name))
}

fn at_replacements_read(name: Lexeme, lexeme: Lexeme) -> Move
    ensures { result ≡ tables.move (Wait.ReplacementsRead name) lexeme }
{
    if is_comma(lexeme.kind) {
        return Move::Opens(Wait::Replacements(name), Wait::ReplacementStart);
    }
    Move::Ends(Form::Instance(name))
}

fn at_replacement_right(left: Lexeme, lexeme: Lexeme) -> Move
    ensures { result ≡ tables.move (Wait.ReplacementRight left) lexeme }
{
    if is_given(lexeme.kind) {
        return Move::Leaf(
            Form::Symbol(lexeme),
            Wait::Complete(Form::Replacement(left)),
        );
    }
    Move::Expression
}

// `==` before the right side of a definition of this form.
fn right_side(kind: LexKind, form: Form) -> Move
    ensures { result ≡ tables.if_move (kinds.is_define kind) (Move.Shift (Wait.Right form)) }
{
    if_move(is_define(kind), Move::Shift(Wait::Right(form)))
}

/// What the lexeme does to a frame with this wait. Of an operator's declaration fewer than 2^32 - 1
/// places were read.
pub fn frame_move(wait: Wait, lexeme: Lexeme) -> Move
    requires { tables.places_of wait < 2 ^ 32 - 1 }
    ensures { result ≡ tables.move wait lexeme }
{
    let kind = lexeme.kind;
    match wait {
        Wait::Declaration => at_declaration(lexeme),
        Wait::DeclarationName(name) => at_declared_name(name, lexeme),
        Wait::Places(name, places) => if_move(
            is_underscore(kind),
            Move::Shift(Wait::PlacesRead(name, places + 1)),
        ),
        Wait::PlacesRead(name, places) => at_places_read(name, places, lexeme),
        Wait::PrefixPlace(symbol) => if_move(
            is_underscore(kind),
            Move::Close(Form::PrefixParameter(symbol)),
        ),
        Wait::SymbolPlace => at_symbol_place(lexeme),
        Wait::InfixPlace(symbol) => if_move(
            is_underscore(kind),
            Move::Close(Form::InfixParameter(symbol)),
        ),
        Wait::DefinitionName(name) => at_definition_name(name, lexeme),
        Wait::ParametersRead(name) => at_parameters_read(name, lexeme),
        Wait::Define(name) => if_move(is_define(kind), Move::Shift(Wait::Body(name))),
        Wait::Body(name) => at_body(name, lexeme),
        Wait::PrefixName(symbol) => if_move(
            is_name(kind),
            Move::Leaf(Form::Name(lexeme), Wait::PrefixDefine(symbol)),
        ),
        Wait::PrefixDefine(symbol) => right_side(kind, Form::PrefixDefinition(symbol)),
        Wait::InfixName(symbol) => if_move(
            is_name(kind),
            Move::Leaf(Form::Name(lexeme), Wait::InfixDefine(symbol)),
        ),
        Wait::InfixDefine(symbol) => right_side(kind, Form::InfixDefinition(symbol)),
        Wait::PostfixDefine(symbol) => right_side(kind, Form::PostfixDefinition(symbol)),
        Wait::BoundsRead(name) => if_move(
            is_right_bracket(kind),
            Move::Shift(Wait::BoundsDefine(name)),
        ),
        Wait::BoundsDefine(name) => right_side(kind, Form::FunctionDefinition(name)),
        Wait::Right(_) => Move::Expression,
        Wait::InstanceName => if_move(is_name(kind), Move::Shift(Wait::InstanceRead(lexeme))),
        Wait::InstanceRead(name) => at_instance_read(name, lexeme),
        Wait::ReplacementsRead(name) => at_replacements_read(name, lexeme),
        Wait::ReplacementStart => if_move(
            is_replaceable(kind),
            Move::Shift(Wait::ReplacementArrow(lexeme)),
        ),
        Wait::ReplacementArrow(left) => if_move(
            is_left_arrow(kind),
            Move::Shift(Wait::ReplacementRight(left)),
        ),
        Wait::ReplacementRight(left) => at_replacement_right(left, lexeme),
        Wait::Complete(form) => Move::Ends(form),
        _ => Move::Refused,
    }
}
