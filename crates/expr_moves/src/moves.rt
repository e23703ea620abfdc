// What a lexeme does to a frame that has no finished part beside it.
ghost use Rattle.std.specs.Prelude.{◌≡◌, ◌-◌, ◌<◌, ◌^◌};
ghost use Rattle.expr_grammar.specs.Tables as tables;

use expr_grammar::{Binding, Handed, MarkMove, Wait};
use expr_kinds::{
    is_arrow, is_bang, is_colon, is_comma, is_define, is_dot, is_equal, is_instance, is_left_angle,
    is_left_arrow, is_left_bracket, is_left_paren, is_maps_to, is_member, is_name, is_negative,
    is_other, is_right_angle, is_right_brace, is_right_paren, is_underscore, is_with,
};
use tla_symbols::{Fix, LexKind, Lexeme, Op, definable, range_of};
use tla_tree::Form;

/// Whether the lexeme is a symbol that can be defined at the place.
pub fn defines(fix: Fix, kind: LexKind) -> bool
    ensures { result ≡ tables.defines fix kind }
{
    match kind {
        LexKind::Sym(op) => definable(op, fix),
        _ => false,
    }
}

// Whether the lexeme is a symbol that may be passed bare, as an argument.
fn passes(kind: LexKind) -> bool
    ensures { result ≡ tables.passes kind }
{
    match kind {
        LexKind::Sym(op) => !matches!(&op, Op::Product),
        _ => false,
    }
}

/// Whether the lexeme is a symbol that may stand bare on the right of `<-`.
pub fn is_given(kind: LexKind) -> bool
    ensures { result ≡ tables.is_given_kind kind }
{
    match kind {
        LexKind::Sym(op) => match op {
            Op::Product | Op::Minus | Op::And | Op::Or => false,
            Op::Negative => true,
            _ => range_of(op, Fix::Infix).is_some() || range_of(op, Fix::Postfix).is_some(),
        },
        _ => false,
    }
}

/// Whether the lexeme is a name, or a symbol that can be defined.
pub fn is_replaceable(kind: LexKind) -> bool
    ensures { result ≡ tables.is_replaceable kind }
{
    is_name(kind)
        || defines(Fix::Prefix, kind)
        || defines(Fix::Infix, kind)
        || defines(Fix::Postfix, kind)
}

fn takes_more(binding: Binding) -> bool
    ensures { result ≡ tables.takes_more binding }
{
    !matches!(&binding, Binding::One)
}

fn takes_set(binding: Binding) -> bool
    ensures { result ≡ tables.takes_set binding }
{
    !matches!(&binding, Binding::Names)
}

fn if_move(test: bool, then: MarkMove) -> MarkMove
    ensures { result ≡ tables.if_move test then }
{
    if test { then } else { MarkMove::Refused }
}

fn at_argument_symbol(name: Lexeme, lexeme: Lexeme) -> MarkMove
    ensures { result ≡ tables.at_mark (Wait.ArgumentSymbol name) lexeme }
{
    if is_comma(lexeme.kind) {
        return MarkMove::Shift(Wait::Argument(name));
    }
    if_move(
        is_right_paren(lexeme.kind),
        MarkMove::Close(Form::Segment(name)),
    )
}

fn at_binding_start(binding: Binding, lexeme: Lexeme) -> MarkMove
    ensures { result ≡ tables.at_mark (Wait.BindingStart binding) lexeme }
{
    if is_name(lexeme.kind) {
        return MarkMove::Leaf(Form::Name(lexeme), Wait::BindingRead(binding));
    }
    if is_left_angle(lexeme.kind) {
        return if_move(
            takes_set(binding),
            MarkMove::Shift(Wait::TupleComma(binding)),
        );
    }
    MarkMove::Refused
}

fn at_binding_read(binding: Binding, lexeme: Lexeme) -> MarkMove
    ensures { result ≡ tables.at_mark (Wait.BindingRead binding) lexeme }
{
    if is_comma(lexeme.kind) {
        return if_move(
            takes_more(binding),
            MarkMove::Shift(Wait::BindingComma(binding)),
        );
    }
    if is_member(lexeme.kind) {
        return if_move(takes_set(binding), MarkMove::Shift(Wait::BoundSet));
    }
    MarkMove::Refused
}

fn at_tuple_read(binding: Binding, lexeme: Lexeme) -> MarkMove
    ensures { result ≡ tables.at_mark (Wait.TupleRead binding) lexeme }
{
    if is_comma(lexeme.kind) {
        return MarkMove::Shift(Wait::TupleComma(binding));
    }
    if_move(
        is_right_angle(lexeme.kind),
        MarkMove::Shift(Wait::TupleClosed(binding)),
    )
}

fn at_step_first(lexeme: Lexeme) -> MarkMove
    ensures { result ≡ tables.at_mark Wait.StepFirst lexeme }
{
    if is_dot(lexeme.kind) {
        return MarkMove::Shift(Wait::StepField);
    }
    if_move(
        is_left_bracket(lexeme.kind),
        MarkMove::Push(Wait::IndexPart),
    )
}

fn at_step_next(lexeme: Lexeme) -> MarkMove
    ensures { result ≡ tables.at_mark Wait.StepNext lexeme }
{
    if is_dot(lexeme.kind) {
        return MarkMove::Shift(Wait::StepField);
    }
    if is_left_bracket(lexeme.kind) {
        return MarkMove::Push(Wait::IndexPart);
    }
    if_move(is_equal(lexeme.kind), MarkMove::Shift(Wait::UpdateValue))
}

fn at_let(lexeme: Lexeme) -> MarkMove
    ensures { result ≡ tables.at_mark Wait.LetFirst lexeme }
{
    if is_name(lexeme.kind) {
        return MarkMove::Hand(Handed::Definition);
    }
    if_move(is_negative(lexeme.kind), MarkMove::Hand(Handed::Definition))
}

fn at_definition_name(name: Lexeme, lexeme: Lexeme) -> MarkMove
    ensures { result ≡ tables.at_mark (Wait.DefinitionName name) lexeme }
{
    let kind = lexeme.kind;
    if is_define(kind) {
        return MarkMove::Shift(Wait::DefinitionBody(name));
    }
    if is_left_paren(kind) {
        return MarkMove::Shift(Wait::DefinitionParameters(name));
    }
    if is_left_bracket(kind) {
        return MarkMove::Shift(Wait::FunctionHeadBounds(name));
    }
    if defines(Fix::Infix, kind) {
        return MarkMove::LeafOf(Form::Name(name), name, Wait::InfixName(lexeme));
    }
    if defines(Fix::Postfix, kind) {
        return MarkMove::LeafOf(Form::Name(name), name, Wait::PostfixDefine(lexeme));
    }
    MarkMove::Refused
}

fn at_parameter_start(lexeme: Lexeme) -> MarkMove
    ensures { result ≡ tables.at_mark Wait.ParameterStart lexeme }
{
    if is_name(lexeme.kind) {
        return MarkMove::Shift(Wait::ParameterName(lexeme));
    }
    if is_negative(lexeme.kind) {
        return MarkMove::Shift(Wait::PrefixPlace(lexeme));
    }
    if_move(
        is_underscore(lexeme.kind),
        MarkMove::Shift(Wait::SymbolPlace),
    )
}

fn at_places_read(name: Lexeme, places: u32, lexeme: Lexeme) -> MarkMove
    ensures { result ≡ tables.at_mark (Wait.PlacesRead name places) lexeme }
{
    if is_comma(lexeme.kind) {
        return MarkMove::Shift(Wait::Places(name, places));
    }
    if_move(
        is_right_paren(lexeme.kind),
        MarkMove::Close(Form::OperatorParameter(name, places)),
    )
}

fn at_symbol_place(lexeme: Lexeme) -> MarkMove
    ensures { result ≡ tables.at_mark Wait.SymbolPlace lexeme }
{
    if defines(Fix::Infix, lexeme.kind) {
        return MarkMove::Shift(Wait::InfixPlace(lexeme));
    }
    if_move(
        defines(Fix::Postfix, lexeme.kind),
        MarkMove::Close(Form::PostfixParameter(lexeme)),
    )
}

/// What the lexeme does to a frame with this wait and no finished part beside it. Of an operator's
/// parameter fewer than 2^32 - 1 places were read.
pub fn at_mark(wait: Wait, lexeme: Lexeme) -> MarkMove
    requires { tables.places_of wait < 2 ^ 32 - 1 }
    ensures { result ≡ tables.at_mark wait lexeme }
{
    let kind = lexeme.kind;
    match wait {
        Wait::BraceFirst => if_move(is_right_brace(kind), MarkMove::Close(Form::SetEnumeration)),
        Wait::AngleFirst(_) => if_move(is_right_angle(kind), MarkMove::Close(Form::Tuple)),
        Wait::Argument(name) => if_move(
            passes(kind),
            MarkMove::Leaf(Form::Symbol(lexeme), Wait::ArgumentSymbol(name)),
        ),
        Wait::ArgumentSymbol(name) => at_argument_symbol(name, lexeme),
        Wait::SegmentName(name) => if_move(
            is_left_paren(kind),
            MarkMove::Shift(Wait::Argument(name)),
        ),
        Wait::IdentifierBang => if_move(is_name(kind), MarkMove::Hand(Handed::Segment)),
        Wait::SubscriptRead => if_move(is_bang(kind), MarkMove::Shift(Wait::SubscriptBang)),
        Wait::SubscriptBang => if_move(
            is_name(kind),
            MarkMove::Leaf(Form::Segment(lexeme), Wait::SubscriptRead),
        ),
        Wait::BindingStart(binding) => at_binding_start(binding, lexeme),
        Wait::BindingComma(binding) => if_move(
            is_name(kind),
            MarkMove::Leaf(Form::Name(lexeme), Wait::BindingRead(binding)),
        ),
        Wait::BindingRead(binding) => at_binding_read(binding, lexeme),
        Wait::TupleComma(binding) => if_move(
            is_name(kind),
            MarkMove::Leaf(Form::Name(lexeme), Wait::TupleRead(binding)),
        ),
        Wait::TupleRead(binding) => at_tuple_read(binding, lexeme),
        Wait::TupleClosed(_) => if_move(is_member(kind), MarkMove::Shift(Wait::TupleBoundSet)),
        Wait::FieldName => if_move(is_name(kind), MarkMove::Close(Form::FieldAccess(lexeme))),
        Wait::RecordNext => if_move(is_name(kind), MarkMove::Shift(Wait::RecordNamed(lexeme))),
        Wait::RecordNamed(name) => if_move(
            is_maps_to(kind),
            MarkMove::Shift(Wait::RecordValue(name, lexeme)),
        ),
        Wait::RecordSetNext => if_move(
            is_name(kind),
            MarkMove::Shift(Wait::RecordSetNamed(lexeme)),
        ),
        Wait::RecordSetNamed(name) => if_move(
            is_colon(kind),
            MarkMove::Shift(Wait::RecordSetValue(name, lexeme)),
        ),
        Wait::UpdateBang => if_move(is_bang(kind), MarkMove::Shift(Wait::StepFirst)),
        Wait::StepFirst => at_step_first(lexeme),
        Wait::StepNext => at_step_next(lexeme),
        Wait::StepField => if_move(
            is_name(kind),
            MarkMove::Leaf(Form::FieldStep(lexeme), Wait::StepNext),
        ),
        Wait::ArmGuard => if_move(is_other(kind), MarkMove::Shift(Wait::OtherArrow)),
        Wait::OtherArrow => if_move(is_arrow(kind), MarkMove::Shift(Wait::OtherBody)),
        Wait::LetFirst => at_let(lexeme),
        Wait::DefinitionName(name) => at_definition_name(name, lexeme),
        Wait::DefinitionDefine(name) => if_move(
            is_define(kind),
            MarkMove::Shift(Wait::DefinitionBody(name)),
        ),
        Wait::DefinitionBody(_) => if_move(is_instance(kind), MarkMove::Push(Wait::InstanceModule)),
        Wait::PrefixName(symbol) => if_move(
            is_name(kind),
            MarkMove::Leaf(Form::Name(lexeme), Wait::PrefixDefine(symbol)),
        ),
        Wait::PrefixDefine(symbol) => if_move(
            is_define(kind),
            MarkMove::Shift(Wait::PrefixBody(symbol)),
        ),
        Wait::InfixName(symbol) => if_move(
            is_name(kind),
            MarkMove::Leaf(Form::Name(lexeme), Wait::InfixDefine(symbol)),
        ),
        Wait::InfixDefine(symbol) => if_move(
            is_define(kind),
            MarkMove::Shift(Wait::InfixBody(symbol)),
        ),
        Wait::PostfixDefine(symbol) => if_move(
            is_define(kind),
            MarkMove::Shift(Wait::PostfixBody(symbol)),
        ),
        Wait::FunctionHeadDefine(name) => if_move(
            is_define(kind),
            MarkMove::Shift(Wait::FunctionHeadBody(name)),
        ),
        Wait::InstanceModule => if_move(
            is_name(kind),
            MarkMove::Shift(Wait::InstanceNamed(lexeme)),
        ),
        Wait::InstanceNamed(module) => if_move(
            is_with(kind),
            MarkMove::Shift(Wait::Replacements(module)),
        ),
        Wait::ReplacementStart => if_move(
            is_replaceable(kind),
            MarkMove::Shift(Wait::ReplacementArrow(lexeme)),
        ),
        Wait::ReplacementArrow(left) => if_move(
            is_left_arrow(kind),
            MarkMove::Shift(Wait::ReplacementRight(left)),
        ),
        Wait::ReplacementRight(left) => if_move(
            is_given(kind),
            MarkMove::Leaf(Form::Symbol(lexeme), Wait::ReplacementEnd(left)),
        ),
        Wait::ParameterStart => at_parameter_start(lexeme),
        Wait::ParameterName(name) => if_move(
            is_left_paren(kind),
            MarkMove::Shift(Wait::Places(name, 0)),
        ),
        Wait::Places(name, places) => if_move(
            is_underscore(kind),
            MarkMove::Shift(Wait::PlacesRead(name, places + 1)),
        ),
        Wait::PlacesRead(name, places) => at_places_read(name, places, lexeme),
        Wait::PrefixPlace(symbol) => if_move(
            is_underscore(kind),
            MarkMove::Close(Form::PrefixParameter(symbol)),
        ),
        Wait::SymbolPlace => at_symbol_place(lexeme),
        Wait::InfixPlace(symbol) => if_move(
            is_underscore(kind),
            MarkMove::Close(Form::InfixParameter(symbol)),
        ),
        _ => MarkMove::Refused,
    }
}
