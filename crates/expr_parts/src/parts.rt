// What a lexeme that is no operator does to a frame with a finished part beside it.
ghost use Rattle.std.specs.Prelude.{◌≡◌, false, cond};
ghost use Rattle.expr_grammar.specs.Kinds as kinds;
ghost use Rattle.expr_grammar.specs.Tables as tables;

use expr_grammar::{Conversion, Handed, PartMove, Shape, Wait};
use expr_kinds::{
    finishes, is_always, is_arrow, is_bang, is_colon, is_comma, is_else, is_except, is_expression,
    is_in_word, is_left_paren, is_maps_to, is_name, is_negative, is_right_angle,
    is_right_angle_subscript, is_right_brace, is_right_bracket, is_right_bracket_subscript,
    is_right_paren, is_then,
};
use tla_symbols::{LexKind, Lexeme};
use tla_tree::Form;

fn keeps(wait: Wait) -> PartMove
    ensures { result ≡ tables.keeps wait }
{
    PartMove::Goes(wait, Conversion::Keep)
}

fn done(form: Form) -> PartMove
    ensures { result ≡ tables.done form }
{
    PartMove::Done(form, Conversion::Keep)
}

fn if_goes(test: bool, then: PartMove) -> PartMove
    ensures { result ≡ tables.if_goes test then }
{
    if test { then } else { PartMove::Refused }
}

// A part goes on after a comma, and the form closes with a mark.
fn parted(kind: LexKind, wait: Wait, closes: bool, form: Form) -> PartMove
    ensures { result ≡ tables.parted kind wait closes form }
{
    if is_comma(kind) {
        return keeps(wait);
    }
    if_goes(closes, done(form))
}

fn after_square(actions: bool, lexeme: Lexeme) -> PartMove
    ensures { result ≡ tables.after_square actions lexeme }
{
    let kind = lexeme.kind;
    if is_arrow(kind) {
        return keeps(Wait::FunctionTo);
    }
    if is_right_bracket_subscript(kind) {
        return if_goes(actions, keeps(Wait::SquareSubscript));
    }
    if_goes(is_except(kind), keeps(Wait::ExceptUpdates))
}

fn in_square_after_name(actions: bool, name: Lexeme, lexeme: Lexeme) -> PartMove
    ensures { result ≡ tables.in_square actions (Shape.Plain name) lexeme }
{
    let kind = lexeme.kind;
    if is_comma(kind) {
        return PartMove::Convert(actions);
    }
    if is_maps_to(kind) {
        return PartMove::Goes(Wait::RecordValue(name, lexeme), Conversion::Drop);
    }
    if is_colon(kind) {
        return PartMove::Goes(Wait::RecordSetValue(name, lexeme), Conversion::Drop);
    }
    after_square(actions, lexeme)
}

fn in_square_after_member(actions: bool, lexeme: Lexeme) -> PartMove
    ensures { result ≡ tables.in_square actions Shape.Member lexeme }
{
    let kind = lexeme.kind;
    if is_comma(kind) {
        return PartMove::Goes(Wait::FunctionBounds, Conversion::AsBound);
    }
    if is_maps_to(kind) {
        return PartMove::Goes(Wait::FunctionBody, Conversion::AsBound);
    }
    after_square(actions, lexeme)
}

fn in_square(actions: bool, shape: Shape, lexeme: Lexeme) -> PartMove
    ensures { result ≡ tables.in_square actions shape lexeme }
{
    match shape {
        Shape::Plain(name) => in_square_after_name(actions, name, lexeme),
        Shape::Member => in_square_after_member(actions, lexeme),
        _ => after_square(actions, lexeme),
    }
}

// What a mark does after the first part in braces, where that part may bind: `:` makes a filter
// of the bare form `x \in e`, and of another part the elements of an image.
fn after_brace(shape: Shape, kind: LexKind) -> PartMove
    ensures { result ≡ tables.after_brace shape kind }
{
    let goes_on = match shape {
        Shape::Member => PartMove::Goes(Wait::FilterBody, Conversion::AsBound),
        _ => keeps(Wait::ImageBounds),
    };
    if_goes(is_colon(kind), goes_on)
}

fn in_brace(shape: Shape, lexeme: Lexeme) -> PartMove
    ensures { result ≡ tables.after_expression Wait.BraceFirst shape lexeme }
{
    let kind = lexeme.kind;
    if is_right_brace(kind) {
        return done(Form::SetEnumeration);
    }
    if is_comma(kind) {
        return keeps(Wait::BraceNext);
    }
    after_brace(shape, kind)
}

fn in_angle(actions: bool, lexeme: Lexeme) -> PartMove
    ensures { result ≡ tables.after_expression (Wait.AngleFirst actions) Shape.Expression lexeme }
{
    let kind = lexeme.kind;
    if is_comma(kind) {
        return keeps(Wait::AngleNext);
    }
    if is_right_angle(kind) {
        return done(Form::Tuple);
    }
    if is_right_angle_subscript(kind) {
        return if_goes(actions, keeps(Wait::AngleSubscript));
    }
    PartMove::Refused
}

fn after_value(name: Lexeme, mark: Lexeme, next: Wait, form: Form, kind: LexKind) -> PartMove
    ensures { result ≡ cond (kinds.is_comma kind)
        (PartMove.Goes next (Conversion.AsField name mark))
        (tables.if_goes (kinds.is_right_bracket kind)
        (PartMove.Done form (Conversion.AsField name mark))) }
{
    if is_comma(kind) {
        return PartMove::Goes(next, Conversion::AsField(name, mark));
    }
    if_goes(
        is_right_bracket(kind),
        PartMove::Done(form, Conversion::AsField(name, mark)),
    )
}

// After an expression.
fn after_expression(wait: Wait, shape: Shape, lexeme: Lexeme) -> PartMove
    ensures { result ≡ tables.after_expression wait shape lexeme }
{
    let kind = lexeme.kind;
    match wait {
        Wait::ParenthesesBody => if_goes(is_right_paren(kind), done(Form::Parentheses)),
        Wait::Argument(name) => parted(
            kind,
            Wait::Argument(name),
            is_right_paren(kind),
            Form::Segment(name),
        ),
        Wait::BraceFirst => in_brace(shape, lexeme),
        Wait::BraceNext => parted(
            kind,
            Wait::BraceNext,
            is_right_brace(kind),
            Form::SetEnumeration,
        ),
        Wait::FilterBody => if_goes(is_right_brace(kind), done(Form::SetFilter)),
        Wait::ApplicationArgument => parted(
            kind,
            Wait::ApplicationArgument,
            is_right_bracket(kind),
            Form::Application,
        ),
        Wait::SquareFirst(actions) => in_square(actions, shape, lexeme),
        Wait::FunctionTo => if_goes(is_right_bracket(kind), done(Form::FunctionSet)),
        Wait::FunctionBody => if_goes(is_right_bracket(kind), done(Form::FunctionConstructor)),
        Wait::RecordValue(name, mark) => after_value(
            name,
            mark,
            Wait::RecordNext,
            Form::Record,
            kind,
        ),
        Wait::RecordSetValue(name, mark) => after_value(
            name,
            mark,
            Wait::RecordSetNext,
            Form::RecordSet,
            kind,
        ),
        Wait::IndexPart => parted(
            kind,
            Wait::IndexPart,
            is_right_bracket(kind),
            Form::IndexStep,
        ),
        Wait::AngleFirst(actions) => in_angle(actions, lexeme),
        Wait::AngleNext => parted(kind, Wait::AngleNext, is_right_angle(kind), Form::Tuple),
        Wait::FairSubscript(word) => if_goes(is_left_paren(kind), keeps(Wait::FairAction(word))),
        Wait::FairAction(word) => if_goes(is_right_paren(kind), done(Form::Fairness(word))),
        Wait::IfTest => if_goes(is_then(kind), keeps(Wait::IfThen)),
        Wait::IfThen => if_goes(is_else(kind), keeps(Wait::IfElse)),
        Wait::ArmGuard => if_goes(is_arrow(kind), keeps(Wait::ArmBody)),
        _ => PartMove::Refused,
    }
}

// A bound or a parameter goes on after a comma, and what follows them begins with a mark.
fn after_bound(next: Wait, closes: bool, then: PartMove, kind: LexKind) -> PartMove
    ensures { result ≡ tables.after_bound next closes then kind }
{
    if is_comma(kind) {
        return keeps(next);
    }
    if_goes(closes, then)
}

fn after_definition(lexeme: Lexeme) -> PartMove
    ensures { result
        ≡ tables.after_part (Wait.Handing Handed.Definition lexeme) Shape.Helper lexeme }
{
    let kind = lexeme.kind;
    if is_name(kind) || is_negative(kind) {
        return PartMove::Hand(Handed::Definition);
    }
    if_goes(is_in_word(kind), keeps(Wait::LetBody))
}

// After names.
fn after_names(wait: Wait, lexeme: Lexeme) -> PartMove
    ensures { result ≡ tables.after_part wait Shape.Names lexeme }
{
    let colon = is_colon(lexeme.kind);
    match wait {
        Wait::QuantifierFirst(quantifier) => if_goes(
            colon,
            keeps(Wait::QuantifierBody(quantifier)),
        ),
        Wait::TemporalFirst(quantifier) => if_goes(colon, keeps(Wait::TemporalBody(quantifier))),
        Wait::ChooseFirst => if_goes(colon, keeps(Wait::ChooseBody)),
        _ => PartMove::Refused,
    }
}

// After a bound.
fn after_bounds(wait: Wait, lexeme: Lexeme) -> PartMove
    ensures { result ≡ tables.after_part wait Shape.Bound lexeme }
{
    let kind = lexeme.kind;
    match wait {
        Wait::QuantifierFirst(quantifier) | Wait::QuantifierNext(quantifier) => {
            after_bound(
                Wait::QuantifierNext(quantifier),
                is_colon(kind),
                keeps(Wait::BoundedBody(quantifier)),
                kind,
            )
        }
        Wait::ChooseFirst => if_goes(is_colon(kind), keeps(Wait::BoundedChooseBody)),
        Wait::WholeBounds => if_goes(is_comma(kind), keeps(Wait::WholeBounds)),
        Wait::ImageBounds => {
            after_bound(
                Wait::ImageBounds,
                is_right_brace(kind),
                done(Form::SetImage),
                kind,
            )
        }
        Wait::FunctionNames(_) | Wait::FunctionBounds => {
            after_bound(
                Wait::FunctionBounds,
                is_maps_to(kind),
                keeps(Wait::FunctionBody),
                kind,
            )
        }
        Wait::FunctionHeadBounds(name) => {
            after_bound(
                Wait::FunctionHeadBounds(name),
                is_right_bracket(kind),
                keeps(Wait::FunctionHeadDefine(name)),
                kind,
            )
        }
        _ => PartMove::Refused,
    }
}

// After a helper form that is no names and no bound.
fn after_helper(wait: Wait, lexeme: Lexeme) -> PartMove
    ensures { result ≡ tables.after_part wait Shape.Helper lexeme }
{
    let kind = lexeme.kind;
    match wait {
        Wait::Handing(handed, _) => match handed {
            Handed::Segment => if_goes(is_bang(kind), keeps(Wait::IdentifierBang)),
            Handed::Definition => after_definition(lexeme),
        },
        Wait::ExceptUpdates => parted(
            kind,
            Wait::ExceptUpdates,
            is_right_bracket(kind),
            Form::Except,
        ),
        Wait::DefinitionParameters(name) => {
            after_bound(
                Wait::DefinitionParameters(name),
                is_right_paren(kind),
                keeps(Wait::DefinitionDefine(name)),
                kind,
            )
        }
        Wait::Replacements(module) => if_goes(is_comma(kind), keeps(Wait::Replacements(module))),
        _ => PartMove::Refused,
    }
}

// After a bare symbol.
fn after_symbol(wait: Wait, lexeme: Lexeme) -> PartMove
    ensures { result ≡ tables.after_part wait Shape.Symbol lexeme }
{
    let kind = lexeme.kind;
    match wait {
        Wait::Argument(name) => parted(
            kind,
            Wait::Argument(name),
            is_right_paren(kind),
            Form::Segment(name),
        ),
        _ => PartMove::Refused,
    }
}

// After an arm of a CASE, which may be followed by another; one with OTHER may not.
fn after_arm(wait: Wait, lexeme: Lexeme) -> PartMove
    ensures { result ≡ tables.after_part wait Shape.Arm lexeme }
{
    match wait {
        Wait::CaseArms => if_goes(is_always(lexeme.kind), keeps(Wait::CaseArms)),
        _ => PartMove::Refused,
    }
}

// After a part that is no expression.
fn after_part(wait: Wait, shape: Shape, lexeme: Lexeme) -> PartMove
    requires { tables.is_expression shape ≡ false }
    ensures { result ≡ tables.after_part wait shape lexeme }
{
    match shape {
        Shape::Names => after_names(wait, lexeme),
        Shape::Bound => after_bounds(wait, lexeme),
        Shape::Helper => after_helper(wait, lexeme),
        Shape::Symbol => after_symbol(wait, lexeme),
        Shape::Arm => after_arm(wait, lexeme),
        _ => PartMove::Refused,
    }
}

// What the lexeme does to a frame that goes on with it.
fn after(wait: Wait, shape: Shape, lexeme: Lexeme) -> PartMove
    ensures { result ≡ cond (tables.is_expression shape)
        (tables.after_expression wait shape lexeme)
        (tables.after_part wait shape lexeme) }
{
    if is_expression(shape) {
        return after_expression(wait, shape, lexeme);
    }
    after_part(wait, shape, lexeme)
}

// A frame goes on where it can, else it ends where it may.
fn or_finish(going: PartMove, form: Option<Form>) -> PartMove
    ensures { result ≡ tables.or_finish going form }
{
    match going {
        PartMove::Refused => match form {
            Some(form) => PartMove::Finish(form),
            None => PartMove::Refused,
        },
        _ => going,
    }
}

/// What the lexeme does to a frame with this wait and a finished part of this shape beside it,
/// where the lexeme is no operator.
pub fn at_part(wait: Wait, shape: Shape, lexeme: Lexeme) -> PartMove
    ensures { result ≡ tables.at_part wait shape lexeme }
{
    or_finish(after(wait, shape, lexeme), finishes(wait, shape))
}
