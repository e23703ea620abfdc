// What frames are by their waits: what comes next in them, and with which form they end.
ghost use Rattle.std.specs.Prelude.{◌≡◌, option_map};
ghost use Rattle.expr_grammar.specs.Tables as tables;

use crate::kinds::is_name;
use expr_grammar::{Binding, Handed, Mode, Shape, Wait};
use tla_symbols::Lexeme;
use tla_tree::Form;

/// What comes next in a frame.
pub fn mode(wait: Wait) -> Mode
    ensures { result ≡ tables.mode wait }
{
    match wait {
        Wait::Whole => Mode::Operand,
        Wait::PrefixOperand(_) => Mode::Operand,
        Wait::InfixOperand(_) => Mode::Operand,
        Wait::Factor => Mode::Operand,
        Wait::ParenthesesBody => Mode::Operand,
        Wait::ListFirst(_) => Mode::Operand,
        Wait::ListItem(_) => Mode::Operand,
        Wait::Argument(_) => Mode::Operand,
        Wait::BoundSet => Mode::Operand,
        Wait::TupleBoundSet => Mode::Operand,
        Wait::QuantifierBody(_) => Mode::Operand,
        Wait::BoundedBody(_) => Mode::Operand,
        Wait::TemporalBody(_) => Mode::Operand,
        Wait::ChooseBody => Mode::Operand,
        Wait::BoundedChooseBody => Mode::Operand,
        Wait::BraceFirst => Mode::Operand,
        Wait::BraceNext => Mode::Operand,
        Wait::FilterBody => Mode::Operand,
        Wait::ApplicationArgument => Mode::Operand,
        Wait::SquareFirst(_) => Mode::Operand,
        Wait::FunctionTo => Mode::Operand,
        Wait::FunctionBody => Mode::Operand,
        Wait::RecordValue(_, _) => Mode::Operand,
        Wait::RecordSetValue(_, _) => Mode::Operand,
        Wait::UpdateValue => Mode::Operand,
        Wait::IndexPart => Mode::Operand,
        Wait::AngleFirst(_) => Mode::Operand,
        Wait::AngleNext => Mode::Operand,
        Wait::FairAction(_) => Mode::Operand,
        Wait::IfTest => Mode::Operand,
        Wait::IfThen => Mode::Operand,
        Wait::IfElse => Mode::Operand,
        Wait::ArmGuard => Mode::Operand,
        Wait::ArmBody => Mode::Operand,
        Wait::OtherBody => Mode::Operand,
        Wait::LetBody => Mode::Operand,
        Wait::DefinitionBody(_) => Mode::Operand,
        Wait::PrefixBody(_) => Mode::Operand,
        Wait::InfixBody(_) => Mode::Operand,
        Wait::PostfixBody(_) => Mode::Operand,
        Wait::FunctionHeadBody(_) => Mode::Operand,
        Wait::ReplacementRight(_) => Mode::Operand,
        Wait::WholeBounds => Mode::Child,
        Wait::Handing(_, _) => Mode::Child,
        Wait::QuantifierFirst(_) => Mode::Child,
        Wait::QuantifierNext(_) => Mode::Child,
        Wait::TemporalFirst(_) => Mode::Child,
        Wait::ChooseFirst => Mode::Child,
        Wait::ImageBounds => Mode::Child,
        Wait::FunctionBounds => Mode::Child,
        Wait::ExceptUpdates => Mode::Child,
        Wait::CaseArms => Mode::Child,
        Wait::DefinitionParameters(_) => Mode::Child,
        Wait::FunctionHeadBounds(_) => Mode::Child,
        Wait::Replacements(_) => Mode::Child,
        Wait::SquareSubscript => Mode::Subscript,
        Wait::AngleSubscript => Mode::Subscript,
        Wait::FairSubscript(_) => Mode::Subscript,
        Wait::IdentifierBang => Mode::Marks,
        Wait::SegmentName(_) => Mode::Marks,
        Wait::ArgumentSymbol(_) => Mode::Marks,
        Wait::SubscriptRead => Mode::Marks,
        Wait::SubscriptBang => Mode::Marks,
        Wait::BindingStart(_) => Mode::Marks,
        Wait::BindingComma(_) => Mode::Marks,
        Wait::BindingRead(_) => Mode::Marks,
        Wait::TupleComma(_) => Mode::Marks,
        Wait::TupleRead(_) => Mode::Marks,
        Wait::TupleClosed(_) => Mode::Marks,
        Wait::FieldName => Mode::Marks,
        Wait::FunctionNames(_) => Mode::Marks,
        Wait::RecordNext => Mode::Marks,
        Wait::RecordNamed(_) => Mode::Marks,
        Wait::RecordSetNext => Mode::Marks,
        Wait::RecordSetNamed(_) => Mode::Marks,
        Wait::UpdateBang => Mode::Marks,
        Wait::StepFirst => Mode::Marks,
        Wait::StepNext => Mode::Marks,
        Wait::StepField => Mode::Marks,
        Wait::OtherArrow => Mode::Marks,
        Wait::LetFirst => Mode::Marks,
        Wait::DefinitionName(_) => Mode::Marks,
        Wait::DefinitionDefine(_) => Mode::Marks,
        Wait::PrefixName(_) => Mode::Marks,
        Wait::PrefixDefine(_) => Mode::Marks,
        Wait::InfixName(_) => Mode::Marks,
        Wait::InfixDefine(_) => Mode::Marks,
        Wait::PostfixDefine(_) => Mode::Marks,
        Wait::FunctionHeadDefine(_) => Mode::Marks,
        Wait::InstanceModule => Mode::Marks,
        Wait::InstanceNamed(_) => Mode::Marks,
        Wait::ReplacementStart => Mode::Marks,
        Wait::ReplacementArrow(_) => Mode::Marks,
        Wait::ReplacementEnd(_) => Mode::Marks,
        Wait::ParameterStart => Mode::Marks,
        Wait::ParameterName(_) => Mode::Marks,
        Wait::Places(_, _) => Mode::Marks,
        Wait::PlacesRead(_, _) => Mode::Marks,
        Wait::PrefixPlace(_) => Mode::Marks,
        Wait::SymbolPlace => Mode::Marks,
        Wait::InfixPlace(_) => Mode::Marks,
    }
}

/// The bullet of a list whose item is due.
pub fn list_of(wait: Wait) -> Option<Lexeme>
    ensures { result ≡ tables.list_of wait }
{
    match wait {
        Wait::ListFirst(bullet) | Wait::ListItem(bullet) => Some(bullet),
        _ => None,
    }
}

/// The wait of a frame that has taken a part which closed under it, where it takes it at once.
pub fn absorbs(wait: Wait) -> Option<Wait>
    ensures { result ≡ tables.absorbs wait }
{
    match wait {
        Wait::StepFirst | Wait::StepNext => Some(Wait::StepNext),
        _ => None,
    }
}

// The form of a frame that may end with an expression.
fn ends_with(wait: Wait) -> Option<Form>
    ensures { result ≡ tables.ends_with wait }
{
    let form = match wait {
        Wait::PrefixOperand(symbol) => Form::Prefix(symbol),
        Wait::InfixOperand(symbol) => Form::Infix(symbol),
        Wait::Factor => Form::Product,
        Wait::ListFirst(symbol) => Form::JunctionList(symbol),
        Wait::ListItem(symbol) => Form::JunctionList(symbol),
        Wait::BoundSet => Form::Bound,
        Wait::TupleBoundSet => Form::TupleBound,
        Wait::QuantifierBody(quantifier) => Form::Quantifier(quantifier),
        Wait::BoundedBody(quantifier) => Form::BoundedQuantifier(quantifier),
        Wait::TemporalBody(quantifier) => Form::TemporalQuantifier(quantifier),
        Wait::ChooseBody => Form::Choose,
        Wait::BoundedChooseBody => Form::BoundedChoose,
        Wait::SquareSubscript => Form::SquareAction,
        Wait::AngleSubscript => Form::AngleAction,
        Wait::IfElse => Form::IfThenElse,
        Wait::ArmBody => Form::Arm,
        Wait::OtherBody => Form::OtherArm,
        Wait::UpdateValue => Form::Update,
        Wait::LetBody => Form::Let,
        Wait::DefinitionBody(name) => Form::OperatorDefinition(name),
        Wait::PrefixBody(symbol) => Form::PrefixDefinition(symbol),
        Wait::InfixBody(symbol) => Form::InfixDefinition(symbol),
        Wait::PostfixBody(symbol) => Form::PostfixDefinition(symbol),
        Wait::FunctionHeadBody(name) => Form::FunctionDefinition(name),
        Wait::ReplacementRight(name) => Form::Replacement(name),
        _ => return None,
    };
    Some(form)
}

// The form of a frame that may end with a part that is no expression.
fn ends_with_part(wait: Wait, shape: Shape) -> Option<Form>
    ensures { result ≡ tables.ends_with_part wait shape }
{
    match wait {
        Wait::Handing(Handed::Segment, _) => match shape {
            Shape::Helper => Some(Form::Identifier),
            _ => None,
        },
        Wait::CaseArms => match shape {
            Shape::Arm | Shape::OtherArm => Some(Form::Case),
            _ => None,
        },
        Wait::DefinitionBody(name) => match shape {
            Shape::Instance => Some(Form::ModuleDefinition(name)),
            _ => None,
        },
        Wait::Replacements(module) => match shape {
            Shape::Helper => Some(Form::Instance(module)),
            _ => None,
        },
        _ => None,
    }
}

/// Whether the part is an expression.
pub fn is_expression(shape: Shape) -> bool
    ensures { result ≡ tables.is_expression shape }
{
    match shape {
        Shape::Plain(_) | Shape::Member | Shape::Expression => true,
        _ => false,
    }
}

/// The form of a frame that may end with the part.
pub fn finishes(wait: Wait, shape: Shape) -> Option<Form>
    ensures { result ≡ tables.finishes wait shape }
{
    if is_expression(shape) {
        ends_with(wait)
    } else {
        ends_with_part(wait, shape)
    }
}

fn handed_wait(handed: Handed, lexeme: Lexeme) -> Wait
    ensures { result ≡ (tables.handed handed lexeme).wait }
{
    match handed {
        Handed::Segment => Wait::SegmentName(lexeme),
        Handed::Definition => {
            if is_name(lexeme.kind) {
                Wait::DefinitionName(lexeme)
            } else {
                Wait::PrefixName(lexeme)
            }
        }
    }
}

/// The wait of the frame that begins at once above one with this wait: its part has a frame of its
/// own.
pub fn child(wait: Wait) -> Option<Wait>
    ensures { result ≡ option_map (λ part. part.wait) (tables.child wait) }
{
    match wait {
        Wait::WholeBounds => Some(Wait::BindingStart(Binding::Bound)),
        Wait::Handing(handed, lexeme) => Some(handed_wait(handed, lexeme)),
        Wait::QuantifierFirst(_) => Some(Wait::BindingStart(Binding::Either)),
        Wait::QuantifierNext(_) => Some(Wait::BindingStart(Binding::Bound)),
        Wait::TemporalFirst(_) => Some(Wait::BindingStart(Binding::Names)),
        Wait::ChooseFirst => Some(Wait::BindingStart(Binding::One)),
        Wait::ImageBounds => Some(Wait::BindingStart(Binding::Bound)),
        Wait::FunctionBounds => Some(Wait::BindingStart(Binding::Bound)),
        Wait::ExceptUpdates => Some(Wait::UpdateBang),
        Wait::CaseArms => Some(Wait::ArmGuard),
        Wait::DefinitionParameters(_) => Some(Wait::ParameterStart),
        Wait::FunctionHeadBounds(_) => Some(Wait::BindingStart(Binding::Bound)),
        Wait::Replacements(_) => Some(Wait::ReplacementStart),
        _ => None,
    }
}
