// The forms of nodes.
ghost use Rattle.std.specs.Prelude.{◌≡◌};
ghost use Rattle.tla_tree.specs.Forms.{helps};

use tla_symbols::Lexeme;

/// What a node is: one variant for each form of expression (*Specifying Systems*, chapters 15 and
/// 16), and then the helper forms, which are parts of those. The parts that are named here are the
/// node's children, in the order of the text.
#[derive(Clone, Copy, Debug, PartialEq, Eq)]
pub enum Form {
    /// A general identifier, as `I(1)!Op(x)`: its segments.
    Identifier,
    Number(Lexeme),
    Text(Lexeme),
    /// `@`
    At(Lexeme),
    /// A bare symbol, as an argument or on the right of `<-`.
    Symbol(Lexeme),
    /// A prefix operator before its operand.
    Prefix(Lexeme),
    /// An infix operator between its operands.
    Infix(Lexeme),
    /// A postfix operator after its operand.
    Postfix(Lexeme),
    /// `S \X T \X U`: all operands.
    Product,
    /// `(e)`
    Parentheses,
    /// `\A x, y : e` or `\E x, y : e`, by the quantifier: the names, the body.
    Quantifier(Lexeme),
    /// `\A x \in S, y \in T : e` or with `\E`, by the quantifier: the bounds, the body.
    BoundedQuantifier(Lexeme),
    /// `\AA x, y : e` or `\EE x, y : e`, by the quantifier: the names, the body.
    TemporalQuantifier(Lexeme),
    /// `CHOOSE x : e`: the names, the body.
    Choose,
    /// `CHOOSE x \in S : e`: the bound, the body.
    BoundedChoose,
    /// `{}` or `{e, ..}`: the elements.
    SetEnumeration,
    /// `{x \in S : e}`: the bound, the condition.
    SetFilter,
    /// `{e : x \in S, ..}`: the element, the bounds.
    SetImage,
    /// `f[e, ..]`: the function, the arguments.
    Application,
    /// `[x \in S, .. |-> e]`: the bounds, the value.
    FunctionConstructor,
    /// `[S -> T]`
    FunctionSet,
    /// `[h |-> e, ..]`: the fields.
    Record,
    /// `[h : S, ..]`: the fields.
    RecordSet,
    /// `e.h`, by the name of the field: the record.
    FieldAccess(Lexeme),
    /// `[f EXCEPT !.h[i] = e, ..]`: the function, the updates.
    Except,
    /// `<<>>` or `<<e, ..>>`: the entries.
    Tuple,
    /// `[A]_s`: the action, the subscript.
    SquareAction,
    /// `<<A>>_s`: the action, the subscript.
    AngleAction,
    /// `WF_s(A)` or `SF_s(A)`, by its word: the subscript, the action.
    Fairness(Lexeme),
    /// `IF p THEN e ELSE f`
    IfThenElse,
    /// `CASE p -> e [] q -> f ..`: the arms.
    Case,
    /// `LET d .. IN e`: the definitions, the body.
    Let,
    /// An aligned list of `/\` or `\/`, by its first bullet: the items.
    JunctionList(Lexeme),
    /// `LAMBDA x, y : e`: the names, the body.
    Lambda,

    /// A segment of a general identifier, by its name: the arguments.
    Segment(Lexeme),
    /// A name that is declared or bound here.
    Name(Lexeme),
    /// Names parted by commas.
    Names,
    /// `<<x, y>>` where names are bound: the names.
    TupleNames,
    /// `x, y \in S`: the names, the set.
    Bound,
    /// `<<x, y>> \in S`: the names, the set.
    TupleBound,
    /// `x \in S, y \in T` in the head of a function's definition, before its body is read: the
    /// bounds.
    Bounds,
    /// `h |-> e` or `h : e`, by the field's name: the value.
    Field(Lexeme),
    /// `!.h[i] = e`: the steps, the value.
    Update,
    /// `.h`, by the field's name.
    FieldStep(Lexeme),
    /// `[e, ..]`: the indices.
    IndexStep,
    /// `p -> e`
    Arm,
    /// `OTHER -> e`
    OtherArm,
    /// `Op == e` or `Op(p, ..) == e`, by the name: the parameters, the body.
    OperatorDefinition(Lexeme),
    /// `-. x == e`, by the symbol: the name, the body.
    PrefixDefinition(Lexeme),
    /// `x + y == e`, by the symbol: the names, the body.
    InfixDefinition(Lexeme),
    /// `x ^+ == e`, by the symbol: the name, the body.
    PostfixDefinition(Lexeme),
    /// `f[x \in S, ..] == e`, by the name: the bounds, the body.
    FunctionDefinition(Lexeme),
    /// `I == INSTANCE M ..` or `I(p, ..) == INSTANCE M ..`, by the name: the parameters, the
    /// instance.
    ModuleDefinition(Lexeme),
    /// `INSTANCE M` or `INSTANCE M WITH ..`, by the module's name: the replacements.
    Instance(Lexeme),
    /// `p <- e`, by the name or symbol on its left: the right side.
    Replacement(Lexeme),
    /// `Op(_, ..)`, by the name, with the number of places.
    OperatorParameter(Lexeme, u32),
    /// `-. _`, by the symbol.
    PrefixParameter(Lexeme),
    /// `_ + _`, by the symbol.
    InfixParameter(Lexeme),
    /// `_ ^+`, by the symbol.
    PostfixParameter(Lexeme),
}

/// Whether the form is a helper form: a part of expressions and none itself. A node of it is as high
/// as its highest part.
pub fn helps(form: Form) -> bool
    ensures { result ≡ helps form }
{
    match form {
        Form::Segment(_)
        | Form::Name(_)
        | Form::Names
        | Form::TupleNames
        | Form::Bound
        | Form::TupleBound
        | Form::Bounds
        | Form::Field(_)
        | Form::Update
        | Form::FieldStep(_)
        | Form::IndexStep
        | Form::Arm
        | Form::OtherArm
        | Form::OperatorDefinition(_)
        | Form::PrefixDefinition(_)
        | Form::InfixDefinition(_)
        | Form::PostfixDefinition(_)
        | Form::FunctionDefinition(_)
        | Form::ModuleDefinition(_)
        | Form::Instance(_)
        | Form::Replacement(_)
        | Form::OperatorParameter(_, _)
        | Form::PrefixParameter(_)
        | Form::InfixParameter(_)
        | Form::PostfixParameter(_) => true,
        _ => false,
    }
}
