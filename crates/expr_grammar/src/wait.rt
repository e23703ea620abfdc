// What a frame of the machine waits for, and what lexemes do to it.
use tla_symbols::{Fix, Lexeme, Op};
use tla_tree::Form;

/// Which names may be bound at a place.
#[derive(Clone, Copy)]
pub enum Binding {
    /// Names without a set.
    Names,
    /// Names without a set, or with one.
    Either,
    /// Names or a tuple with a set.
    Bound,
    /// One name or one tuple, with a set or without.
    One,
}

/// A part that begins with a lexeme which its parent has seen.
#[derive(Clone, Copy)]
pub enum Handed {
    Segment,
    Definition,
}

/// What a frame waits for: its next part or its next lexeme.
#[derive(Clone, Copy)]
pub enum Wait {
    Whole,
    WholeBounds,
    PrefixOperand(Lexeme),
    InfixOperand(Lexeme),
    Factor,
    ParenthesesBody,
    ListFirst(Lexeme),
    ListItem(Lexeme),
    /// The rest of the part that begins with the lexeme.
    Handing(Handed, Lexeme),
    IdentifierBang,
    SegmentName(Lexeme),
    Argument(Lexeme),
    ArgumentSymbol(Lexeme),
    SubscriptRead,
    SubscriptBang,
    BindingStart(Binding),
    BindingComma(Binding),
    BindingRead(Binding),
    TupleComma(Binding),
    TupleRead(Binding),
    TupleClosed(Binding),
    BoundSet,
    TupleBoundSet,
    QuantifierFirst(Lexeme),
    QuantifierNext(Lexeme),
    QuantifierBody(Lexeme),
    BoundedBody(Lexeme),
    TemporalFirst(Lexeme),
    TemporalBody(Lexeme),
    ChooseFirst,
    ChooseBody,
    BoundedChooseBody,
    BraceFirst,
    BraceNext,
    FilterBody,
    ImageBounds,
    ApplicationArgument,
    FieldName,
    /// The first part in brackets, and whether they may be those of an action.
    SquareFirst(bool),
    FunctionTo,
    /// The bounds of a function, the first of which began as an operand in brackets, and whether the
    /// brackets may be those of an action.
    FunctionNames(bool),
    FunctionBounds,
    FunctionBody,
    RecordValue(Lexeme, Lexeme),
    RecordNext,
    RecordNamed(Lexeme),
    RecordSetValue(Lexeme, Lexeme),
    RecordSetNext,
    RecordSetNamed(Lexeme),
    ExceptUpdates,
    UpdateBang,
    StepFirst,
    StepNext,
    StepField,
    UpdateValue,
    IndexPart,
    /// The first entry of a tuple, and whether it may be an action.
    AngleFirst(bool),
    AngleNext,
    SquareSubscript,
    AngleSubscript,
    FairSubscript(Lexeme),
    FairAction(Lexeme),
    IfTest,
    IfThen,
    IfElse,
    CaseArms,
    ArmGuard,
    ArmBody,
    OtherArrow,
    OtherBody,
    LetFirst,
    LetBody,
    DefinitionName(Lexeme),
    DefinitionParameters(Lexeme),
    DefinitionDefine(Lexeme),
    DefinitionBody(Lexeme),
    PrefixName(Lexeme),
    PrefixDefine(Lexeme),
    PrefixBody(Lexeme),
    InfixName(Lexeme),
    InfixDefine(Lexeme),
    InfixBody(Lexeme),
    PostfixDefine(Lexeme),
    PostfixBody(Lexeme),
    FunctionHeadBounds(Lexeme),
    FunctionHeadDefine(Lexeme),
    FunctionHeadBody(Lexeme),
    InstanceModule,
    InstanceNamed(Lexeme),
    Replacements(Lexeme),
    ReplacementStart,
    ReplacementArrow(Lexeme),
    ReplacementRight(Lexeme),
    ReplacementEnd(Lexeme),
    ParameterStart,
    ParameterName(Lexeme),
    Places(Lexeme, u32),
    PlacesRead(Lexeme, u32),
    PrefixPlace(Lexeme),
    SymbolPlace,
    InfixPlace(Lexeme),
}

/// What comes next in a frame.
#[derive(Clone, Copy)]
pub enum Mode {
    /// An expression.
    Operand,
    /// A subscript.
    Subscript,
    /// A lexeme of the frame's own form.
    Marks,
    /// A part with a frame of its own.
    Child,
}

/// What a lexeme begins where an expression or a subscript is due.
#[derive(Clone, Copy)]
pub enum Start {
    Leaf(Form),
    Push(Wait),
    /// A frame begins, and a leaf is its first part.
    PushLeaf(Form, Wait),
    Hand(Handed),
    NoStart,
}

/// What a lexeme does to a frame that has no finished part beside it.
#[derive(Clone, Copy)]
pub enum MarkMove {
    Shift(Wait),
    /// A leaf is a part, made of the lexeme.
    Leaf(Form, Wait),
    /// A leaf is a part, made of an earlier lexeme.
    LeafOf(Form, Lexeme, Wait),
    /// A part begins, of another kind than an expression.
    Push(Wait),
    Hand(Handed),
    Close(Form),
    Refused,
}

/// What becomes of a finished part when its parent takes it.
#[derive(Clone, Copy)]
pub enum Conversion {
    Keep,
    Drop,
    AsBound,
    AsField(Lexeme, Lexeme),
}

/// What a lexeme that is no operator does to a frame with a finished part beside it.
#[derive(Clone, Copy)]
pub enum PartMove {
    /// The frame ends before the lexeme.
    Finish(Form),
    /// The frame ends with the lexeme.
    Done(Form, Conversion),
    Goes(Wait, Conversion),
    /// The next part begins with the lexeme.
    Hand(Handed),
    /// The part begins the first bound of a function. The flag says whether the brackets may be those of
    /// an action.
    Convert(bool),
    Refused,
}

/// What a lexeme is after an operand.
#[derive(Clone, Copy)]
pub enum Role {
    Symbol(Op, Fix),
    Apply,
    Select,
    Mark,
}

/// What an operator makes of the operand before it.
#[derive(Clone, Copy)]
pub enum Lead {
    Push(Wait),
    Node(Form),
    NoLead,
}

/// What the tables tell apart of a finished part.
#[derive(Clone, Copy)]
pub enum Shape {
    /// One name without arguments.
    Plain(Lexeme),
    /// The bare form `x \in e`.
    Member,
    Expression,
    Names,
    Bound,
    Arm,
    OtherArm,
    Instance,
    Symbol,
    Helper,
}
