// Where in a module the machine for units stands, and what lexemes do there.
use tla_symbols::Lexeme;
use tla_tree::Form;

/// What is due in a module, outside definitions, declarations, instances and expressions.
#[derive(Clone, Copy)]
pub enum Due {
    /// The dashes that begin the outermost module are due.
    Opening,
    /// The word MODULE is due, after these dashes.
    OpeningWord(Lexeme),
    /// The name of a module is due, which begins with these dashes.
    ModuleName(Lexeme),
    /// The dashes after the module's name are due, by its first dashes and its name.
    ModuleDashes(Lexeme, Lexeme),
    /// `EXTENDS`, or a unit of the module of these dashes and this name.
    ModuleRead(Lexeme, Lexeme),
    /// A name that the module of these dashes and this name extends is due.
    ExtendsName(Lexeme, Lexeme),
    /// A comma, or a unit of the module of these dashes and this name.
    ExtendsRead(Lexeme, Lexeme),
    /// A unit, or the module's end.
    Unit,
    /// After dashes: the begin of a nested module where MODULE follows, and else a line.
    Dashes(Lexeme),
    /// A definition or an instance is due, after LOCAL.
    Local(Lexeme),
    /// The name of a variable is due.
    VariableName,
    /// A comma, or the next unit.
    VariableRead,
    /// The outermost module is closed.
    Closed,
}

/// What a lexeme does where something is due.
#[derive(Clone, Copy)]
pub enum DueMove {
    Goes(Due),
    /// The lexeme is a name of the list that is read.
    Named(Due),
    /// The module of these dashes and this name has begun, and the lexeme is due in it.
    Begun(Lexeme, Lexeme),
    /// The variables are read, and the lexeme is due after them.
    Listed,
    /// The dashes are a line, and the lexeme is due after it.
    Lined(Lexeme),
    /// The lexeme begins a unit, with the LOCAL that stands before it.
    Begins(Option<Lexeme>),
    Refused,
}

/// What a lexeme begins where a unit is due.
#[derive(Clone, Copy)]
pub enum UnitStart {
    Goes(Due),
    /// A definition, of which this is due next.
    Definition(Wait),
    Instance,
    Constants,
    Assumption,
    Theorem,
    /// The lexeme ends a nested module.
    Ends,
    /// The lexeme closes the outermost module.
    Closes,
    Refused,
}

/// What a frame waits for: a declaration, a definition, an instance or a replacement that is read.
#[derive(Clone, Copy)]
pub enum Wait {
    Declaration,
    DeclarationName(Lexeme),
    Places(Lexeme, u32),
    PlacesRead(Lexeme, u32),
    PrefixPlace(Lexeme),
    SymbolPlace,
    InfixPlace(Lexeme),
    DefinitionName(Lexeme),
    /// The next parameter of an operator's head, in a frame of its own.
    Parameters(Lexeme),
    ParametersRead(Lexeme),
    Define(Lexeme),
    /// The right side of an operator's head: an expression, or an instance in a frame of its own.
    Body(Lexeme),
    PrefixName(Lexeme),
    PrefixDefine(Lexeme),
    InfixName(Lexeme),
    InfixDefine(Lexeme),
    PostfixDefine(Lexeme),
    /// The bounds of a function's head.
    Bounds(Lexeme),
    BoundsRead(Lexeme),
    BoundsDefine(Lexeme),
    /// The expression that ends a part of this form.
    Right(Form),
    InstanceName,
    InstanceRead(Lexeme),
    /// The next replacement, in a frame of its own.
    Replacements(Lexeme),
    ReplacementsRead(Lexeme),
    ReplacementStart,
    ReplacementArrow(Lexeme),
    ReplacementRight(Lexeme),
    /// Nothing more: the part ends before the next lexeme.
    Complete(Form),
}

/// What a lexeme does to a frame.
#[derive(Clone, Copy)]
pub enum Move {
    Shift(Wait),
    /// A leaf is a part, made of the lexeme.
    Leaf(Form, Wait),
    /// A leaf is a part, made of an earlier lexeme.
    LeafOf(Form, Lexeme, Wait),
    /// A part begins with the lexeme, in a frame of its own.
    Push(Wait),
    /// A part begins after the lexeme, in a frame of its own.
    Opens(Wait, Wait),
    /// The frame ends with the lexeme.
    Close(Form),
    /// The frame ends before the lexeme.
    Ends(Form),
    /// The lexeme begins an expression.
    Expression,
    /// Bounds begin after the lexeme.
    Bounds(Wait),
    Refused,
}
