// The operator symbols.

/// An operator symbol, its synonyms joined: `/\` and `\land` are one. A lexeme's span tells the
/// spellings apart (*Specifying Systems*, section 15.1.2 and tables 5 and 6).
#[derive(Clone, Copy, Debug, PartialEq, Eq)]
pub enum Op {
    /// `~` `\lnot` `\neg`
    Not,
    /// `ENABLED`
    Enabled,
    /// `UNCHANGED`
    Unchanged,
    /// `[]`
    Always,
    /// `<>`
    Eventually,
    /// `SUBSET`
    PowerSet,
    /// `UNION`
    BigUnion,
    /// `DOMAIN`
    Domain,
    /// `-.` names the prefix minus where it is declared, defined or passed.
    Negative,
    /// `=>`
    Implies,
    /// `<=>` `\equiv`
    Equivalent,
    /// `-+->`
    PlusArrow,
    /// `~>`
    LeadsTo,
    /// `/\` `\land`
    And,
    /// `\/` `\lor`
    Or,
    /// `=`
    Equal,
    /// `#` `/=`
    NotEqual,
    /// `\in`
    In,
    /// `\notin`
    NotIn,
    /// `\subseteq`
    SubsetEqual,
    /// `<`
    Less,
    /// `>`
    Greater,
    /// `=<` `<=` `\leq`
    LessEqual,
    /// `>=` `\geq`
    GreaterEqual,
    /// `\subset`
    Subset,
    /// `\supset`
    Superset,
    /// `\supseteq`
    SupersetEqual,
    /// `\sqsubset`
    SquareSubset,
    /// `\sqsubseteq`
    SquareSubsetEqual,
    /// `\sqsupset`
    SquareSuperset,
    /// `\sqsupseteq`
    SquareSupersetEqual,
    /// `\prec`
    Precedes,
    /// `\preceq`
    PrecedesEqual,
    /// `\succ`
    Succeeds,
    /// `\succeq`
    SucceedsEqual,
    /// `\ll`
    MuchLess,
    /// `\gg`
    MuchGreater,
    /// `\sim`
    Similar,
    /// `\simeq`
    SimilarEqual,
    /// `\asymp`
    Asymptotic,
    /// `\approx`
    Approximate,
    /// `\cong`
    Congruent,
    /// `\doteq`
    DotEqual,
    /// `\propto`
    Proportional,
    /// `|-`
    RightTurnstile,
    /// `-|`
    LeftTurnstile,
    /// `|=`
    RightModels,
    /// `=|`
    LeftModels,
    /// `:=`
    Assign,
    /// `::=`
    Produces,
    /// `\cdot`
    ActionCompose,
    /// `@@`
    AtAt,
    /// `:>`
    ColonGreater,
    /// `<:`
    LessColon,
    /// `\`
    SetMinus,
    /// `\cup` `\union`
    Cup,
    /// `\cap` `\intersect`
    Cap,
    /// `..`
    DotDot,
    /// `...`
    Ellipsis,
    /// `!!`
    BangBang,
    /// `##`
    HashHash,
    /// `$`
    Dollar,
    /// `$$`
    DollarDollar,
    /// `??`
    QueryQuery,
    /// `\sqcap`
    SquareCap,
    /// `\sqcup`
    SquareCup,
    /// `\uplus`
    MultisetUnion,
    /// `\wr`
    Wreath,
    /// `+`
    Plus,
    /// `++`
    PlusPlus,
    /// `\oplus` `(+)`
    CirclePlus,
    /// `%`
    Percent,
    /// `%%`
    PercentPercent,
    /// `|`
    Bar,
    /// `||`
    BarBar,
    /// `-`, between two operands or before one.
    Minus,
    /// `--`
    MinusMinus,
    /// `\ominus` `(-)`
    CircleMinus,
    /// `\X` `\times`
    Product,
    /// `*`
    Star,
    /// `**`
    StarStar,
    /// `&`
    Ampersand,
    /// `&&`
    AmpersandAmpersand,
    /// `\odot` `(.)`
    CircleDot,
    /// `\otimes` `(\X)`
    CircleTimes,
    /// `\bigcirc`
    BigCircle,
    /// `\bullet`
    BulletSign,
    /// `\o` `\circ`
    Concatenate,
    /// `\star`
    StarSign,
    /// `/`
    Slash,
    /// `//`
    SlashSlash,
    /// `\div`
    Divide,
    /// `\oslash` `(/)`
    CircleSlash,
    /// `^`
    Caret,
    /// `^^`
    CaretCaret,
    /// `'`
    Prime,
    /// `^+`
    PlusClosure,
    /// `^*`
    StarClosure,
    /// `^#`
    SharpClosure,
}
