// What levels are reckoned with.

/// What decides the level of an expression from those of its operands. `Square`, `Angle` and
/// `Fair` are the rules of `[A]_e`, `<<A>>_e` and of `WF_` and `SF_`; they belong to no symbol.
#[derive(Clone, Copy, Debug, PartialEq, Eq)]
pub enum Rule {
    Plain,
    Boolean,
    Prime,
    Unchanged,
    Enabled,
    Always,
    Eventually,
    Leads,
    Compose,
    Square,
    Angle,
    Fair,
}

/// The kind of an expression: its level, where the two forms of actions that `[]` and `<>` take
/// are kinds of their own (*Specifying Systems*, section 17.2).
#[derive(Clone, Copy, Debug, PartialEq, Eq)]
pub enum Kind {
    Const,
    State,
    Action,
    BoxAction,
    DiamondAction,
    Temporal,
}
