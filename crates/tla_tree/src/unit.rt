// Modules and their units.
use crate::tree::Tree;
use tla_symbols::Lexeme;
use tool_list::{Chars, List};

/// A unit of a module (*Specifying Systems*, section 17.5). A number is the node of the module's
/// tree that has the definition, instance, declaration or expression.
#[derive(Drop)]
pub enum Unit {
    /// `VARIABLE x, y`
    Variables {
        names: List<Lexeme>,
    },
    /// `CONSTANT c, Op(_), _ + _`
    Constants {
        declarations: List<u32>,
    },
    /// An operator definition, with `LOCAL` where it stands before it.
    OperatorDefinition {
        local: Option<Lexeme>,
        node: u32,
    },
    /// `f[x \in S] == e`, with `LOCAL` where it stands before it.
    FunctionDefinition {
        local: Option<Lexeme>,
        node: u32,
    },
    /// `I == INSTANCE M`, with `LOCAL` where it stands before it.
    ModuleDefinition {
        local: Option<Lexeme>,
        node: u32,
    },
    /// `INSTANCE M`, with `LOCAL` where it stands before it.
    Instance {
        local: Option<Lexeme>,
        node: u32,
    },
    /// `ASSUME e`, by its word. No assumption has a name as yet.
    Assumption {
        word: Lexeme,
        name: Option<Lexeme>,
        node: u32,
    },
    /// `THEOREM e`, by its word. No theorem has a name as yet.
    Theorem {
        word: Lexeme,
        name: Option<Lexeme>,
        node: u32,
    },
    /// A line of dashes.
    Line(Lexeme),
    /// The begin of a nested module, with its first dashes: its units follow, to the end that
    /// belongs to it.
    ModuleBegin {
        dashes: Lexeme,
        name: Lexeme,
        extends: List<Lexeme>,
    },
    /// The end of a nested module.
    ModuleEnd(Lexeme),
}

/// A module. Its units stand in one list, those of nested modules among them, so no walk over
/// them needs recursion.
#[derive(Drop)]
pub struct ModuleTree {
    /// The module's name.
    pub name: Lexeme,
    /// The names after `EXTENDS`.
    pub extends: List<Lexeme>,
    pub units: List<Unit>,
    /// The nodes of all expressions and definitions.
    pub tree: Tree,
    /// The height of the highest unit.
    pub height: u32,
    /// The text that the module was read from. A lexeme's name is the part in its span.
    pub source: Chars,
}
