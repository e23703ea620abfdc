// How the nodes of forms are made, and which trees are walked in a way of their own.
ghost use Rattle.std.specs.Prelude.{◌≡◌, ◌<◌, length};
ghost use Rattle.declared_names.specs.Nodes.{IsWhole, form_at};
ghost use Rattle.tla_model.specs.Entities as entities;
ghost use Rattle.tree_flattener.specs.Making.{making_of, shape_of};
ghost use Rattle.tree_flattener.specs.Definitions.{definition_in};

use tla_symbols::{Fix, Lexeme};
use tla_tree::{Form, Tree};

/// How the node of a form is made.
#[derive(Clone, Copy)]
pub(crate) enum Making {
    Path,
    Constant,
    Old,
    Bare(Lexeme),
    Operator(Fix, Lexeme),
    Inside,
    Bounded,
    Ruled,
}

/// A tree that is walked in a way of its own, or a plain one. EXCEPT has the node of its function.
#[derive(Clone, Copy)]
pub(crate) enum Shape {
    Let,
    Except(u32),
    Plain,
}

/// What a form defines, by its name.
#[derive(Clone, Copy)]
pub(crate) enum Definition {
    Nothing,
    Operator(Lexeme),
    Function(Lexeme),
    Module(Lexeme),
}

// How the node of a form is made.
pub(crate) fn making_of(form: Form) -> Making
    ensures { result ≡ making_of form }
{
    match form {
        Form::Identifier => Making::Path,
        Form::Number(_) | Form::Text(_) => Making::Constant,
        Form::At(_) => Making::Old,
        Form::Symbol(l) => Making::Bare(l),
        Form::Prefix(l) => Making::Operator(Fix::Prefix, l),
        Form::Infix(l) => Making::Operator(Fix::Infix, l),
        Form::Postfix(l) => Making::Operator(Fix::Postfix, l),
        Form::Parentheses => Making::Inside,
        Form::BoundedQuantifier(_) => Making::Bounded,
        _ => Making::Ruled,
    }
}

// How a tree with these children is walked.
pub(crate) fn shape_of(form: Form, children: &[u32]) -> Shape
    ensures { result ≡ shape_of form children.now }
{
    match form {
        Form::Let => Shape::Let,
        Form::Except => match children {
            [] => Shape::Plain,
            [function, ..] => Shape::Except(*function),
        },
        _ => Shape::Plain,
    }
}

// What a form defines.
pub(crate) fn definition_of(form: Form) -> Definition
    ensures { definition_in result ≡ entities.defines form }
{
    match form {
        Form::OperatorDefinition(l)
        | Form::PrefixDefinition(l)
        | Form::InfixDefinition(l)
        | Form::PostfixDefinition(l) => Definition::Operator(l),
        Form::FunctionDefinition(l) => Definition::Function(l),
        Form::ModuleDefinition(l) => Definition::Module(l),
        _ => Definition::Nothing,
    }
}

// The form of a node, whose tree is that form over the trees of its children.
pub(crate) fn form_of(tree: &Tree, node: u32) -> Form
    requires { node < length tree.now }
    ensures form { result ≡ form_at tree.now node }
    ensures whole { IsWhole tree.now node }
{
    let _children = tree.children(node);
    tree.form(node)
}
