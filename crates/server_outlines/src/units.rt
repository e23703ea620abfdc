// The names that one unit declares or defines.
ghost use Rattle.std.specs.Prelude.{◌≡◌, ◌∷◌, [], ◌++◌, ◌<◌, ℕ, List as ListOf, OnOk, length, map};
ghost use Rattle.std.specs.List.{AllByRecursion};
ghost use Rattle.std.specs.Option.{IfSome, option_to_list};
ghost use Rattle.server_outlines.specs.Outlines as outlines;
ghost use Rattle.server_outlines.specs.Shown.{AreShown, IsClaimShown, IsDefinitionShown, IsShown, IsUnitShown};
ghost use Rattle.tla_lexeme.specs.Spans.{IsPlaced};
ghost use Rattle.tla_model.specs.Entities.{placed};
ghost use Rattle.tla_model.specs.Lexemes.{LiesIn, form_lexemes};
ghost use Rattle.tla_tree.specs.Arena.{AreThere, tree_at};
ghost use Rattle.tla_tree.specs.Syntax as syntax;
ghost use Rattle.unit_grammar.specs.UnitNodes.{nodes_in, unit_at};

use crate::walk::Walk;
use lsp_wire::Symbol;
use std::alloc::Global;
use tla_symbols::{Lexeme, Span};
use tla_tree::{Form, Tree, Unit};
use tool_list::{List, Memory};

/// LSP's number of the kind `Module`.
pub const MODULE: u8 = 2;

const FUNCTION: u8 = 12;

const VARIABLE: u8 = 13;

const CONSTANT: u8 = 14;

const OPERATOR: u8 = 25;

fn form_of(tree: &Tree, node: u32) -> Form
    requires { node < length tree.now }
    ensures { result ≡ syntax.form (tree_at tree.now node) }
{
    tree.form(node)
}

fn span_of(tree: &Tree, node: u32) -> Span
    requires { node < length tree.now }
    ensures { result ≡ syntax.span (tree_at tree.now node) }
{
    tree.span(node)
}

// The name that is declared at a form.
fn declared_name(form: Form) -> Option<Lexeme>
    ensures name { option_to_list result ≡ map (λ name. name.0) (placed form) }
    ensures lexeme { IfSome result (λ name. form_lexemes form ≡ name ∷ []) }
{
    match form {
        Form::Name(name)
        | Form::OperatorParameter(name, _)
        | Form::PrefixParameter(name)
        | Form::InfixParameter(name)
        | Form::PostfixParameter(name) => Some(name),
        _ => None,
    }
}

// The kind of what a form defines, and its name.
fn defined_as(form: Form) -> Option<(u8, Lexeme)>
    ensures defined { result ≡ outlines.defined_as form }
    ensures lexeme { IfSome result (λ defined. form_lexemes form ≡ defined.1 ∷ []) }
{
    match form {
        Form::OperatorDefinition(name) | Form::FunctionDefinition(name) => Some((FUNCTION, name)),
        Form::PrefixDefinition(name)
        | Form::InfixDefinition(name)
        | Form::PostfixDefinition(name) => Some((OPERATOR, name)),
        Form::ModuleDefinition(name) => Some((MODULE, name)),
        _ => None,
    }
}

// A span from the word LOCAL on, where it stands before.
fn from_local(local: Option<Lexeme>, span: Span) -> Span
    ensures span { result ≡ outlines.from_local local span }
    ensures placed { (text : ListOf ℕ) → IfSome local (LiesIn text) → IsPlaced text span
        → IsPlaced text result }
{
    match local {
        Some(word) => Span {
            start: word.span.start,
            end: span.end,
        },
        None => span,
    }
}

fn push_variables(
    alloc: Global,
    symbols: &mut List<Symbol>,
    walk: &mut Walk,
    names: &[Lexeme],
) -> Result<(), Memory>
    requires { AllByRecursion (LiesIn walk.old) names.now }
    ensures symbols { OnOk result (symbols.new
        ≡ symbols.old
        ++ map
        (λ name. outlines.symbol walk.old outlines.variable_kind name.span name) names.now) }
    ensures text { walk.new ≡ walk.old }
{
    for name in names {
        symbols.push(walk.symbol(alloc, VARIABLE, name.span, *name)?)?;
    }
    Ok(())
}

fn push_constant(
    alloc: Global,
    symbols: &mut List<Symbol>,
    walk: &mut Walk,
    tree: &Tree,
    node: u32,
) -> Result<(), Memory>
    requires there { node < length tree.now }
    requires shown { IsShown walk.old (tree_at tree.now node) }
    ensures symbols { OnOk result (symbols.new
        ≡ symbols.old ++ outlines.constant_symbols walk.old (tree_at tree.now node)) }
    ensures text { walk.new ≡ walk.old }
{
    if let Some(name) = declared_name(form_of(tree, node)) {
        symbols.push(walk.symbol(alloc, CONSTANT, span_of(tree, node), name)?)?;
    }
    Ok(())
}

fn push_constants(
    alloc: Global,
    symbols: &mut List<Symbol>,
    walk: &mut Walk,
    tree: &Tree,
    nodes: &[u32],
) -> Result<(), Memory>
    requires there { AreThere tree.now nodes.now }
    requires shown { AreShown walk.old (syntax.trees (map (tree_at tree.now) nodes.now)) }
    ensures symbols { OnOk result (symbols.new
        ≡ symbols.old
        ++ outlines.constants_symbols walk.old
        (syntax.trees (map (tree_at tree.now) nodes.now))) }
    ensures text { walk.new ≡ walk.old }
{
    for node in nodes {
        push_constant(alloc, symbols, walk, tree, *node)?;
    }
    Ok(())
}

fn push_definition(
    alloc: Global,
    symbols: &mut List<Symbol>,
    walk: &mut Walk,
    local: Option<Lexeme>,
    tree: &Tree,
    node: u32,
) -> Result<(), Memory>
    requires there { node < length tree.now }
    requires shown { IsDefinitionShown walk.old local (tree_at tree.now node) }
    ensures symbols { OnOk result (symbols.new
        ≡ symbols.old ++ outlines.defined_symbols walk.old local (tree_at tree.now node)) }
    ensures text { walk.new ≡ walk.old }
{
    if let Some((kind, name)) = defined_as(form_of(tree, node)) {
        let span = from_local(local, span_of(tree, node));
        symbols.push(walk.symbol(alloc, kind, span, name)?)?;
    }
    Ok(())
}

// Appends the name of an assumption or a theorem, if it has one.
fn push_claim(
    alloc: Global,
    symbols: &mut List<Symbol>,
    walk: &mut Walk,
    word: Lexeme,
    name: Option<Lexeme>,
    span: Span,
) -> Result<(), Memory>
    requires word { LiesIn walk.old word }
    requires name { IfSome name (LiesIn walk.old) }
    requires span { IsPlaced walk.old span }
    ensures symbols { OnOk result (symbols.new
        ≡ symbols.old ++ outlines.claimed_symbols walk.old word name span) }
    ensures text { walk.new ≡ walk.old }
{
    if let Some(name) = name {
        let span = Span {
            start: word.span.start,
            end: span.end,
        };
        symbols.push(walk.symbol(alloc, FUNCTION, span, name)?)?;
    }
    Ok(())
}

/// Appends the names that a unit declares or defines. A begin or an end of a nested module has none.
pub fn push_unit(
    alloc: Global,
    symbols: &mut List<Symbol>,
    walk: &mut Walk,
    tree: &Tree,
    unit: &Unit,
) -> Result<(), Memory>
    requires there { AreThere tree.now (nodes_in unit.now) }
    requires shown { IsUnitShown walk.old (unit_at tree.now unit.now) }
    ensures symbols { OnOk result (symbols.new
        ≡ symbols.old ++ outlines.unit_symbols walk.old (unit_at tree.now unit.now)) }
    ensures text { walk.new ≡ walk.old }
{
    match unit {
        Unit::Variables { names } => push_variables(alloc, symbols, walk, names.as_slice()),
        Unit::Constants { declarations } => {
            push_constants(alloc, symbols, walk, tree, declarations.as_slice())
        }
        Unit::OperatorDefinition { local, node }
        | Unit::FunctionDefinition { local, node }
        | Unit::ModuleDefinition { local, node } => {
            push_definition(alloc, symbols, walk, *local, tree, *node)
        }
        Unit::Assumption { word, name, node } | Unit::Theorem { word, name, node } => {
            let span = span_of(tree, *node);
            push_claim(alloc, symbols, walk, *word, *name, span)
        }
        Unit::Instance { .. } | Unit::Line(_) | Unit::ModuleBegin { .. } | Unit::ModuleEnd(_) => {
            Ok(())
        }
    }
}
