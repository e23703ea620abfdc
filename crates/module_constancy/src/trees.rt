// Whether trees and units go not beyond constants.
ghost use Rattle.std.specs.Prelude.{◌≡◌, ◌<◌, length};
ghost use Rattle.std.specs.List.{AllByRecursion};
ghost use Rattle.tla_tree.specs.Arena.{AreThere, tree_at};
ghost use Rattle.tla_model.specs.Lexemes.{LiesIn, form_lexemes, lexemes, spelled, unit_lexemes};
ghost use Rattle.unit_grammar.specs.UnitNodes.{nodes_in, unit_at};
ghost use Rattle.module_kinds.specs.Constancy as constancy;
ghost use Rattle.module_constancy.specs.Places.{constant_in, named_at};

use crate::files::Files;
use crate::place::Place;
use tla_symbols::{Lexeme, Rule};
use tla_tree::{Form, Tree, Unit};
use tree_names::ModuleText;
use tree_rules::{bare_rule, form_rule};

// Whether a rule is one of constant forms.
fn is_constant_rule(rule: Option<Rule>) -> bool
    ensures { result ≡ constancy.is_constant_rule rule }
{
    match rule {
        None => true,
        Some(Rule::Plain) => true,
        Some(Rule::Boolean) => true,
        Some(_) => false,
    }
}

// Whether the module of a name is constant, to the outermost module.
fn is_constant_module<F: Files>(
    files: &F,
    place: &Place<'_>,
    text: &ModuleText<'_>,
    name: Lexeme,
) -> bool
    requires { LiesIn text.now.source name }
    ensures { result ≡ constant_in (F.constant files.now) place.now.modules
        (spelled text.now.source name) }
{
    place.is_constant(files, text.spelled(name))
}

// Whether a form goes not beyond constants by itself.
fn is_constant_form<F: Files>(
    files: &F,
    place: &Place<'_>,
    text: &ModuleText<'_>,
    form: Form,
) -> bool
    requires { AllByRecursion (LiesIn text.now.source) (form_lexemes form) }
    ensures { result ≡ constancy.is_constant_form text.now.source
        (named_at (F.constant files.now) place.now) form }
{
    match form {
        Form::Symbol(symbol) => is_constant_rule(bare_rule(symbol.kind)),
        Form::Instance(module) => is_constant_module(files, place, text, module),
        _ => is_constant_rule(form_rule(form)),
    }
}

// Whether nothing in the tree below a node goes beyond constants.
fn is_constant_tree<F: Files>(
    files: &F,
    place: &Place<'_>,
    text: &ModuleText<'_>,
    tree: &Tree,
    node: u32,
) -> bool
    requires there { node < length tree.now }
    requires lie { AllByRecursion (LiesIn text.now.source) (lexemes (tree_at tree.now node)) }
    ensures { result ≡ constancy.is_constant_tree text.now.source
        (named_at (F.constant files.now) place.now) (tree_at tree.now node) }
{
    let children = tree.children(node);
    if !is_constant_form(files, place, text, tree.form(node)) {
        return false;
    }
    for child in children {
        if !is_constant_tree(files, place, text, tree, *child) {
            return false;
        }
    }
    true
}

/// Whether nothing in a unit of the outermost module goes beyond constants.
pub(crate) fn is_constant_unit<F: Files>(
    files: &F,
    place: &Place<'_>,
    text: &ModuleText<'_>,
    tree: &Tree,
    unit: &Unit,
) -> bool
    requires there { AreThere tree.now (nodes_in unit.now) }
    requires lie { AllByRecursion (LiesIn text.now.source)
        (unit_lexemes (unit_at tree.now unit.now)) }
    ensures { result ≡ constancy.is_constant_unit text.now.source
        (named_at (F.constant files.now) place.now) (unit_at tree.now unit.now) }
{
    match unit {
        Unit::Variables { .. } => false,
        Unit::OperatorDefinition { node, .. } => is_constant_tree(files, place, text, tree, *node),
        Unit::FunctionDefinition { node, .. } => is_constant_tree(files, place, text, tree, *node),
        Unit::ModuleDefinition { node, .. } => is_constant_tree(files, place, text, tree, *node),
        Unit::Instance { node, .. } => is_constant_tree(files, place, text, tree, *node),
        Unit::Assumption { node, .. } => is_constant_tree(files, place, text, tree, *node),
        Unit::Theorem { node, .. } => is_constant_tree(files, place, text, tree, *node),
        Unit::Constants { .. } => true,
        Unit::Line(_) => true,
        Unit::ModuleBegin { .. } => true,
        Unit::ModuleEnd(_) => true,
    }
}

/// Whether all modules that are extended are constant.
pub(crate) fn extends_constant<F: Files>(
    files: &F,
    place: &Place<'_>,
    text: &ModuleText<'_>,
    names: &[Lexeme],
) -> bool
    requires { AllByRecursion (LiesIn text.now.source) names.now }
    ensures { result ≡ constancy.extends_constant text.now.source
        (named_at (F.constant files.now) place.now) names.now }
{
    for name in names {
        if !is_constant_module(files, place, text, *name) {
            return false;
        }
    }
    true
}
