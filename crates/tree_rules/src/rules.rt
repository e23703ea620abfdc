// Rules of forms and symbols.
ghost use Rattle.std.specs.Prelude.{◌≡◌};
ghost use Rattle.level_text.specs.FormRules as form_rules;
ghost use Rattle.tree_kinds.specs.Expanding as expanding;
ghost use Rattle.tree_kinds.specs.TreeLevels as tree_levels;

use tla_symbols::{Fix, LexKind, Rule, rule_of};
use tla_tree::{Form, helps};

/// The rule of a symbol that is built in at a place.
pub fn symbol_rule(fix: Fix, kind: LexKind) -> Option<Rule>
    ensures { result ≡ form_rules.symbol_rule fix kind }
{
    match kind {
        LexKind::Sym(op) => rule_of(op, fix),
        _ => None,
    }
}

/// The rule of a bare symbol.
pub fn bare_rule(kind: LexKind) -> Option<Rule>
    ensures { result ≡ expanding.bare_rule kind }
{
    if let Some(rule) = symbol_rule(Fix::Infix, kind) {
        return Some(rule);
    }
    if let Some(rule) = symbol_rule(Fix::Prefix, kind) {
        return Some(rule);
    }
    symbol_rule(Fix::Postfix, kind)
}

/// The rule of a form over the expressions that it is made of.
pub fn form_rule(form: Form) -> Option<Rule>
    ensures { result ≡ form_rules.form_rule form }
{
    match form {
        Form::Prefix(l) => symbol_rule(Fix::Prefix, l.kind),
        Form::Infix(l) => symbol_rule(Fix::Infix, l.kind),
        Form::Postfix(l) => symbol_rule(Fix::Postfix, l.kind),
        Form::Product
        | Form::Choose
        | Form::BoundedChoose
        | Form::SetEnumeration
        | Form::SetFilter
        | Form::SetImage
        | Form::Application
        | Form::FunctionConstructor
        | Form::FunctionSet
        | Form::Record
        | Form::RecordSet
        | Form::FieldAccess(_)
        | Form::Except
        | Form::Tuple
        | Form::FunctionDefinition(_) => Some(Rule::Plain),
        Form::Quantifier(_) | Form::IfThenElse | Form::Case | Form::JunctionList(_) => {
            Some(Rule::Boolean)
        }
        Form::TemporalQuantifier(_) => Some(Rule::Leads),
        Form::SquareAction => Some(Rule::Square),
        Form::AngleAction => Some(Rule::Angle),
        Form::Fairness(_) => Some(Rule::Fair),
        _ => None,
    }
}

/// Whether a form is judged by itself.
pub fn is_judged(form: Form) -> bool
    ensures { result ≡ tree_levels.is_judged form }
{
    match form {
        Form::FunctionDefinition(_) => true,
        Form::Parentheses | Form::Let | Form::Lambda => false,
        _ => !helps(form),
    }
}
