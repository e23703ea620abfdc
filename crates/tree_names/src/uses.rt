// Uses of names and symbols.
ghost use Rattle.std.specs.Prelude.{◌≡◌, ◌++◌, IfOk, OnOk};
ghost use Rattle.tla_model.specs.Contexts as contexts;
ghost use Rattle.tla_model.specs.Entities as entities;
ghost use Rattle.tla_model.specs.Lexemes.{LiesIn};
ghost use Rattle.tla_model.specs.Scopes as scopes;
ghost use Rattle.tla_model.specs.Tables.{Symbol};
ghost use Rattle.name_context.specs.AsTables.{context_of, meant_by};
ghost use Rattle.tree_names.specs.FunctionNames.{function_name};

use crate::scopes::bind;
use crate::text::ModuleText;
use name_context::{Context, Named};
use tla_model::{Binder, Entity, Finding, Meaning};
use tla_symbols::{Fix, LexKind, Lexeme, Op, definable};
use tool_list::{List, Memory};

// Whether a symbol means what a module defines it to be.
fn is_free(op: Op) -> bool
    ensures { result ≡ scopes.is_free op }
{
    definable(op, Fix::Prefix) || definable(op, Fix::Infix) || definable(op, Fix::Postfix)
}

// The symbol of a prefix operator: that of minus is `-.`.
fn prefixed(op: Op) -> Op
    ensures { result ≡ scopes.prefixed op }
{
    match op {
        Op::Minus => Op::Negative,
        _ => op,
    }
}

/// What a name means, for a use.
pub fn meaning_of<'a>(context: &Context<'a>, name: Named<'_>) -> Result<Option<Meaning>, Memory>
    ensures { IfOk result (λ meaning. meaning
        ≡ contexts.meaning_of (context_of context.now) (meant_by name.entry)) }
{
    match context.get(name) {
        Some(Some(meaning)) => Ok(Some(meaning.copied()?)),
        _ => Ok(None),
    }
}

/// Appends what a use is found to mean.
pub fn push_use(
    findings: &mut List<Finding>,
    at: Lexeme,
    meaning: Option<Meaning>,
) -> Result<(), Memory>
    ensures { OnOk result (findings.new ≡ findings.old ++ scopes.use_findings at meaning) }
{
    match meaning {
        Some(meaning) => findings.push(Finding::Means { at, meaning }),
        None => findings.push(Finding::Unknown { at }),
    }
}

/// Looks at the use of an identifier.
pub fn use_name<'a>(
    text: &ModuleText<'a>,
    context: &Context<'a>,
    at: Lexeme,
    findings: &mut List<Finding>,
) -> Result<(), Memory>
    requires { LiesIn text.now.source at }
    ensures { OnOk result (findings.new
        ≡ findings.old
        ++ scopes.use_findings at
        (contexts.meaning_of (context_of context.now) (entities.name_of text.now.source at))) }
{
    let meaning = meaning_of(context, text.name_of(at))?;
    push_use(findings, at, meaning)
}

// Looks at the use of a symbol, unless it is built in.
fn use_op<'a>(
    context: &Context<'a>,
    at: Lexeme,
    op: Op,
    findings: &mut List<Finding>,
) -> Result<(), Memory>
    ensures { OnOk result (findings.new
        ≡ findings.old ++ scopes.used_as (context_of context.now) at op) }
{
    if is_free(op) {
        let meaning = meaning_of(context, Named::Symbol(op))?;
        push_use(findings, at, meaning)?;
    }
    Ok(())
}

/// Looks at the use of a symbol.
pub fn use_symbol<'a>(
    context: &Context<'a>,
    at: Lexeme,
    findings: &mut List<Finding>,
) -> Result<(), Memory>
    ensures { OnOk result (findings.new
        ≡ findings.old ++ scopes.symbol_findings (context_of context.now) scopes.itself at
        at.kind) }
{
    match at.kind {
        LexKind::Sym(op) => use_op(context, at, op, findings),
        _ => Ok(()),
    }
}

/// Looks at the use of a symbol before its operand.
pub fn use_prefix<'a>(
    context: &Context<'a>,
    at: Lexeme,
    findings: &mut List<Finding>,
) -> Result<(), Memory>
    ensures { OnOk result (findings.new
        ≡ findings.old ++ scopes.symbol_findings (context_of context.now) scopes.prefixed at
        at.kind) }
{
    match at.kind {
        LexKind::Sym(op) => use_op(context, at, prefixed(op), findings),
        _ => Ok(()),
    }
}

/// Puts the name of a function into the context of its body, as a bound name.
pub fn bind_function<'a>(
    text: &ModuleText<'a>,
    context: &mut Context<'a>,
    name: Lexeme,
) -> Result<(), Memory>
    requires { LiesIn text.now.source name }
    ensures { OnOk result (context_of context.new
        ≡ contexts.bind text.now (context_of context.old) (function_name name)) }
{
    let entity = Entity::Bound { state: false };
    bind(text, context, Binder { name, entity })
}
