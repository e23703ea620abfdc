// Names that are put into a context.
ghost use Rattle.std.specs.Prelude.{◌≡◌, ◌++◌, None, OnOk};
ghost use Rattle.tla_model.specs.Contexts as contexts;
ghost use Rattle.tla_model.specs.Entities as entities;
ghost use Rattle.tla_model.specs.Lexemes.{LiesIn};
ghost use Rattle.tla_model.specs.Scopes as scopes;
ghost use Rattle.tla_model.specs.Tables as tables;
ghost use Rattle.name_context.specs.AsTables.{context_of};
ghost use Rattle.tree_names.specs.BindersInText.{BindersLie};

use crate::text::ModuleText;
use name_context::Context;
use tla_model::{Binder, Finding};
use tla_symbols::Lexeme;
use tool_list::{List, Memory};

/// Finds fault with a declaring name where it is taken.
pub fn refuse<'a>(
    text: &ModuleText<'a>,
    context: &Context<'a>,
    name: Lexeme,
    findings: &mut List<Finding>,
) -> Result<(), Memory>
    requires { LiesIn text.now.source name }
    ensures { OnOk result (findings.new
        ≡ findings.old ++ scopes.taken_findings text.now (context_of context.now) name) }
{
    if context.get(text.name_of(name)).is_some() {
        findings.push(Finding::Taken { at: name })?;
    }
    Ok(())
}

/// Puts a declared or bound name into a context, unless it is taken there.
pub fn bind<'a>(
    text: &ModuleText<'a>,
    context: &mut Context<'a>,
    binder: Binder,
) -> Result<(), Memory>
    requires { LiesIn text.now.source binder.name }
    ensures { OnOk result (context_of context.new
        ≡ contexts.bind text.now (context_of context.old) binder) }
{
    let name = text.name_of(binder.name);
    let meaning = text.meaning(binder)?;
    context.put(name, Some(meaning))
}

/// Takes a name that is being defined: it can't be used yet.
pub fn reserve<'a>(
    text: &ModuleText<'a>,
    context: &mut Context<'a>,
    name: Lexeme,
) -> Result<(), Memory>
    requires { LiesIn text.now.source name }
    ensures { OnOk result (context_of context.new
        ≡ tables.put (context_of context.old) (entities.name_of text.now.source name) None) }
{
    context.put(text.name_of(name), None)
}

/// Puts names into a context one after another, and finds fault with those that are taken.
pub fn bind_all<'a>(
    text: &ModuleText<'a>,
    context: &mut Context<'a>,
    binders: List<Binder>,
    findings: &mut List<Finding>,
) -> Result<(), Memory>
    requires { BindersLie text.now.source binders }
    ensures context { OnOk result (context_of context.new
        ≡ contexts.bind_all text.now (context_of context.old) binders) }
    ensures findings { OnOk result (findings.new
        ≡ findings.old ++ scopes.all_refused text.now (context_of context.old) binders) }
{
    for binder in binders.into_vec() {
        refuse(text, context, binder.name, findings)?;
        bind(text, context, binder)?;
    }
    Ok(())
}
