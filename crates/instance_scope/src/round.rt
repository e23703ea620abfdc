// What is round the trees of a place, by what is known there.
ghost use Rattle.std.specs.Prelude.{◌≡◌, IfOk};
ghost use Rattle.std.specs.Option.{option_copied};
ghost use Rattle.module_model.specs.Exports.{entry_of, instantiable};
ghost use Rattle.name_context.specs.AsTables.{meant_by};
ghost use Rattle.tree_names.specs.Parameters.{entries_in};
ghost use Rattle.instance_leads.specs.Leading.{behind_at, exports_shown, leads_on, leads_shown, parameters_shown};
ghost use Rattle.instance_scope.specs.Scoped.{around_in};

use crate::scope::Scope;
use instance_leads::{
    Ended, Kind, NamedModule, Numbers, copied, exports_in, face_parameters, kept_among, kept_in,
    led_on, meant_among, meant_in, nested_parameters,
};
use name_context::Named;
use std::alloc::Global;
use tla_model::Meaning;
use tool_list::{List, Memory};
use tree_names::Parameter;
use tree_scope::Surround;
use tree_tasks::Held;

/// What is round the trees of a place: what is known there, and the modules that can be named.
#[derive(Clone, Copy)]
pub struct Round<'s, 'a> {
    pub scope: &'s Scope<'a>,
    pub modules: &'s Numbers<'a>,
}

// What a name means among the parameters of a nested module.
fn nested_parameter(ended: Option<&Ended<'_>>, name: Named<'_>) -> Result<Option<Meaning>, Memory>
    ensures { IfOk result (λ meaning. meaning
        ≡ entry_of (parameters_shown (option_copied ended.entry)) (meant_by name.entry)) }
{
    match ended {
        Some(ended) => copied(kept_among(Kind::Parameter, &ended.parameters, name)),
        None => Ok(None),
    }
}

// What a name means behind an instance of a nested module.
fn nested_entry(ended: Option<&Ended<'_>>, name: Named<'_>) -> Result<Option<Meaning>, Memory>
    ensures { IfOk result (λ meaning. meaning
        ≡ entry_of (instantiable (exports_shown (option_copied ended.entry)))
        (meant_by name.entry)) }
{
    match ended {
        Some(ended) => copied(kept_among(Kind::Instantiable, &ended.exports, name)),
        None => Ok(None),
    }
}

// Where a name leads that a nested module exports.
fn nested_onward<'a>(ended: Option<&Ended<'a>>, name: Named<'_>) -> Held<'a>
    ensures { result ≡ leads_on (leads_shown (option_copied ended.entry))
        (entry_of (exports_shown (option_copied ended.entry)) (meant_by name.entry)) }
{
    match ended {
        Some(ended) => ended.instances.on(meant_among(&ended.exports, name)),
        None => Held::Nowhere,
    }
}

// All parameters of a nested module.
fn all_nested(alloc: Global, ended: Option<&Ended<'_>>) -> Result<List<Parameter>, Memory>
    ensures { IfOk result (λ found. entries_in found
        ≡ parameters_shown (option_copied ended.entry)) }
{
    match ended {
        Some(ended) => nested_parameters(alloc, &ended.parameters),
        None => Ok(List::new(alloc)),
    }
}

impl<'s, 'a> Surround<'a> for Round<'s, 'a> {
    ghost around = { λ r. around_in r.scope.now r.modules.now };

    ghost held = { λ r at. behind_at r.scope.now.nested.items at };

    fn parameter(&self, module: &str, name: Named<'_>) -> Result<Option<Meaning>, Memory> {
        match self.scope.module_of(self.modules, module) {
            NamedModule::Missing => Ok(None),
            NamedModule::Imported { face } => {
                copied(kept_in(Kind::Parameter, exports_in(face), name))
            }
            NamedModule::Nested { number } => nested_parameter(self.scope.ended(number), name),
        }
    }

    fn parameters(&self, alloc: Global, module: &str) -> Result<List<Parameter>, Memory> {
        match self.scope.module_of(self.modules, module) {
            NamedModule::Missing => Ok(List::new(alloc)),
            NamedModule::Imported { face } => face_parameters(alloc, face),
            NamedModule::Nested { number } => all_nested(alloc, self.scope.ended(number)),
        }
    }

    fn behind(&self, meaning: &Meaning) -> Held<'a> {
        self.scope.behind(meaning)
    }

    fn entry(&self, at: Held<'a>, name: Named<'_>) -> Result<Option<Meaning>, Memory> {
        match at {
            Held::Nowhere => Ok(None),
            Held::Imported { face } => copied(kept_in(Kind::Instantiable, exports_in(face), name)),
            Held::Reached { exports, .. } => copied(kept_in(Kind::Instantiable, exports, name)),
            Held::Nested { number } => nested_entry(self.scope.ended(number), name),
        }
    }

    fn onward(&self, at: Held<'a>, name: Named<'_>) -> Held<'a> {
        match at {
            Held::Nowhere => Held::Nowhere,
            Held::Imported { face } => led_on(face, meant_in(exports_in(face), name)),
            Held::Reached { face, exports } => { led_on(face, meant_in(exports, name)) }
            Held::Nested { number } => nested_onward(self.scope.ended(number), name),
        }
    }

    fn path_number(&self, start: u32) -> u32 {
        self.scope.path_number(start)
    }
}
