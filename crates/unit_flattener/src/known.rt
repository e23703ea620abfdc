// What is known of names where a module is walked.
ghost use Rattle.std.specs.Prelude.{◌≡◌};
ghost use Rattle.indexmap.specs.IndexMap.{get_by_text};
ghost use Rattle.unit_flattener.specs.Numbers.{number_of};

use indexmap::IndexMap;
use module_leads::ModuleLeads;
use module_scope::Modules;
use name_context::Named;
use std::alloc::Global;
use tla_model::Meaning;
use tool_list::{List, Memory};
use tree_flattener::{Lead, Names};
use tree_names::Parameter;

/// Where names lead, and what modules are to their instances, where a module is walked.
#[derive(Clone, Copy)]
pub(crate) struct Known<'b, 'a> {
    pub leads: &'b ModuleLeads,
    /// The numbers of the faces of files.
    pub files: &'b IndexMap<String, usize>,
    /// The nested modules that can be named, by the numbers of their faces.
    pub modules: &'b Modules<'a, usize>,
}

impl<'b, 'a> Known<'b, 'a> {
    /// The number of the face of the module of a name.
    pub(crate) fn face(&self, module: &str) -> Option<usize>
        ensures { result ≡ number_of (get_by_text self.now.files.now) self.now.modules.now
            «module».now }
    {
        match self.modules.meaning(module) {
            None => self.files.get(module).copied(),
            Some(named) => *named,
        }
    }
}

impl<'b, 'a> Names for Known<'b, 'a> {
    ghost use Rattle.module_leads.specs.Leading.{leading_in};
    ghost use Rattle.unit_flattener.specs.Numbers.{faces_in};

    ghost leads = { λ k. (leading_in k.leads.now).leads };

    ghost faces = { λ k. faces_in (leading_in k.leads.now).faces (get_by_text k.files.now)
        k.modules.now };

    fn lead(&self, alloc: Global, meaning: &Meaning, names: &[Named<'_>]) -> Result<Lead, Memory> {
        self.leads.lead(alloc, meaning, names)
    }

    fn behind(&self, alloc: Global, module: &str, names: &[Named<'_>]) -> Result<Lead, Memory> {
        self.leads.behind(alloc, self.face(module), names)
    }

    fn parameters(&self, alloc: Global, module: &str) -> Result<List<Parameter>, Memory> {
        self.leads.parameters(alloc, self.face(module))
    }

    fn outer(&self, module: &str) -> usize {
        self.leads.outer(self.face(module))
    }

    fn is_constant(&self, module: &str) -> bool {
        self.leads.is_constant(self.face(module))
    }
}
