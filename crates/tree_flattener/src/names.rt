// What is known of names that a tree does not declare.
ghost use Rattle.std.specs.Prelude.{◌≡◌, ℕ, List, IfOk, map};
ghost use Rattle.name_context.specs.AsTables.{meant_by};
ghost use Rattle.tree_names.specs.Parameters.{entries_in};
ghost use Rattle.flattened_trees.specs.Leads.{FlatFace, Leads};
ghost use Rattle.tree_flattener.specs.Found.{lead_in};

use flattened_trees::End;
use name_context::Named;
use std::alloc::Global;
use tla_model::Meaning;
use tool_list::{List, Memory};
use tree_names::Parameter;

/// Where a name leads, and through which instances.
#[derive(Drop)]
pub struct Lead {
    pub path: Vec<usize>,
    pub end: End,
}

/// What is known of names that a tree does not declare itself, and of modules that INSTANCE names.
pub trait Names {
    /// Where meanings lead, by the names that follow on a path.
    ghost leads: { Self → Leads };

    /// What modules are to their instances.
    ghost faces: { Self → List ℕ → FlatFace };

    /// Where a meaning leads at the names that follow.
    fn lead(&self, alloc: Global, meaning: &Meaning, names: &[Named<'_>]) -> Result<Lead, Memory>
        ensures { IfOk result (λ lead. lead_in lead
            ≡ leads self.now meaning.now (map meant_by names.now)) };

    /// Where names lead behind an instance of a module.
    fn behind(&self, alloc: Global, module: &str, names: &[Named<'_>]) -> Result<Lead, Memory>
        ensures { IfOk result (λ lead. lead_in lead
            ≡ (faces self.now «module».now).leads (map meant_by names.now)) };

    /// The symbols of a module that INSTANCE replaces, in their order.
    fn parameters(&self, alloc: Global, module: &str) -> Result<List<Parameter>, Memory>
        ensures { IfOk result (λ parameters. entries_in parameters
            ≡ (faces self.now «module».now).parameters) };

    /// How many symbols of modules round a module come before its own.
    fn outer(&self, module: &str) -> usize
        ensures { result ≡ (faces self.now «module».now).outer };

    /// Whether a module is constant.
    fn is_constant(&self, module: &str) -> bool
        ensures { result ≡ (faces self.now «module».now).is_constant };
}
