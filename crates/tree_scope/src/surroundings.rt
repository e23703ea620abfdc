// What is round a walk.
ghost use Rattle.std.specs.Prelude.{◌≡◌, [], suc, Some, IfOk};
ghost use Rattle.tla_model.specs.Entities.{place_in};
ghost use Rattle.module_model.specs.Exports as exports;
ghost use Rattle.module_model.specs.Exports.{Behind};
ghost use Rattle.module_model.specs.TreeFindings.{Surroundings};
ghost use Rattle.name_context.specs.AsTables.{meant_by};
ghost use Rattle.tree_names.specs.Parameters.{entries_in};
ghost use Rattle.tree_tasks.specs.declared.held.Held.{Held as Spot};

use name_context::Named;
use std::alloc::Global;
use tla_model::Meaning;
use tool_list::{List, Memory};
use tree_names::Parameter;
use tree_tasks::Held;

/// What a walk asks of what is round it: of modules by their names, of what stands behind
/// instances, and where paths begin. `Memory` comes where there is no room for an answer.
pub trait Surround<'a> {
    /// What it answers by.
    ghost around: { Self → Surroundings };

    /// What stands behind a place to which a path has come.
    ghost held: { Self → Spot → Behind };

    /// What a name means among the parameters of a module: the constants and variables that it
    /// declares or extends.
    fn parameter(&self, module: &str, name: Named<'_>) -> Result<Option<Meaning>, Memory>
        ensures { IfOk result (λ meaning. meaning
            ≡ exports.entry_of ((around self.now).named module.now).parameters
            (meant_by name.entry)) };

    /// All parameters of a module, in their order.
    fn parameters(&self, alloc: Global, module: &str) -> Result<List<Parameter>, Memory>
        ensures { IfOk result (λ parameters. entries_in parameters
            ≡ ((around self.now).named module.now).parameters) };

    /// Where a path comes to whose first name means this.
    fn behind(&self, meaning: &Meaning) -> Held<'a>
        ensures { held self.now result
            ≡ exports.behind_meaning (around self.now).known (Some meaning.now) };

    /// What a name means at a place to which a path has come.
    fn entry(&self, at: Held<'a>, name: Named<'_>) -> Result<Option<Meaning>, Memory>
        ensures { IfOk result (λ meaning. meaning
            ≡ exports.entry_of (held self.now at.entry []) (meant_by name.entry)) };

    /// Where a path comes to by one name more.
    fn onward(&self, at: Held<'a>, name: Named<'_>) -> Held<'a>
        ensures { held self.now result ≡ exports.onward (held self.now at.entry)
            (meant_by name.entry) };

    /// The number of the path that begins there, from 1.
    fn path_number(&self, start: u32) -> u32
        ensures { result ≡ suc (place_in (around self.now).paths start) };
}
