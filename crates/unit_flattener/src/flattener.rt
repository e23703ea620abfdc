// Where a module is walked.
ghost use Rattle.std.specs.Prelude.{◌≡◌};

use crate::modules::Tables;
use crate::scope::ModuleNumbers;
use indexmap::IndexMap;
use module_leads::ModuleLeads;
use tla_model::Meaning;
use tool_list::List;
use tree_flattener::Flattening;
use unit_scope::ModuleReader;

/// A module that is walked, at one of its units: what is read, where names lead, and what was made.
/// Contracts say that it is where the definitions say (`IsWalking`). After `Memory` nothing is said
/// of it.
pub struct UnitFlattener<'a> {
    /// What names mean.
    pub reader: ModuleReader<'a>,
    /// Where they lead, and what modules are to their instances.
    pub leads: ModuleLeads,
    /// The numbers of the faces of files.
    pub files: &'a IndexMap<String, usize>,
    /// The modules that can be named, by the numbers of their faces.
    pub modules: ModuleNumbers<'a>,
    /// The own symbols of the nested modules that begin ahead, those of the next one last.
    pub own: Vec<List<Meaning>>,
    /// What was made, and what is asked of it.
    pub state: Flattening,
    /// The number of the frame of the module that is read.
    pub frame: usize,
    /// The same of the modules round it, the innermost one last.
    pub round: Vec<usize>,
}

// By hand, so that a proof meets one call wherever a value ends.
impl<'a> Drop for UnitFlattener<'a> {
    fn drop(self) {
        let UnitFlattener {
            reader: _,
            leads: _,
            files: _,
            modules: _,
            own: _,
            state: _,
            frame: _,
            round: _,
        } = self;
    }
}

impl<'a> UnitFlattener<'a> {
    /// What outlives a module: where names lead, and what was made.
    pub(crate) fn into_tables(self) -> Tables
        ensures leads { result.leads ≡ self.entry.leads }
        ensures state { result.state ≡ self.entry.state }
    {
        let UnitFlattener {
            reader: _,
            leads,
            files: _,
            modules: _,
            own: _,
            state,
            frame: _,
            round: _,
        } = self;
        Tables { leads, state }
    }
}
