// A text whose trees become nodes.
ghost use Rattle.std.specs.Prelude.{◌≡◌, nat_eq};
ghost use Rattle.std.specs.Option.{option_copied};
ghost use Rattle.indexmap.specs.IndexMap.{get};
ghost use Rattle.tree_flattener.specs.Found.{listed_in};

use indexmap::IndexMap;
use tla_model::Meaning;
use tla_tree::Tree;
use tool_list::List;
use tree_names::ModuleText;

/// A text whose trees become nodes, with what its names mean, by where they begin.
pub struct Written<'a> {
    pub text: &'a ModuleText<'a>,
    pub tree: &'a Tree,
    /// What names and symbols mean, by where these begin.
    pub means: &'a IndexMap<u32, Meaning>,
    /// The symbols that stand in for parameters which an INSTANCE does not replace, in their order,
    /// by where the name of its module begins.
    pub implied: &'a IndexMap<u32, List<Meaning>>,
}

impl<'a> Written<'a> {
    // What the name means that begins there.
    pub(crate) fn meaning(&self, start: u32) -> Option<&'a Meaning>
        ensures { option_copied result ≡ get nat_eq self.now.means.now start }
    {
        self.means.get(&start)
    }

    // The symbols that stand in where the name of a module begins.
    pub(crate) fn implied(&self, start: u32) -> &'a [Meaning]
        ensures { result.now
            ≡ listed_in (get nat_eq self.now.implied.now start) }
    {
        match self.implied.get(&start) {
            Some(meanings) => meanings.as_slice(),
            None => &[],
        }
    }
}
