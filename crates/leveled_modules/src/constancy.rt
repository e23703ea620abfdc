// Whether a module is constant, by the faces of the files that it names.
ghost use Rattle.std.specs.Prelude.{◌≡◌, IfOk};
ghost use Rattle.indexmap.specs.IndexMap.{get_by_text};
ghost use Rattle.unit_grammar.specs.UnitNodes.{HasNodes, module_of};
ghost use Rattle.tla_model.specs.Lexemes.{LexemesLie};
ghost use Rattle.module_model.specs.Modules.{text_of};
ghost use Rattle.module_leads.specs.Leading.{leading_in};
ghost use Rattle.module_constancy.specs.Places.{IsConstancyOf};
ghost use Rattle.module_levels.specs.Passed.{file_faces};
ghost use Rattle.leveled_modules.specs.Parts.{constant_files};

use indexmap::IndexMap;
use module_constancy::{Files, is_constant};
use module_leads::ModuleLeads;
use std::alloc::Global;
use tla_tree::ModuleTree;
use tool_list::Memory;
use tree_names::ModuleText;

/// What files are to their instances, by the numbers of their faces. A file without a number is
/// none.
#[derive(Clone, Copy)]
pub(crate) struct FileFaces<'a> {
    pub leads: &'a ModuleLeads,
    pub numbers: &'a IndexMap<String, usize>,
}

impl<'a> Files for FileFaces<'a> {
    ghost use Rattle.indexmap.specs.IndexMap.{get_by_text};
    ghost use Rattle.module_leads.specs.Leading.{leading_in};
    ghost use Rattle.module_levels.specs.Passed.{file_faces};
    ghost use Rattle.leveled_modules.specs.Parts.{constant_files};

    ghost constant = { λ files. constant_files (file_faces (leading_in files.leads.now).faces
        (get_by_text files.numbers.now)) };

    fn is_constant(&self, name: &str) -> bool {
        self.leads.is_constant(self.numbers.get(name).copied())
    }
}

/// Whether a module is constant, over files that have these faces.
pub(crate) fn is_constant_over<'a>(
    alloc: Global,
    files: FileFaces<'_>,
    text: &ModuleText<'a>,
    tree: &ModuleTree,
) -> Result<bool, Memory>
    requires nodes { HasNodes tree.now }
    requires lie { LexemesLie text.now.source (module_of tree.now) }
    requires text { text.now ≡ text_of tree.now.source (module_of tree.now) }
    ensures { IfOk result (IsConstancyOf
        (constant_files (file_faces (leading_in files.entry.leads.now).faces
        (get_by_text files.entry.numbers.now))) tree.now.source (module_of tree.now)) }
{
    let constant = is_constant(alloc, &files, text, tree)?;
    Ok(constant)
}
