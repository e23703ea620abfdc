// The levels of a module, by its tree and what the modules are that it names.
ghost use Rattle.std.specs.Prelude.{◌≡◌, ◌<◌, ℕ, List as ListOf, IfOk, IfSome};
ghost use Rattle.indexmap.specs.IndexMap.{get_by_text};
ghost use Rattle.unit_grammar.specs.UnitNodes.{module_of};
ghost use Rattle.front_laws.specs.Fronts.{IsFront, Tree};
ghost use Rattle.module_model.specs.Exports.{face_outside, files_of};
ghost use Rattle.module_model.specs.Given.{AreFaces, IsReadable};
ghost use Rattle.module_model.specs.Modules.{text_of};
ghost use Rattle.module_model.specs.Resolution.{findings, outside_in};
ghost use Rattle.tree_kinds.specs.Standing.{Outside};
ghost use Rattle.module_leads.specs.Leading.{leading_in};
ghost use Rattle.module_levels.specs.Kept.{AreKept};
ghost use Rattle.written_names.specs.Names.{AreNamesOf};
ghost use Rattle.leveled_modules.specs.Leveled.{AreFilesOf, IsModuleLeveled, faces_by};

use crate::constancy::FileFaces;
use crate::start::{ModuleStart, module_start};
use indexmap::IndexMap;
use module_levels::{LevelTables, ModuleLevels, find_levels};
use module_model::{Face, Imported};
use std::alloc::Global;
use tla_tree::ModuleTree;
use tool_list::Memory;
use tree_flattener::Written;
use tree_names::ModuleText;
use written_names::WrittenNames;

/// Finds the levels of a module whose names and arities have no fault, over modules before it: its
/// faults of depth, or else of levels, and the levels of its uses. It is given the module's text, what
/// the modules are that it names, what it is itself to others, what its names mean, and by name the
/// numbers of the faces of its files: a file without a number is to it as one that is not there.
/// `Memory` comes where there was no room; what was known of modules is gone then.
pub fn level_module<'a>(
    alloc: Global,
    text: &'a ModuleText<'a>,
    tree: &'a ModuleTree,
    imported: &'a Imported,
    face: &Face,
    names: &'a WrittenNames,
    known: LevelTables,
    files: &'a IndexMap<String, usize>,
) -> Result<(LevelTables, ModuleLevels), Memory>
    requires readable { IsReadable tree.now }
    requires text { text.now ≡ text_of tree.now.source (module_of tree.now) }
    requires faces { AreFaces imported.now text.now.file }
    requires front { (name : ListOf ℕ)
        × IsFront name tree.now.source (Tree (module_of tree.now)) }
    requires face { face_outside face.now
        ≡ outside_in (files_of imported.now) tree.now.source (module_of tree.now) }
    requires names { AreNamesOf
        (findings (files_of imported.now) tree.now.source (module_of tree.now)) names.now }
    requires kept { AreKept known }
    requires files { (name : ListOf ℕ) → IfSome (get_by_text files.now name)
        (λ number. number < (leading_in known.tables.leads).count) }
    ensures kept { IfOk result (λ made. AreKept made.0) }
    ensures leveled { IfOk result (λ made. (outsides : ListOf ℕ → Outside)
        → AreFilesOf (faces_by known (get_by_text files.now)) imported.now outsides
        → IsModuleLeveled (faces_by known (get_by_text files.now)) outsides tree.now.source
        (module_of tree.now) known made.0 made.1) }
{
    let faces = FileFaces {
        leads: &known.tables.leads,
        numbers: files,
    };
    let start = module_start(alloc, text, tree, imported, face, faces)?;
    let ModuleStart {
        reader,
        own,
        symbols,
        is_constant,
    } = start;
    let written = Written {
        text,
        tree: &tree.tree,
        means: &names.means,
        implied: &names.implied,
    };
    let made = find_levels(
        alloc,
        &written,
        tree,
        reader,
        own,
        known,
        files,
        symbols,
        is_constant,
        &face.exports,
    );
    let Written {
        text: _,
        tree: _,
        means: _,
        implied: _,
    } = written;
    made
}
