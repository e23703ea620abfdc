// What is found of levels and depths in a module.
ghost use Rattle.std.specs.Prelude.{◌≡◌, ◌<◌, ℕ, List as ListOf, IfOk, IfSome, OnOk, reverse};
ghost use Rattle.indexmap.specs.IndexMap.{get_by_text};
ghost use Rattle.tla_model.specs.Lexemes.{LexemesLie};
ghost use Rattle.unit_grammar.specs.UnitNodes.{HasNodes, module_of};
ghost use Rattle.front_laws.specs.Fronts.{IsFront, Tree};
ghost use Rattle.module_model.specs.Exports.{exports_of, files_of};
ghost use Rattle.module_model.specs.Modules.{text_of};
ghost use Rattle.module_model.specs.Resolution.{exports_in};
ghost use Rattle.tree_kinds.specs.Standing.{Outside};
ghost use Rattle.flattened_trees.specs.Questions.{Question};
ghost use Rattle.tree_flattener.specs.Steps.{AreAsked};
ghost use Rattle.kind_text.specs.FlatModule.{IsOrdered};
ghost use Rattle.level_facts.specs.Facts.{IsFacts};
ghost use Rattle.node_depths.specs.Capped.{IsDepths};
ghost use Rattle.tree_names.specs.Parameters.{entries_in};
ghost use Rattle.module_leads.specs.Leading.{leading_in};
ghost use Rattle.unit_scope.specs.Steps.{IsUnread};
ghost use Rattle.unit_flattener.specs.Modules.{AreOwnOf};
ghost use Rattle.unit_flattener.specs.Numbers.{file_faces};
ghost use Rattle.module_levels.specs.Kept.{AreBehind, AreKept, IsAnswered, IsLeveled};

use crate::nested::nested_modules_close;
use crate::tables::LevelTables;
use found_levels::{deep_answers, depth_faults, level_answers, level_faults, levels_of_uses};
use indexmap::IndexMap;
use std::alloc::Global;
use tla_model::{Diagnostic, Level, Meaning, NameTable};
use tla_tree::ModuleTree;
use tool_list::{List, Memory};
use tree_flattener::Written;
use tree_names::Parameter;
use unit_flattener::{Flattened, flatten_module};
use unit_scope::ModuleReader;

/// What is found of levels and depths in a module.
#[derive(Drop)]
pub struct ModuleLevels {
    /// All faults of depth, or else all of levels, in the order of the text.
    pub faults: List<Diagnostic>,
    /// The level of each use that means a declaration, by where it begins, in bytes. Nothing is
    /// said of a module with faults.
    pub levels: IndexMap<u32, Level>,
    /// The number of what the module is to its instances.
    pub face: usize,
}

// What the nodes that are new to the tables answer to what is asked of them, for the module whose
// face has this number. Kinds are found only where nothing is too deep: to find one takes as many
// calls within each other as the node is deep.
fn judge(alloc: Global, known: &mut LevelTables, face: usize) -> Result<ModuleLevels, Memory>
    requires behind { AreBehind known.old }
    ensures tables { known.new.tables ≡ known.old.tables }
    ensures ordered { IsOrdered known.new.tables.state.flat }
    ensures facts { OnOk result (IsFacts known.new.tables.state.flat known.new.facts) }
    ensures depths { OnOk result (IsDepths known.new.tables.state.flat
        known.new.depths.nodes.items) }
    ensures face { IfOk result (λ found. found.face ≡ face) }
    ensures found { IfOk result (λ found. (asked : ListOf Question)
        → AreAsked known.old.tables.state.frames.items known.old.tables.state.asked.items asked
        → IsAnswered known.old.tables.state.flat asked found) }
{
    let flat = known.tables.state.flat.as_flat();
    known.facts.extend(flat)?;
    known.depths.extend(flat)?;
    let asked = known.tables.state.asked.as_slice();
    let frames = known.tables.state.frames.as_slice();
    let deep = deep_answers(alloc, &known.depths, flat, asked)?;
    if !deep.is_empty() {
        return Ok(ModuleLevels {
            faults: depth_faults(alloc, deep.as_slice())?,
            levels: IndexMap::new(alloc),
            face,
        });
    }
    let found = level_answers(alloc, &mut known.facts, flat, frames, asked)?;
    let faults = level_faults(alloc, found.as_slice())?;
    let levels = levels_of_uses(alloc, found.as_slice())?;
    Ok(ModuleLevels {
        faults,
        levels,
        face,
    })
}

/// Finds the levels of a module whose symbols are given with their names, and what it exports, over
/// modules before it. The numbers of what its imports are to their instances are given by name, and
/// the own symbols of its nested modules, those of the first one last. The reader stands before what
/// the module extends.
pub fn find_levels<'a>(
    alloc: Global,
    written: &Written<'a>,
    tree: &ModuleTree,
    reader: ModuleReader<'a>,
    own: Vec<List<Meaning>>,
    known: LevelTables,
    files: &'a IndexMap<String, usize>,
    symbols: List<Parameter>,
    is_constant: bool,
    exports: &NameTable,
) -> Result<(LevelTables, ModuleLevels), Memory>
    requires front { (name : ListOf ℕ)
        × IsFront name tree.now.source (Tree (module_of tree.now)) }
    requires nodes { HasNodes tree.now }
    requires tree { written.now.tree.now ≡ tree.now.tree }
    requires lie { LexemesLie written.now.text.now.source (module_of tree.now) }
    requires text { written.now.text.now ≡ text_of tree.now.source (module_of tree.now) }
    requires unread { IsUnread written.now.text.now reader.scope.imported.now
        (module_of tree.now) reader }
    requires own { AreOwnOf written.now.text.now reader.scope.imported.now tree.now.source
        (module_of tree.now) (reverse own.items) }
    requires kept { AreKept known }
    requires exports { exports_of exports.now
        ≡ exports_in (files_of reader.scope.imported.now) tree.now.source (module_of tree.now) }
    requires files { (name : ListOf ℕ) → IfSome (get_by_text files.now name)
        (λ number. number < (leading_in known.tables.leads).count) }
    ensures kept { IfOk result (λ made. AreKept made.0) }
    ensures leveled { IfOk result (λ made. (outsides : ListOf ℕ → Outside)
        → (λ name. (outsides name).view) ≡ files_of reader.entry.scope.imported.now
        → IsLeveled written.now tree.now.source (module_of tree.now)
        (file_faces (leading_in known.tables.leads).faces (get_by_text files.now)) outsides
        known made.0 (entries_in symbols) is_constant made.1) }
{
    nested_modules_close();
    let LevelTables {
        tables,
        facts,
        depths,
    } = known;
    let Flattened { tables, face } = flatten_module(
        alloc,
        written,
        tree,
        reader,
        own,
        tables,
        files,
        symbols,
        is_constant,
        exports,
    )?;
    let mut known = LevelTables {
        tables,
        facts,
        depths,
    };
    let found = judge(alloc, &mut known, face)?;
    known.tables.state.asked.clear();
    known.tables.state.frames.clear();
    Ok((known, found))
}
