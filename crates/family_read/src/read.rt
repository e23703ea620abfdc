// The modules of a family with what they need.
ghost use Rattle.std.specs.Prelude.{◌≡◌, ◌<◌, ◌^◌, ℕ, List as ListOf, IfOk, IfErr, IfSome, OnOk, length, map, sum_by, take, unwrap_or, []};
ghost use Rattle.std.specs.List.{AllByRecursion, fold};
ghost use Rattle.unit_grammar.specs.Units.{ModuleUnits};
ghost use Rattle.unit_grammar.specs.UnitNodes.{module_of};
ghost use Rattle.module_model.specs.Given.{IsReadable};
ghost use Rattle.front_laws.specs.Fronts as fronts;
ghost use Rattle.front_laws.specs.Fronts.{IsFront, IsTree, readable_len};
ghost use Rattle.tla_front.specs.Faults.{IsFrontFault, IsFaultPlaced};
ghost use Rattle.tla_model.specs.Entities.{declaring};
ghost use Rattle.tla_model.specs.Lexemes.{LexemesLie};
ghost use Rattle.tla_model.specs.Lexemes as lexemes_of;
ghost use Rattle.std_modules.specs.StdTexts.{std_text};
ghost use Rattle.family_facts.specs.Family.{Member};
ghost use Rattle.family_facts.specs.Verdicts.{AreDistinct, built_in, family_of, member_of};
ghost use Rattle.family_tables.specs.Keeping.{AreRead};
ghost use Rattle.family_tables.specs.Modules as modules_of;
ghost use Rattle.family_tables.specs.Modules.{IsTreeOf, IsModule, AreModules, added};

use family_facts::File;
use family_tables::{Module, Reading, SharedTree, Table};
use module_graph::{imports_are_lexemes, lexemes_lie_names, named_modules};
use std::alloc::Global;
use std_modules::{STD_NAMES, std_text};
use tla_front::{FrontError, front};
use tla_model::spelled;
use tla_symbols::Lexeme;
use tla_tree::ModuleTree;
use tool_list::{Chars, List, Memory};

// The front of a module, with what is asked of its lexemes.
fn read_front(alloc: Global, name: &str, bytes: &[u8]) -> Result<ModuleTree, FrontError>
    requires { length bytes.now < 2 ^ 31 }
    ensures tree { IfOk result (λ tree. (found : ModuleUnits)
        × IsFront name.now bytes.now (fronts.Tree found) × IsTree tree found bytes.now) }
    ensures lexemes { IfOk result (λ tree. LexemesLie bytes.now (module_of tree)) }
    ensures few { IfOk result (λ tree. length (declaring (module_of tree).units) < 2 ^ 32) }
    ensures fault { IfErr result (λ error. IsFrontFault name.now bytes.now error) }
    ensures placed { IfErr result
        (λ error. IsFaultPlaced (take (readable_len bytes.now) bytes.now) error) }
{
    front(alloc, name, bytes)
}

// The bytes of lexemes.
fn spellings(alloc: Global, source: &str, lexemes: &[Lexeme]) -> Result<List<Chars>, Memory>
    requires { AllByRecursion (lexemes_of.LiesIn source.now) lexemes.now }
    ensures { IfOk result (λ names. names ≡ map (lexemes_of.spelled source.now) lexemes.now) }
{
    let mut names = List::new(alloc);
    for lexeme in lexemes {
        names.push(Chars::from_str(alloc, spelled(source, lexeme))?)?;
    }
    Ok(names)
}

// The names of the modules that a module needs.
fn needs_of(alloc: Global, tree: &ModuleTree) -> Result<List<Chars>, Memory>
    requires { IsReadable tree.now }
    ensures { IfOk result (λ names. names ≡ modules_of.needs_of tree.now) }
{
    lexemes_lie_names();
    imports_are_lexemes();
    let named = named_modules(alloc, tree)?;
    spellings(alloc, tree.source.as_str(), named.needed.as_slice())
}

// The same names.
fn copies(alloc: Global, names: &[Chars]) -> Result<List<Chars>, Memory>
    ensures { IfOk result (λ copies. copies ≡ names.now) }
{
    let mut copies = List::new(alloc);
    for name in names {
        copies.push(name.copied()?)?;
    }
    Ok(copies)
}

// The module that a tree is.
fn module_of_tree(alloc: Global, tree: SharedTree) -> Result<Module, Memory>
    ensures { (name bytes : ListOf ℕ) → IsTreeOf name bytes tree
        → IfOk result (IsModule name bytes) }
{
    let needs = copies(alloc, tree.needs().as_slice())?;
    Ok(Module {
        reading: Reading::Tree(tree),
        needs,
    })
}

// The tree that was kept of a module of this name, if it has these bytes.
fn kept_tree(
    kept: &Table<SharedTree>,
    name: &str,
    bytes: &[u8],
) -> Result<Option<SharedTree>, Memory>
    requires { AreRead kept.now }
    ensures { IfOk result (λ tree. IfSome tree (IsTreeOf name.now bytes.now)) }
{
    let Some(tree) = kept.get(name) else {
        return Ok(None);
    };
    if tree.tree().source.as_str().as_bytes() != bytes {
        return Ok(None);
    }
    Ok(Some(tree.copied()?))
}

// The module of a name with these bytes. It is read unless its tree was kept.
fn read_module(
    alloc: Global,
    kept: &Table<SharedTree>,
    name: &str,
    bytes: &[u8],
) -> Result<Module, Memory>
    requires small { length bytes.now < 2 ^ 31 }
    requires read { AreRead kept.now }
    ensures { IfOk result (IsModule name.now bytes.now) }
{
    if let Some(tree) = kept_tree(kept, name, bytes)? {
        let module = module_of_tree(alloc, tree)?;
        return Ok(module);
    }
    match read_front(alloc, name, bytes) {
        Ok(tree) => {
            let needs = needs_of(alloc, &tree)?;
            let tree = SharedTree::new(alloc, tree, needs)?;
            let module = module_of_tree(alloc, tree)?;
            Ok(module)
        }
        Err(FrontError::Fault(fault)) => Ok(Module {
            reading: Reading::Fault(fault),
            needs: List::new(alloc),
        }),
        Err(FrontError::Memory) => Err(Memory),
    }
}

// The modules of files.
fn read_files(
    alloc: Global,
    kept: &Table<SharedTree>,
    files: &[File],
) -> Result<Table<Module>, Memory>
    requires read { AreRead kept.now }
    requires distinct { AreDistinct files.now }
    requires small { sum_by (λ file. length file.bytes) files.now < 2 ^ 31 }
    ensures { IfOk result (λ modules. AreModules (map member_of files.now) modules) }
{
    let mut modules = Table::new(alloc);
    for file in files {
        let name = file.name.as_str();
        let module = read_module(alloc, kept, name, file.bytes.as_slice())?;
        modules.add(alloc, name, module)?;
    }
    Ok(modules)
}

// Adds the built-in module of a name, unless a module has this name.
fn add_built_in(
    alloc: Global,
    kept: &Table<SharedTree>,
    modules: &mut Table<Module>,
    name: &str,
) -> Result<(), Memory>
    requires read { AreRead kept.now }
    requires small { length (unwrap_or (std_text name.now) []) < 2 ^ 31 }
    ensures { (members : ListOf Member) → AreModules members modules.old
        → OnOk result (AreModules (added members (built_in name.now)) modules.new) }
{
    if modules.get(name).is_some() {
        return Ok(());
    }
    let text = std_text(name).unwrap_or("");
    let module = read_module(alloc, kept, name, text.as_bytes())?;
    modules.add(alloc, name, module)?;
    Ok(())
}

// Adds the built-in modules of these names, but for those whose name a module has.
fn add_all(
    alloc: Global,
    kept: &Table<SharedTree>,
    modules: &mut Table<Module>,
    names: &[&'static str],
) -> Result<(), Memory>
    requires read { AreRead kept.now }
    requires small { AllByRecursion (λ name. length (unwrap_or (std_text name.now) [])
        < 2 ^ 31) names.now }
    ensures { (members : ListOf Member) → AreModules members modules.old
        → OnOk result
        (AreModules (fold (λ found name. added found (built_in name.now)) members names.now)
        modules.new) }
{
    for name in names {
        add_built_in(alloc, kept, modules, *name)?;
    }
    Ok(())
}

/// The modules of a family with what they need: the files, then those built-in modules that no file
/// hides. A module whose tree was kept is not read again where it has the same text.
pub fn read_family(
    alloc: Global,
    kept: &Table<SharedTree>,
    files: &[File],
) -> Result<Table<Module>, Memory>
    requires read { AreRead kept.now }
    requires distinct { AreDistinct files.now }
    requires small { sum_by (λ file. length file.bytes) files.now < 2 ^ 31 }
    ensures { IfOk result (λ modules. AreModules (family_of files.now) modules) }
{
    let mut modules = read_files(alloc, kept, files)?;
    add_all(alloc, kept, &mut modules, &STD_NAMES)?;
    Ok(modules)
}
