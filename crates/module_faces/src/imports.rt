// The faults of a module's imports.
ghost use Rattle.std.specs.Prelude.{◌≡◌, ◌++◌, IfOk, OnOk, option_copied};
ghost use Rattle.std.specs.List.{AllByRecursion};
ghost use Rattle.tla_symbols.specs.declared.lexeme.Lexeme.{Lexeme as Name};
ghost use Rattle.tla_model.specs.Lexemes.{LiesIn};
ghost use Rattle.unit_grammar.specs.UnitNodes.{module_of};
ghost use Rattle.module_graph.specs.Named.{AreNamed};
ghost use Rattle.module_model.specs.Given.{IsReadable};
ghost use Rattle.module_facts.specs.Checks.{cyclic_at, faults_of_imports, given_by, given_in, import_fault};
ghost use Rattle.module_facts.specs.Checks as faults_of;
ghost use Rattle.module_faces.specs.Codes.{fault_if};

use module_graph::{NamedModules, imports_are_lexemes};
use module_model::{Import, Imported};
use std::alloc::Global;
use tla_model::{Diagnostic, spelled};
use tla_symbols::Lexeme;
use tla_tree::ModuleTree;
use tool_list::{List, Memory};

// The code of the fault of an import, if it has one.
fn code_of(import: Option<&Import>) -> Option<u16>
    ensures { (name : Name)
        → fault_if result name ≡ import_fault (given_by (option_copied import.entry)) name }
{
    match import {
        None | Some(Import::Unknown) => Some(301),
        Some(Import::Cyclic) => Some(302),
        Some(Import::Refused) => Some(303),
        Some(Import::Module(_)) => None,
    }
}

// Appends the faults of imports under these names.
fn push_faults(
    faults: &mut List<Diagnostic>,
    imported: &Imported,
    source: &str,
    names: &[Lexeme],
) -> Result<(), Memory>
    requires { AllByRecursion (LiesIn source.now) names.now }
    ensures { OnOk result (faults.new
        ≡ faults.old ++ faults_of_imports (given_in imported.now) source.now names.now) }
{
    for name in names {
        if let Some(code) = code_of(imported.get(spelled(source, name))) {
            faults.push(Diagnostic {
                code,
                span: name.span,
            })?;
        }
    }
    Ok(())
}

// Appends a cycle at each of these names.
fn push_cyclic(faults: &mut List<Diagnostic>, names: &[Lexeme]) -> Result<(), Memory>
    ensures { OnOk result (faults.new ≡ faults.old ++ cyclic_at names.now) }
{
    for name in names {
        faults.push(Diagnostic {
            code: 302,
            span: name.span,
        })?;
    }
    Ok(())
}

/// The faults of the imports of a module, by its module names: at the names of needed ones
/// that are not accepted, and then at names of nested modules round them. `Memory` comes where
/// there was no room.
pub fn import_faults(
    alloc: Global,
    tree: &ModuleTree,
    imported: &Imported,
    named: &NamedModules,
) -> Result<List<Diagnostic>, Memory>
    requires readable { IsReadable tree.now }
    requires named { AreNamed tree.now.source (module_of tree.now) named.now }
    ensures { IfOk result (λ faults. faults
        ≡ faults_of.import_faults (given_in imported.now) tree.now.source (module_of tree.now)) }
{
    imports_are_lexemes();
    let mut faults = List::new(alloc);
    push_faults(
        &mut faults,
        imported,
        tree.source.as_str(),
        named.needed.as_slice(),
    )?;
    push_cyclic(&mut faults, named.enclosing.as_slice())?;
    Ok(faults)
}
