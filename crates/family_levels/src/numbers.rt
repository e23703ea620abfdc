// Numbers of what imports are to their instances.
ghost use Rattle.std.specs.Prelude.{◌≡◌, List as ListOf, ℕ, IfOk, OnOk, Some, if◌then◌else◌};
ghost use Rattle.std.specs.Str.{bytes_eq};
ghost use Rattle.indexmap.specs.IndexMap.{get_by_text};
ghost use Rattle.module_model.specs.Imports.{import_of};
ghost use Rattle.family_tables.specs.Outcomes.{ImportsOnly};
ghost use Rattle.family_tables.specs.Tables.{entry_of};
ghost use Rattle.family_levels.specs.Numbers.{number_by};

use family_tables::Table;
use indexmap::IndexMap;
use module_model::{Import, Imported};
use std::alloc::Global;
use tool_list::{Chars, Memory};

// Keeps the number of a name, in place of the one that it had.
fn put_number(
    alloc: Global,
    files: &mut IndexMap<String, usize>,
    name: &str,
    number: usize,
) -> Result<(), Memory>
    ensures { OnOk result ((other : ListOf ℕ) → get_by_text files.new other
        ≡ (if bytes_eq other name.now then Some number else get_by_text files.old other)) }
{
    let name = String::from_str(alloc, name)?;
    files.insert(name, number)?;
    Ok(())
}

// The number of a need, if its import is accepted.
fn number_of(imports: &Imported, numbers: &Table<usize>, need: &str) -> Option<usize>
    ensures { result
        ≡ number_by (import_of imports.now need.now) (entry_of numbers.now need.now) }
{
    match imports.get(need) {
        Some(Import::Module(_)) => numbers.get(need).copied(),
        _ => None,
    }
}

/// The numbers of the imports of a module that are accepted, by their names, where nothing else is
/// imported than these needs.
pub(crate) fn numbers_of(
    alloc: Global,
    imports: &Imported,
    numbers: &Table<usize>,
    needs: &[Chars],
) -> Result<IndexMap<String, usize>, Memory>
    requires { ImportsOnly needs.now imports.now }
    ensures { IfOk result (λ files. (name : ListOf ℕ) → get_by_text files name
        ≡ number_by (import_of imports.now name) (entry_of numbers.now name)) }
{
    let mut files = IndexMap::new(alloc);
    for need in needs {
        let need = need.as_str();
        if let Some(number) = number_of(imports, numbers, need) {
            put_number(alloc, &mut files, need, number)?;
        }
    }
    Ok(files)
}
