// The files of modules.
ghost use Rattle.std.specs.Prelude.{◌≡◌, ◌++◌, IfOk, OnOk};
ghost use Rattle.std.specs.Option.{option_copied};
ghost use Rattle.file_names.specs.Files as files;

use std::alloc::Global;
use tla_lexeme::is_identifier;
use tool_list::{Chars, List, Memory};

/// The most bytes that are read of a file: one more than all files of a folder may have together, so
/// that a longer one is seen to be too long.
pub const MOST_FILE_BYTES: u64 = (1 << 25) + 1;

/// The module that a file stands for, by its name: an identifier before `.tla`.
pub fn module_of_file(file: &str) -> Option<&str>
    ensures { option_copied result ≡ files.module_of_file file.now }
{
    let stem = file.strip_suffix(".tla")?;
    if is_identifier(stem.as_bytes()) {
        Some(stem)
    } else {
        None
    }
}

// Appends the name of the module that a file stands for, if it stands for one.
fn add_module(alloc: Global, found: &mut List<Chars>, file: &str) -> Result<(), Memory>
    ensures { OnOk result (found.new ≡ found.old ++ files.modules_of_file file.now) }
{
    let Some(name) = module_of_file(file) else {
        return Ok(());
    };
    found.push(Chars::from_str(alloc, name)?)
}

/// The modules of a listing, in order.
pub fn modules_of(alloc: Global, names: &[Chars]) -> Result<List<Chars>, Memory>
    ensures { IfOk result (λ found. found ≡ files.modules_of_listing names.now) }
{
    let mut found = List::new(alloc);
    for name in names {
        add_module(alloc, &mut found, name.as_str())?;
    }
    Ok(found)
}

/// The name of the file of a module.
pub fn file_of(alloc: Global, name: &str) -> Result<Chars, Memory>
    ensures { IfOk result (λ file. file ≡ files.file_of name.now) }
{
    let file = format!(in alloc; "{name}.tla")?;
    Chars::from_str(alloc, file.as_str())
}
