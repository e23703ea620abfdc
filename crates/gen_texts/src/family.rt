// The files of the modules.
ghost use Rattle.std.specs.Prelude.{◌≡◌, ◌≤◌, ◌^◌, IfOk, length, sum_by};
ghost use Rattle.family_facts.specs.Verdicts.{AreDistinct};
ghost use Rattle.gen_texts.specs.Generated as generated_by;

use crate::texts::{name_of, text_of};
use family_facts::File;
use std::alloc::Global;
use tool_list::{Chars, List, Memory};

// The file of the module of a number.
fn file_of(alloc: Global, number: u16) -> Result<File, Memory>
    ensures { IfOk result (λ file. file ≡ generated_by.file_of number) }
{
    let name = Chars::from_str(alloc, name_of(alloc, number)?.as_str())?;
    let bytes = List::from_vec(text_of(alloc, number)?.into_bytes());
    Ok(File { name, bytes })
}

/// The files of so many modules, G0 first. `Memory` comes where there was no room.
pub fn generated(alloc: Global, count: u16) -> Result<List<File>, Memory>
    ensures files { IfOk result (λ files. files ≡ generated_by.generated count) }
    ensures distinct { IfOk result AreDistinct }
    ensures small { IfOk result (λ files. sum_by (λ file. length file.bytes) files ≤ 2 ^ 24) }
{
    let mut files = List::new(alloc);
    for number in 0..count {
        files.push(file_of(alloc, number)?)?;
    }
    Ok(files)
}
