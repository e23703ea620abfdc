// What is found of the modules of a root.
ghost use Rattle.std.specs.Prelude.{◌≡◌, ◌≤◌, IfOk, OnOk, map};
ghost use Rattle.std.specs.Cmp.Lexicographic.{slice_cmp};
ghost use Rattle.std.specs.List.Sorted.{IsStrictlySortedBy};
ghost use Rattle.std.specs.Ordering.{nat_cmp};
ghost use Rattle.lsp_answers.specs.States.{bytes_of, most_bytes};
ghost use Rattle.server_texts.specs.Notes as in_notes;
ghost use Rattle.workspace.specs.Found.{AreFound, AreNamesFound, found_of};

use family_facts::File;
use family_levels::{Family, Findings};
use server_documents::{Documents, ModuleText};
use server_locations::FoundModule;
use std::alloc::Global;
use step_count::Steps;
use tool_list::{Chars, List, Memory, copied};

// The file that a text is.
fn file_of(alloc: Global, text: &ModuleText<'_>) -> Result<File, Memory>
    ensures { IfOk result (λ file. file ≡ in_notes.file_of_text text.now) }
{
    Ok(File {
        name: text.name().copied()?,
        bytes: copied(alloc, text.bytes())?,
    })
}

// The files that texts are.
fn files_of(alloc: Global, texts: &[ModuleText<'_>]) -> Result<List<File>, Memory>
    ensures { IfOk result (λ files. files ≡ in_notes.files_of texts.now) }
{
    let mut files = List::new(alloc);
    for text in texts {
        files.push(file_of(alloc, text)?)?;
    }
    Ok(files)
}

/// Finds what there is to find of texts, over the built-in modules. What was found before is kept
/// where it still holds.
pub fn find_texts<L>(
    alloc: Global,
    texts: &[ModuleText<'_>],
    family: &mut Family,
    steps: &mut Steps<L>,
) -> Result<(), Memory>
    requires order { IsStrictlySortedBy (slice_cmp nat_cmp) (map (λ t. t.name) texts.now) }
    requires few { bytes_of texts.now ≤ most_bytes }
    ensures { OnOk result (AreFound texts.now family.new) }
{
    let files = files_of(alloc, texts)?;
    family.find(alloc, files, steps)?;
    Ok(())
}

/// Finds the same of the texts of some names: modules that they do not reach by what they need are
/// read and not checked.
pub fn find_named<L>(
    alloc: Global,
    texts: &[ModuleText<'_>],
    names: List<Chars>,
    family: &mut Family,
    steps: &mut Steps<L>,
) -> Result<(), Memory>
    requires order { IsStrictlySortedBy (slice_cmp nat_cmp) (map (λ t. t.name) texts.now) }
    requires few { bytes_of texts.now ≤ most_bytes }
    ensures { OnOk result (AreNamesFound texts.now family.new names) }
{
    let files = files_of(alloc, texts)?;
    family.find_named(alloc, files, names, steps)?;
    Ok(())
}

/// What is found of the modules of texts, in their order.
pub fn found_modules<'a>(
    alloc: Global,
    texts: &[ModuleText<'a>],
    found: &'a Findings,
) -> Result<List<FoundModule<'a>>, Memory>
    ensures { IfOk result (λ modules. modules ≡ map (found_of found.now) texts.now) }
{
    let mut modules = List::new(alloc);
    for text in texts {
        let name = text.name();
        let uses = found.uses(name.as_str());
        let decls = found.decls(name.as_str());
        modules.push(FoundModule::new(name, text.bytes(), uses, decls))?;
    }
    Ok(modules)
}
