// The replies at a place of a document.
ghost use Rattle.std.specs.Prelude.{◌≡◌, ◌<◌, ◌^◌, IfOk, MatchOption, length};
ghost use Rattle.std.specs.List.{All};
ghost use Rattle.std.specs.Str.{IsUtf8};
ghost use Rattle.doc_edit.specs.Edits.{offset_of};
ghost use Rattle.server_locations.specs.Locations as in_locations;
ghost use Rattle.server_locations.specs.Standing.{HasNamesPlaced};

use crate::found::{FoundModule, module_named};
use crate::locations::places_of;
use crate::names::{named_at, used_at};
use lsp_wire::{Position, Reply};
use server_documents::Documents;
use server_uris::module_of;
use std::alloc::Global;
use tla_model::DeclId;
use tla_text::{Text, TextError};
use tool_list::Memory;

// The offset of a place in bytes that are a text. Units past a line's end mean that end, and lines past
// the last the text's.
fn offset_in(alloc: Global, bytes: &[u8], at: Position) -> Result<Option<u32>, Memory>
    requires { length bytes.now < 2 ^ 31 }
    ensures { IfOk result (λ offset. MatchOption offset (¬ (IsUtf8 bytes.now))
        (λ offset. offset ≡ offset_of bytes.now at)) }
{
    match Text::read(alloc, bytes) {
        Ok(text) => Ok(Some(text.offset_utf16(at.line, at.unit))),
        Err(TextError::Memory) => Err(Memory),
        Err(TextError::NotUtf8 { at: _ }) => Ok(None),
    }
}

/// What the use at a place of a module means, if there is one.
pub fn used_in_place(
    alloc: Global,
    module: &FoundModule<'_>,
    at: Position,
) -> Result<Option<DeclId>, Memory>
    requires { HasNamesPlaced module.now }
    ensures { IfOk result (λ decl. decl ≡ in_locations.meant_in at module.now) }
{
    let Some(offset) = offset_in(alloc, module.bytes(), at)? else {
        return Ok(None);
    };
    let decl = used_at(module.uses(), offset)?;
    Ok(decl)
}

// What is used or declared at a place of a module.
fn named_in_place(
    alloc: Global,
    module: &FoundModule<'_>,
    at: Position,
) -> Result<Option<DeclId>, Memory>
    requires { HasNamesPlaced module.now }
    ensures { IfOk result (λ decl. decl
        ≡ in_locations.named_at module.now (offset_of module.now.bytes at)) }
{
    let Some(offset) = offset_in(alloc, module.bytes(), at)? else {
        return Ok(None);
    };
    let decl = named_at(module, offset)?;
    Ok(decl)
}

// The uses of what is used or declared at a place of a module, as a reply.
fn references_in(
    alloc: Global,
    documents: &Documents,
    modules: &[FoundModule<'_>],
    at: Position,
    declared: bool,
    module: &FoundModule<'_>,
) -> Result<Reply, Memory>
    requires all { All HasNamesPlaced modules.now }
    requires one { HasNamesPlaced module.now }
    ensures { IfOk result (λ reply. reply
        ≡ in_locations.references_in documents.now modules.now at declared module.now) }
{
    let Some(decl) = named_in_place(alloc, module, at)? else {
        return Ok(Reply::Null);
    };
    let places = places_of(alloc, documents, modules, &decl, declared)?;
    Ok(Reply::Places(places))
}

/// The reply to `textDocument/references` at a place of a document, by what is found of the modules of
/// the root: the places where what is used or declared there is used, in the order of the modules and of
/// their texts, and before them, where it is asked for, that of its declaration. It is null where the
/// document is none of these modules, and where no name stands.
pub fn references(
    alloc: Global,
    documents: &Documents,
    modules: &[FoundModule<'_>],
    uri: &str,
    at: Position,
    declared: bool,
) -> Result<Reply, Memory>
    requires { All HasNamesPlaced modules.now }
    ensures { IfOk result (λ reply. reply
        ≡ in_locations.references_by documents.now modules.now uri.now at declared) }
{
    let Some(name) = module_of(alloc, documents.root(), uri)? else {
        return Ok(Reply::Null);
    };
    let Some(module) = module_named(modules, name.as_str()) else {
        return Ok(Reply::Null);
    };
    let reply = references_in(alloc, documents, modules, at, declared, module)?;
    Ok(reply)
}
