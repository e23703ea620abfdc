// The replies to questions on the texts.
ghost use Rattle.std.specs.Prelude.{◌≡◌, IfOk, IfSome, option_and_then};
ghost use Rattle.std.specs.List.{All};
ghost use Rattle.family_facts.specs.Fronts.{front_of};
ghost use Rattle.server_outlines.specs.Outlines.{symbols_by};
ghost use Rattle.server_locations.specs.Locations.{declaration_of, meant_in, module_named};
ghost use Rattle.server_locations.specs.Standing.{HasNamesPlaced};
ghost use Rattle.server_texts.specs.Answers.{all_found, definition_reply, references_reply};
ghost use Rattle.server_texts.specs.Outlines.{symbols_reply};
ghost use Rattle.server_texts.specs.Server as in_server;

use crate::found::{find_named, find_texts, found_modules};
use family_facts::one_front_of;
use family_levels::Family;
use lsp_wire::{Call, Location, Position, Reply, Symbol};
use server_documents::Documents;
use server_locations::{FoundModule, declaration_in, references, used_in_place};
use server_outlines::symbols_of;
use server_uris::module_of;
use std::alloc::Global;
use step_count::Steps;
use tla_front::{FrontError, front};
use tla_model::DeclId;
use tla_text::Text;
use tool_list::{Chars, List, Memory};

// The names of a module's text. One with a fault of its front has none. A text of 2 GiB is want of
// memory.
fn symbols_in(alloc: Global, name: &str, bytes: &[u8]) -> Result<List<Symbol>, Memory>
    ensures { IfOk result
        (λ symbols. symbols ≡ symbols_by bytes.now (front_of name.now bytes.now)) }
{
    one_front_of();
    if bytes.len() >= 1 << 31 {
        return Err(Memory);
    }
    let tree = match front(alloc, name, bytes) {
        Ok(tree) => tree,
        Err(FrontError::Fault(_)) => return Ok(List::new(alloc)),
        Err(FrontError::Memory) => return Err(Memory),
    };
    let Ok(text) = Text::read(alloc, bytes) else {
        return Err(Memory);
    };
    let symbols = symbols_of(alloc, &text, &tree)?;
    Ok(symbols)
}

// The reply to `documentSymbol` on a document.
fn symbols(alloc: Global, documents: &Documents, uri: &str) -> Result<Reply, Memory>
    ensures { IfOk result (λ reply. reply ≡ symbols_reply documents.now uri.now) }
{
    let Some(name) = module_of(alloc, documents.root(), uri)? else {
        return Ok(Reply::Symbols(List::new(alloc)));
    };
    let Some(bytes) = documents.text(&name) else {
        return Ok(Reply::Symbols(List::new(alloc)));
    };
    Ok(Reply::Symbols(symbols_in(alloc, name.as_str(), bytes)?))
}

// The modules of the root, with what is found of them.
fn modules_of<'a, L>(
    alloc: Global,
    documents: &'a Documents,
    family: &'a mut Family,
    steps: &mut Steps<L>,
) -> Result<List<FoundModule<'a>>, Memory>
    ensures found { IfOk result (λ modules. modules ≡ all_found documents.now) }
    ensures placed { IfOk result (λ modules. All HasNamesPlaced modules) }
{
    if documents.limit().is_some() {
        return Err(Memory);
    }
    let texts = documents.texts(alloc)?;
    find_texts(alloc, texts.as_slice(), family, steps)?;
    let modules = found_modules(alloc, texts.as_slice(), family.found())?;
    Ok(modules)
}

// The module of a name, with what is found of it. It is found together with the open documents: so
// where it is one of these, nothing is found anew.
fn module_found<'a, L>(
    alloc: Global,
    documents: &'a Documents,
    family: &'a mut Family,
    name: &'a Chars,
    steps: &mut Steps<L>,
) -> Result<Option<FoundModule<'a>>, Memory>
    ensures found { IfOk result
        (λ found. found ≡ module_named (all_found documents.now) name.now) }
    ensures placed { IfOk result (λ found. IfSome found HasNamesPlaced) }
{
    if documents.limit().is_some() {
        return Err(Memory);
    }
    let Some(bytes) = documents.text(name) else {
        return Ok(None);
    };
    let texts = documents.texts(alloc)?;
    let mut wanted = documents.opened(alloc)?;
    wanted.push(name.copied()?)?;
    find_named(alloc, texts.as_slice(), wanted, family, steps)?;
    let found = family.found();
    let uses = found.uses(name.as_str());
    let decls = found.decls(name.as_str());
    Ok(Some(FoundModule::new(name, bytes, uses, decls)))
}

// What the use at a place of the module of a name means.
fn meant_at<L>(
    alloc: Global,
    documents: &Documents,
    family: &mut Family,
    name: &Chars,
    at: Position,
    steps: &mut Steps<L>,
) -> Result<Option<DeclId>, Memory>
    ensures { IfOk result (λ decl. decl
        ≡ option_and_then (meant_in at) (module_named (all_found documents.now) name.now)) }
{
    let Some(module) = module_found(alloc, documents, family, name, steps)? else {
        return Ok(None);
    };
    let decl = used_in_place(alloc, &module, at)?;
    Ok(decl)
}

// Where a declaration stands.
fn place_of<L>(
    alloc: Global,
    documents: &Documents,
    family: &mut Family,
    decl: &DeclId,
    steps: &mut Steps<L>,
) -> Result<Option<Location>, Memory>
    ensures { IfOk result (λ at. at
        ≡ declaration_of documents.now (all_found documents.now) decl.now) }
{
    let Some(module) = module_found(alloc, documents, family, &decl.module, steps)? else {
        return Ok(None);
    };
    let at = declaration_in(alloc, documents, &module, decl)?;
    Ok(at)
}

// The reply to `definition` at a place of a document. It looks at the module of the document, and
// at that of the declaration.
fn definition_at<L>(
    alloc: Global,
    documents: &Documents,
    family: &mut Family,
    uri: &str,
    at: Position,
    steps: &mut Steps<L>,
) -> Result<Reply, Memory>
    ensures { IfOk result (λ reply. reply ≡ definition_reply documents.now uri.now at) }
{
    let Some(name) = module_of(alloc, documents.root(), uri)? else {
        return Ok(Reply::Null);
    };
    let Some(decl) = meant_at(alloc, documents, family, &name, at, steps)? else {
        return Ok(Reply::Null);
    };
    match place_of(alloc, documents, family, &decl, steps)? {
        Some(place) => Ok(Reply::Place(place)),
        None => Ok(Reply::Null),
    }
}

// The reply to `references` at a place of a document.
fn references_at<L>(
    alloc: Global,
    documents: &Documents,
    family: &mut Family,
    uri: &str,
    at: Position,
    declared: bool,
    steps: &mut Steps<L>,
) -> Result<Reply, Memory>
    ensures { IfOk result (λ reply. reply ≡ references_reply documents.now uri.now at declared) }
{
    let modules = modules_of(alloc, documents, family, steps)?;
    let reply = references(alloc, documents, modules.as_slice(), uri, at, declared)?;
    Ok(reply)
}

/// The reply to a question on the texts. To ask for references finds what is not found yet of all
/// modules, and to ask for a definition that of two. `Memory` comes where there was no room, and
/// where they pass a limit.
pub fn reply_to<L>(
    alloc: Global,
    documents: &Documents,
    family: &mut Family,
    call: &Call,
    steps: &mut Steps<L>,
) -> Result<Reply, Memory>
    ensures { IfOk result (λ reply. reply ≡ in_server.reply_to documents.now call.now) }
{
    match call {
        Call::Definition { uri, at } => {
            definition_at(alloc, documents, family, uri.as_str(), *at, steps)
        }
        Call::References {
            uri,
            at,
            with_declaration,
        } => references_at(
            alloc,
            documents,
            family,
            uri.as_str(),
            *at,
            *with_declaration,
            steps,
        ),
        Call::Symbols { uri } => symbols(alloc, documents, uri.as_str()),
        Call::Initialize { root: _ } | Call::Shutdown | Call::BadParams | Call::Unknown => {
            Ok(Reply::Null)
        }
    }
}
