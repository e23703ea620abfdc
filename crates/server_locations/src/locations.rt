// The locations of a declaration and of its uses.
ghost use Rattle.std.specs.Prelude.{◌≡◌, [], ◌++◌, ◌<◌, ◌^◌, IfOk, OnOk, length, map};
ghost use Rattle.std.specs.List.{All};
ghost use Rattle.std.specs.Option.{option_copied};
ghost use Rattle.text_cursor.specs.Cursors.{IsCursor};
ghost use Rattle.server_locations.specs.Locations as in_locations;
ghost use Rattle.server_locations.specs.Standing.{HasNamesPlaced, Stands};

use crate::found::{FoundModule, module_named};
use crate::names::{declared_in, used_in};
use lsp_wire::Location;
use server_documents::Documents;
use server_notes::{area_from, area_of};
use server_uris::{Root, uri_of};
use std::alloc::Global;
use text_cursor::{Columns, Cursor};
use tla_model::DeclId;
use tla_symbols::Span;
use tla_text::Text;
use tool_list::{Chars, List, Memory};

// The text of a root.
fn root_text(root: Option<&Root>) -> &str
    ensures { result.now ≡ in_locations.root_text (option_copied root.entry) }
{
    match root {
        Some(root) => root.text(),
        None => "",
    }
}

// The URI under which a module is shown: its open document's as it was spelled, or else its file's.
fn shown_uri(alloc: Global, documents: &Documents, name: &Chars) -> Result<Chars, Memory>
    ensures { IfOk result (λ uri. uri ≡ in_locations.shown_uri documents.now name.now) }
{
    match documents.opened_uri(name) {
        Some(uri) => {
            let uri = uri.copied()?;
            Ok(uri)
        }
        None => {
            let uri = uri_of(alloc, root_text(documents.root()), name.as_str())?;
            Ok(uri)
        }
    }
}

// The location of a span of a module's text.
fn location_in(
    alloc: Global,
    documents: &Documents,
    module: &FoundModule<'_>,
    span: Span,
) -> Result<Location, Memory>
    requires short { length module.now.bytes < 2 ^ 31 }
    requires stands { Stands module.now.bytes span }
    ensures { IfOk result (λ at. at ≡ in_locations.location_in documents.now module.now span) }
{
    let text = Text::from_utf8(alloc, module.bytes())?;
    let uri = shown_uri(alloc, documents, module.name())?;
    Ok(Location {
        uri,
        area: area_of(&text, span),
    })
}

/// Where a declaration stands in a module's text, if it is one of its own.
pub fn declaration_in(
    alloc: Global,
    documents: &Documents,
    module: &FoundModule<'_>,
    decl: &DeclId,
) -> Result<Option<Location>, Memory>
    requires { HasNamesPlaced module.now }
    ensures { IfOk result (λ at. at
        ≡ in_locations.declaration_in documents.now module.now decl.now) }
{
    let Some(span) = declared_in(module.decls(), decl) else {
        return Ok(None);
    };
    let at = location_in(alloc, documents, module, span)?;
    Ok(Some(at))
}

/// Where a declaration stands, if it is one of these modules': a built-in module has no place.
pub fn declaration_of(
    alloc: Global,
    documents: &Documents,
    modules: &[FoundModule<'_>],
    decl: &DeclId,
) -> Result<Option<Location>, Memory>
    requires { All HasNamesPlaced modules.now }
    ensures { IfOk result (λ at. at
        ≡ in_locations.declaration_of documents.now modules.now decl.now) }
{
    let Some(module) = module_named(modules, decl.module.as_str()) else {
        return Ok(None);
    };
    let at = declaration_in(alloc, documents, module, decl)?;
    Ok(at)
}

// Appends the locations of spans of a text, each counted from the one before.
fn push_spans(
    places: &mut List<Location>,
    uri: &Chars,
    text: &Text,
    spans: &[Span],
) -> Result<(), Memory>
    requires { All (Stands text.now) spans.now }
    ensures { OnOk result (places.new
        ≡ places.old ++ map (in_locations.location uri.now text.now) spans.now) }
{
    let mut cursor = Cursor::start(text, Columns::Utf16);
    for span in spans {
        cursor = cursor.moved(text, Columns::Utf16, span.start);
        places.push(Location {
            uri: uri.copied()?,
            area: area_from(text, cursor, *span),
        })?;
    }
    Ok(())
}

// Appends the locations of spans of a module's text.
fn push_located(
    alloc: Global,
    places: &mut List<Location>,
    documents: &Documents,
    module: &FoundModule<'_>,
    spans: &[Span],
) -> Result<(), Memory>
    requires short { length module.now.bytes < 2 ^ 31 }
    requires stand { All (Stands module.now.bytes) spans.now }
    ensures { OnOk result (places.new
        ≡ places.old ++ map (in_locations.location_in documents.now module.now) spans.now) }
{
    if spans.is_empty() {
        return Ok(());
    }
    let text = Text::from_utf8(alloc, module.bytes())?;
    let uri = shown_uri(alloc, documents, module.name())?;
    push_spans(places, &uri, &text, spans)?;
    Ok(())
}

// Appends where a module uses a declaration.
fn push_uses(
    alloc: Global,
    places: &mut List<Location>,
    documents: &Documents,
    module: &FoundModule<'_>,
    decl: &DeclId,
) -> Result<(), Memory>
    requires { HasNamesPlaced module.now }
    ensures { OnOk result (places.new
        ≡ places.old ++ in_locations.uses_of documents.now decl.now module.now) }
{
    let spans = used_in(alloc, module.uses(), decl)?;
    push_located(alloc, places, documents, module, spans.as_slice())?;
    Ok(())
}

// Where a declaration stands, in a list, if it is asked for.
fn declared_places(
    alloc: Global,
    documents: &Documents,
    modules: &[FoundModule<'_>],
    decl: &DeclId,
    declared: bool,
) -> Result<List<Location>, Memory>
    requires { All HasNamesPlaced modules.now }
    ensures { IfOk result (λ places. places ≡ in_locations.with_declared declared
        (in_locations.declaration_of documents.now modules.now decl.now) []) }
{
    let mut places = List::new(alloc);
    if !declared {
        return Ok(places);
    }
    let Some(at) = declaration_of(alloc, documents, modules, decl)? else {
        return Ok(places);
    };
    places.push(at)?;
    Ok(places)
}

/// Where a declaration is used, in the order of the modules and of their texts. Where it is asked for,
/// the place of the declaration stands first, if it has one.
pub fn places_of(
    alloc: Global,
    documents: &Documents,
    modules: &[FoundModule<'_>],
    decl: &DeclId,
    declared: bool,
) -> Result<List<Location>, Memory>
    requires { All HasNamesPlaced modules.now }
    ensures { IfOk result (λ places. places
        ≡ in_locations.places_of documents.now modules.now declared decl.now) }
{
    let mut places = declared_places(alloc, documents, modules, decl, declared)?;
    for module in modules {
        push_uses(alloc, &mut places, documents, module, decl)?;
    }
    Ok(places)
}
