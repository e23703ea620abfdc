//! The members of parameters.

ghost use Rattle.std.specs.Prelude.{◌≡◌, IfOk, codes, option_map, option_and_then};
ghost use Rattle.serde_json.specs.Find.{get};
ghost use Rattle.serde_json.specs.View.{view, items_view};
ghost use Rattle.lsp_wire.specs.Params.{small, text_at, position_of, area_of, range_of, change_of, changes_of, all_of};
ghost use Rattle.lsp_wire.specs.Params.{gone_of, event_of, events_of, uri_of, text_of, with_declaration, folder_of, root_of};

use crate::types::{Area, Change, FileEvent, Position};
use serde_json::Value;
use std::alloc::Global;
use tool_list::{Chars, List, Memory};

// The greatest number of a line or a unit.
const MOST: u64 = 0x7FFF_FFFF;

/// A string member.
pub fn text_at<'v>(value: &'v Value, key: &str) -> Option<&'v str>
    ensures { option_map (λ t. t.now) result ≡ text_at key.now (view value.now) }
{
    value.get(key).and_then(Value::as_str)
}

// An integer from 0 to 2^31 - 1.
fn small(value: &Value) -> Option<u32>
    ensures { result ≡ small (view value.now) }
{
    match value.as_u64() {
        Some(number) if number <= MOST => Some(number as u32),
        _ => None,
    }
}

// A place, as LSP writes it.
fn position_of(value: &Value) -> Option<Position>
    ensures { result ≡ position_of (view value.now) }
{
    let line = small(value.get("line")?)?;
    let unit = small(value.get("character")?)?;
    Some(Position { line, unit })
}

// A range, as LSP writes it.
fn area_of(value: &Value) -> Option<Area>
    ensures { result ≡ area_of (view value.now) }
{
    let start = position_of(value.get("start")?)?;
    let end = position_of(value.get("end")?)?;
    Some(Area { start, end })
}

/// The position that a request speaks of.
pub fn position_at(params: &Value) -> Option<Position>
    ensures { result ≡ option_and_then position_of (get (codes "position") (view params.now)) }
{
    position_of(params.get("position")?)
}

/// The document that a message speaks of.
pub fn uri_of(params: &Value) -> Option<&str>
    ensures { option_map (λ t. t.now) result ≡ uri_of (view params.now) }
{
    text_at(params.get("textDocument")?, "uri")
}

/// The text of the document that is opened.
pub fn text_of(params: &Value) -> Option<&str>
    ensures { option_map (λ t. t.now) result ≡ text_of (view params.now) }
{
    text_at(params.get("textDocument")?, "text")
}

/// Whether a request asks for the declaration too.
pub fn with_declaration(params: &Value) -> Option<bool>
    ensures { result ≡ with_declaration (view params.now) }
{
    params.get("context")?.get("includeDeclaration")?.as_bool()
}

/// The root that the client names: its first workspace folder, or else its root.
pub fn root_of(params: &Value) -> Option<&str>
    ensures { option_map (λ t. t.now) result ≡ root_of (view params.now) }
{
    match folder_of(params) {
        Some(uri) => Some(uri),
        None => text_at(params, "rootUri"),
    }
}

fn folder_of(params: &Value) -> Option<&str>
    ensures { option_map (λ t. t.now) result ≡ folder_of (view params.now) }
{
    text_at(params.get("workspaceFolders")?.get(0usize)?, "uri")
}

// A range that may be missing or null. `None` where it is ill-typed.
fn range_of(range: Option<&Value>) -> Option<Option<Area>>
    ensures { result ≡ range_of (option_map (λ v. view v.now) range.entry) }
{
    match range {
        None => Some(None),
        Some(Value::Null) => Some(None),
        Some(value) => Some(Some(area_of(value)?)),
    }
}

fn change_of(alloc: Global, value: &Value) -> Result<Option<Change>, Memory>
    ensures { IfOk result (λ change. change ≡ change_of (view value.now)) }
{
    let Some(text) = text_at(value, "text") else {
        return Ok(None);
    };
    let Some(area) = range_of(value.get("range")) else {
        return Ok(None);
    };
    Ok(Some(Change {
        area,
        text: Chars::from_str(alloc, text)?,
    }))
}

fn gone_of(value: &Value) -> Option<bool>
    ensures { result ≡ gone_of (view value.now) }
{
    match value.as_u64()? {
        1 | 2 => Some(false),
        3 => Some(true),
        _ => None,
    }
}

fn event_of(alloc: Global, value: &Value) -> Result<Option<FileEvent>, Memory>
    ensures { IfOk result (λ event. event ≡ event_of (view value.now)) }
{
    let (Some(uri), Some(gone)) = (text_at(value, "uri"), value.get("type").and_then(gone_of))
    else {
        return Ok(None);
    };
    Ok(Some(FileEvent {
        uri: Chars::from_str(alloc, uri)?,
        gone,
    }))
}

/// The changes of a document, in order. `None` where one is ill-formed.
pub fn changes_of(alloc: Global, params: &Value) -> Result<Option<List<Change>>, Memory>
    ensures { IfOk result (λ changes. changes ≡ changes_of (view params.now)) }
{
    match params.get("contentChanges").and_then(Value::as_array) {
        Some(items) => all_changes(alloc, items),
        None => Ok(None),
    }
}

fn all_changes(alloc: Global, items: &[Value]) -> Result<Option<List<Change>>, Memory>
    ensures { IfOk result (λ changes. changes ≡ all_of change_of (items_view items.now)) }
{
    let mut changes = List::new(alloc);
    'changes: for item in items {
        match change_of(alloc, item)? {
            Some(change) => changes.push(change)?,
            None => return Ok(None),
        }
    }
    Ok(Some(changes))
}

/// The events of files, in order. `None` where one is ill-formed.
pub fn events_of(alloc: Global, params: &Value) -> Result<Option<List<FileEvent>>, Memory>
    ensures { IfOk result (λ events. events ≡ events_of (view params.now)) }
{
    match params.get("changes").and_then(Value::as_array) {
        Some(items) => all_events(alloc, items),
        None => Ok(None),
    }
}

fn all_events(alloc: Global, items: &[Value]) -> Result<Option<List<FileEvent>>, Memory>
    ensures { IfOk result (λ events. events ≡ all_of event_of (items_view items.now)) }
{
    let mut events = List::new(alloc);
    'events: for item in items {
        match event_of(alloc, item)? {
            Some(event) => events.push(event)?,
            None => return Ok(None),
        }
    }
    Ok(Some(events))
}
