//! The JSON of what is written, piece by piece.

ghost use Rattle.std.specs.Prelude.{◌≡◌, ◌++◌, IfOk, OnOk, codes, decimal, map, string_bytes};
ghost use Rattle.std.specs.Fmt.{signed_decimal};
ghost use Rattle.serde_json.specs.View.{items_of};
ghost use Rattle.serde_json.specs.Data.{array, string};
ghost use Rattle.serde_json.specs.Written.{compact_text, comma_if};
ghost use Rattle.lsp_wire.specs.Written.{area_data, location_data, note_data, notes_data, error_data};

use crate::types::{Area, Location, Note};
use crate::{errors, notes};
use serde_json::Value;
use std::alloc::{AllocError, Global};

/// A string as JSON has it.
pub fn quoted_text(alloc: Global, text: &str) -> Result<String, AllocError>
    ensures { IfOk result (λ json. string_bytes json ≡ compact_text (string text.now)) }
{
    Value::try_from_str(alloc, text)?.to_string(alloc)
}

// What stands before an item: a comma, where another one stands before.
fn comma(later: bool) -> &'static str
    ensures { result.now ≡ comma_if later }
{
    if later {
        return ",";
    }
    ""
}

/// Appends an item of an array.
pub fn push_item(text: &mut String, later: bool, item: &str) -> Result<(), AllocError>
    ensures { OnOk result
        (string_bytes text.new ≡ string_bytes text.old ++ (comma_if later ++ item.now)) }
{
    text.push_str(comma(later))?;
    text.push_str(item)?;
    Ok(())
}

fn area_around(
    alloc: Global,
    last_line: u32,
    last_unit: u32,
    line: u32,
    unit: u32,
) -> Result<String, AllocError>
    ensures { IfOk result (λ json. string_bytes json
        ≡ codes "{\"end\":{\"character\":" ++ (decimal last_unit ++ (codes ",\"line\":"
        ++ (decimal last_line ++ (codes "},\"start\":{\"character\":" ++ (decimal unit
        ++ (codes ",\"line\":" ++ (decimal line ++ codes "}}")))))))) }
{
    format!(in alloc;
        "{{\"end\":{{\"character\":{last_unit},\"line\":{last_line}}},\"start\":{{\"character\":{unit},\"line\":{line}}}}}"
    )
}

/// The JSON of an area.
pub fn area_text(alloc: Global, area: Area) -> Result<String, AllocError>
    ensures { IfOk result (λ json. string_bytes json ≡ compact_text (area_data area)) }
{
    area_around(
        alloc,
        area.end.line,
        area.end.unit,
        area.start.line,
        area.start.unit,
    )
}

fn location_around(alloc: Global, area: &str, uri: &str) -> Result<String, AllocError>
    ensures { IfOk result (λ json. string_bytes json
        ≡ codes "{\"range\":" ++ (area.now ++ (codes ",\"uri\":" ++ (uri.now ++ codes "}")))) }
{
    format!(in alloc; "{{\"range\":{area},\"uri\":{uri}}}")
}

/// The JSON of a location.
pub fn location_text(alloc: Global, location: &Location) -> Result<String, AllocError>
    ensures { IfOk result (λ json. string_bytes json ≡ compact_text (location_data location.now)) }
{
    let area = area_text(alloc, location.area)?;
    let uri = quoted_text(alloc, location.uri.as_str())?;
    location_around(alloc, area.as_str(), uri.as_str())
}

/// The JSON of locations, in order.
pub fn locations_text(alloc: Global, locations: &[Location]) -> Result<String, AllocError>
    ensures { IfOk result (λ json. string_bytes json
        ≡ compact_text (array (items_of (map location_data locations.now)))) }
{
    let mut text = String::from_str(alloc, "[")?;
    let mut later = false;
    'locations: for location in locations {
        let item = location_text(alloc, location)?;
        push_item(&mut text, later, item.as_str())?;
        later = true;
    }
    text.push_str("]")?;
    Ok(text)
}

fn code_text(alloc: Global, code: u16) -> Result<String, AllocError>
    ensures { IfOk result (λ json. string_bytes json
        ≡ compact_text (string (codes "E" ++ decimal code))) }
{
    let name = notes::code_name(alloc, code)?;
    quoted_text(alloc, name.as_str())
}

fn note_around(alloc: Global, code: &str, message: &str, area: &str) -> Result<String, AllocError>
    ensures { IfOk result (λ json. string_bytes json
        ≡ codes "{\"code\":" ++ (code.now ++ (codes ",\"message\":" ++ (message.now
        ++ (codes ",\"range\":" ++ (area.now ++ codes ",\"severity\":1,\"source\":\"sany\"}")))))) }
{
    format!(in alloc;
        "{{\"code\":{code},\"message\":{message},\"range\":{area},\"severity\":1,\"source\":\"sany\"}}"
    )
}

fn note_text(alloc: Global, note: &Note) -> Result<String, AllocError>
    ensures { IfOk result (λ json. string_bytes json ≡ compact_text (note_data note.now)) }
{
    let code = code_text(alloc, note.code)?;
    let message = quoted_text(alloc, notes::note_text(note.code))?;
    let area = area_text(alloc, note.area)?;
    note_around(alloc, code.as_str(), message.as_str(), area.as_str())
}

fn note_texts(alloc: Global, notes: &[Note]) -> Result<String, AllocError>
    ensures { IfOk result (λ json. string_bytes json
        ≡ compact_text (array (items_of (map note_data notes.now)))) }
{
    let mut text = String::from_str(alloc, "[")?;
    let mut later = false;
    'notes: for note in notes {
        let item = note_text(alloc, note)?;
        push_item(&mut text, later, item.as_str())?;
        later = true;
    }
    text.push_str("]")?;
    Ok(text)
}

fn notes_around(alloc: Global, items: &str, uri: &str) -> Result<String, AllocError>
    ensures { IfOk result (λ json. string_bytes json
        ≡ codes "{\"diagnostics\":" ++ (items.now
        ++ (codes ",\"uri\":" ++ (uri.now ++ codes "}")))) }
{
    format!(in alloc; "{{\"diagnostics\":{items},\"uri\":{uri}}}")
}

/// The JSON of a document's diagnostics.
pub fn notes_text(alloc: Global, uri: &str, notes: &[Note]) -> Result<String, AllocError>
    ensures { IfOk result (λ json. string_bytes json
        ≡ compact_text (notes_data uri.now notes.now)) }
{
    let items = note_texts(alloc, notes)?;
    let uri = quoted_text(alloc, uri)?;
    notes_around(alloc, items.as_str(), uri.as_str())
}

fn error_around(alloc: Global, code: i32, message: &str) -> Result<String, AllocError>
    ensures { IfOk result (λ json. string_bytes json
        ≡ codes "{\"code\":" ++ (signed_decimal code ++ (codes ",\"message\":"
        ++ (message.now ++ codes "}")))) }
{
    format!(in alloc; "{{\"code\":{code},\"message\":{message}}}")
}

/// The JSON of an error.
pub fn error_text(alloc: Global, code: i32) -> Result<String, AllocError>
    ensures { IfOk result (λ json. string_bytes json ≡ compact_text (error_data code)) }
{
    let message = quoted_text(alloc, errors::error_text(code))?;
    error_around(alloc, code, message.as_str())
}
