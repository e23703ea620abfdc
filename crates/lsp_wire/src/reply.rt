//! The JSON of an answer's result.

ghost use Rattle.std.specs.Prelude.{◌≡◌, IfOk, string_bytes};
ghost use Rattle.lsp_wire.specs.Replies.{initialized_text, result_text};

use crate::pieces::{location_text, locations_text};
use crate::symbols::symbols_text;
use crate::types::Reply;
use std::alloc::{AllocError, Global};

// What the server can do.
const INITIALIZED: &str =
    "{\"capabilities\":{\"definitionProvider\":true,\"documentSymbolProvider\":true,\"referencesProvider\":true,\"textDocumentSync\":{\"change\":2,\"openClose\":true}},\"serverInfo\":{\"name\":\"sany_tool\"}}";

/// The JSON of an answer's result.
#[tactic(auto, unfolding(crate::specs::Replies::result_text))]
pub fn result_text(alloc: Global, reply: &Reply) -> Result<String, AllocError>
    ensures { IfOk result (λ text. string_bytes text ≡ result_text reply.now) }
{
    match reply {
        Reply::Initialized => initialized_text(alloc),
        Reply::Null => String::from_str(alloc, "null"),
        Reply::Place(location) => location_text(alloc, location),
        Reply::Places(locations) => locations_text(alloc, locations.as_slice()),
        Reply::Symbols(symbols) => symbols_text(alloc, symbols.as_slice()),
    }
}

fn initialized_text(alloc: Global) -> Result<String, AllocError>
    ensures { IfOk result (λ text. string_bytes text ≡ initialized_text) }
{
    let text = String::from_str(alloc, INITIALIZED)?;
    Ok(text)
}
