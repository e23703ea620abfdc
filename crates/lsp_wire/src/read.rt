//! From a frame's content to a message.

ghost use Rattle.std.specs.Prelude.{◌≡◌, IfOk, option_map};
ghost use Rattle.serde_json.specs.View.{view};
ghost use Rattle.lsp_wire.specs.Messages.{IsMessage, message_of, without_method, with_method, found_id, number_id};
ghost use Rattle.lsp_wire.specs.Methods.{call_of, notice_of};
ghost use Rattle.lsp_wire.specs.Params.{params_of};

use crate::errors::{INVALID_REQUEST, PARSE_ERROR};
use crate::method;
use crate::types::{Id, Incoming};
use serde_json::{Number, Value};
use std::alloc::Global;
use tool_list::{Chars, Memory};

/// The member `id` of a message.
#[derive(Drop)]
pub enum FoundId {
    Absent,
    Valid(Id),
    /// Neither a string nor an integer.
    Refused,
}

/// Reads a frame's content: JSON as `serde_json` reads it, an object with the members that JSON-RPC
/// 2.0 gives a request or a notification, and the parameters that LSP gives its method.
pub fn read_message(alloc: Global, content: &[u8]) -> Result<Incoming, Memory>
    ensures { IfOk result (IsMessage content.now) }
{
    match Value::from_slice(alloc, content) {
        Ok(value) => message_of(alloc, &value),
        Err(error) if error.is_memory() => Err(Memory),
        Err(_) => Ok(Incoming::Invalid {
            code: PARSE_ERROR,
            id: Id::Null,
        }),
    }
}

fn message_of(alloc: Global, value: &Value) -> Result<Incoming, Memory>
    ensures { IfOk result (λ message. message ≡ message_of (view value.now)) }
{
    if !value.is_object() {
        return Ok(Incoming::Invalid {
            code: INVALID_REQUEST,
            id: Id::Null,
        });
    }
    let id = found_id(alloc, value.get("id"))?;
    match value.get("method") {
        Some(method) => with_method(alloc, id, method.as_str(), value),
        None => Ok(without_method(id, value)),
    }
}

fn without_method(id: FoundId, value: &Value) -> Incoming
    ensures { result ≡ without_method id (view value.now) }
{
    if value.get("result").is_some() || value.get("error").is_some() {
        return Incoming::Dropped;
    }
    match id {
        FoundId::Valid(id) => Incoming::Invalid {
            code: INVALID_REQUEST,
            id,
        },
        _ => Incoming::Invalid {
            code: INVALID_REQUEST,
            id: Id::Null,
        },
    }
}

fn with_method(
    alloc: Global,
    id: FoundId,
    method: Option<&str>,
    value: &Value,
) -> Result<Incoming, Memory>
    ensures { IfOk result
        (λ message. message
        ≡ with_method id (option_map (λ t. t.now) method.entry) (view value.now)) }
{
    match (id, method) {
        (FoundId::Refused, _) => Ok(Incoming::Invalid {
            code: INVALID_REQUEST,
            id: Id::Null,
        }),
        (FoundId::Valid(id), None) => Ok(Incoming::Invalid {
            code: INVALID_REQUEST,
            id,
        }),
        (FoundId::Absent, None) => Ok(Incoming::Invalid {
            code: INVALID_REQUEST,
            id: Id::Null,
        }),
        (FoundId::Valid(id), Some(method)) => request(alloc, id, method, value),
        (FoundId::Absent, Some(method)) => notification(alloc, method, value),
    }
}

fn request(alloc: Global, id: Id, method: &str, value: &Value) -> Result<Incoming, Memory>
    ensures { IfOk result (λ message. message
        ≡ Incoming.Request id (call_of method.now (params_of (view value.now)))) }
{
    let call = match value.get("params") {
        Some(params) => method::call_of(alloc, method, params)?,
        None => method::call_of(alloc, method, &Value::Null)?,
    };
    Ok(Incoming::Request { id, call })
}

fn notification(alloc: Global, method: &str, value: &Value) -> Result<Incoming, Memory>
    ensures { IfOk result (λ message. message
        ≡ Incoming.Notice (notice_of method.now (params_of (view value.now)))) }
{
    let notice = match value.get("params") {
        Some(params) => method::notice_of(alloc, method, params)?,
        None => method::notice_of(alloc, method, &Value::Null)?,
    };
    Ok(Incoming::Notice(notice))
}

fn found_id(alloc: Global, id: Option<&Value>) -> Result<FoundId, Memory>
    ensures { IfOk result (λ found. found ≡ found_id (option_map (λ v. view v.now) id.entry)) }
{
    match id {
        None => Ok(FoundId::Absent),
        Some(Value::String(text)) => Ok(FoundId::Valid(Id::Text(Chars::from_str(
            alloc,
            text.as_str(),
        )?))),
        Some(value) => Ok(number_id(value)),
    }
}

fn number_id(value: &Value) -> FoundId
    ensures { result ≡ number_id (view value.now) }
{
    match value.as_number().and_then(Number::as_i128) {
        Some(number) => FoundId::Valid(Id::Int(number)),
        None => FoundId::Refused,
    }
}
