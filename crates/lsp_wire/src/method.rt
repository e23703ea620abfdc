//! What a method asks or tells, by its name and its parameters.

ghost use Rattle.std.specs.Prelude.{◌≡◌, IfOk};
ghost use Rattle.serde_json.specs.View.{view};
ghost use Rattle.lsp_wire.specs.Methods.{call_of, notice_of, definition_call, references_call, symbols_call};
ghost use Rattle.lsp_wire.specs.Methods.{open_notice, change_notice, close_notice, files_notice};
ghost use Rattle.lsp_wire.specs.Params.{root_of};

use crate::params;
use crate::types::{Call, Notice};
use serde_json::Value;
use std::alloc::Global;
use tool_list::{Chars, Memory};

/// What a request asks.
pub fn call_of(alloc: Global, method: &str, params: &Value) -> Result<Call, Memory>
    ensures { IfOk result (λ call. call ≡ call_of method.now (view params.now)) }
{
    match method {
        "initialize" => initialize(alloc, params),
        "shutdown" => Ok(Call::Shutdown),
        "textDocument/definition" => definition(alloc, params),
        "textDocument/references" => references(alloc, params),
        "textDocument/documentSymbol" => symbols(alloc, params),
        _ => Ok(Call::Unknown),
    }
}

fn initialize(alloc: Global, params: &Value) -> Result<Call, Memory>
    ensures { IfOk result (λ call. call ≡ Call.Initialize (root_of (view params.now))) }
{
    match params::root_of(params) {
        Some(root) => Ok(Call::Initialize {
            root: Some(Chars::from_str(alloc, root)?),
        }),
        None => Ok(Call::Initialize { root: None }),
    }
}

fn definition(alloc: Global, params: &Value) -> Result<Call, Memory>
    ensures { IfOk result (λ call. call ≡ definition_call (view params.now)) }
{
    let (Some(uri), Some(at)) = (params::uri_of(params), params::position_at(params)) else {
        return Ok(Call::BadParams);
    };
    Ok(Call::Definition {
        uri: Chars::from_str(alloc, uri)?,
        at,
    })
}

fn references(alloc: Global, params: &Value) -> Result<Call, Memory>
    ensures { IfOk result (λ call. call ≡ references_call (view params.now)) }
{
    let (Some(uri), Some(at)) = (params::uri_of(params), params::position_at(params)) else {
        return Ok(Call::BadParams);
    };
    let Some(with_declaration) = params::with_declaration(params) else {
        return Ok(Call::BadParams);
    };
    Ok(Call::References {
        uri: Chars::from_str(alloc, uri)?,
        at,
        with_declaration,
    })
}

fn symbols(alloc: Global, params: &Value) -> Result<Call, Memory>
    ensures { IfOk result (λ call. call ≡ symbols_call (view params.now)) }
{
    match params::uri_of(params) {
        Some(uri) => Ok(Call::Symbols {
            uri: Chars::from_str(alloc, uri)?,
        }),
        None => Ok(Call::BadParams),
    }
}

/// What a notification tells.
pub fn notice_of(alloc: Global, method: &str, params: &Value) -> Result<Notice, Memory>
    ensures { IfOk result (λ notice. notice ≡ notice_of method.now (view params.now)) }
{
    match method {
        "exit" => Ok(Notice::Exit),
        "textDocument/didOpen" => open(alloc, params),
        "textDocument/didChange" => change(alloc, params),
        "textDocument/didClose" => close(alloc, params),
        "workspace/didChangeWatchedFiles" => files(alloc, params),
        _ => Ok(Notice::Other),
    }
}

fn open(alloc: Global, params: &Value) -> Result<Notice, Memory>
    ensures { IfOk result (λ notice. notice ≡ open_notice (view params.now)) }
{
    let (Some(uri), Some(text)) = (params::uri_of(params), params::text_of(params)) else {
        return Ok(Notice::Other);
    };
    Ok(Notice::Open {
        uri: Chars::from_str(alloc, uri)?,
        text: Chars::from_str(alloc, text)?,
    })
}

fn change(alloc: Global, params: &Value) -> Result<Notice, Memory>
    ensures { IfOk result (λ notice. notice ≡ change_notice (view params.now)) }
{
    let Some(uri) = params::uri_of(params) else {
        return Ok(Notice::Other);
    };
    match params::changes_of(alloc, params)? {
        Some(changes) => Ok(Notice::Change {
            uri: Chars::from_str(alloc, uri)?,
            changes,
        }),
        None => Ok(Notice::Other),
    }
}

fn close(alloc: Global, params: &Value) -> Result<Notice, Memory>
    ensures { IfOk result (λ notice. notice ≡ close_notice (view params.now)) }
{
    match params::uri_of(params) {
        Some(uri) => Ok(Notice::Close {
            uri: Chars::from_str(alloc, uri)?,
        }),
        None => Ok(Notice::Other),
    }
}

fn files(alloc: Global, params: &Value) -> Result<Notice, Memory>
    ensures { IfOk result (λ notice. notice ≡ files_notice (view params.now)) }
{
    match params::events_of(alloc, params)? {
        Some(events) => Ok(Notice::Files { events }),
        None => Ok(Notice::Other),
    }
}
