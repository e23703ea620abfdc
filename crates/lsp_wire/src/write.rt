//! Replies, errors and notices, each in a frame. Members stand in byte order of their names.

ghost use Rattle.std.specs.Prelude.{◌≡◌, ◌++◌, IfOk, OnOk, OnErr, codes, string_bytes};
ghost use Rattle.std.specs.Fmt.{signed_decimal};
ghost use Rattle.serde_json.specs.Written.{compact_text};
ghost use Rattle.rpc_frame.specs.Frames.{frame_of};
ghost use Rattle.lsp_wire.specs.Replies.{reply_content};
ghost use Rattle.lsp_wire.specs.Written.{id_data, error_content, notes_content};

use crate::frame::append_frame;
use crate::pieces::{error_text, notes_text, quoted_text};
use crate::reply::result_text;
use crate::types::{Id, Note, Reply, Uri};
use std::alloc::{AllocError, Global};
use tool_list::{List, Memory};

/// Appends the frame of an answer to the request. After `Memory` the bytes are as before.
pub fn write_reply(alloc: Global, id: &Id, reply: &Reply, out: &mut List<u8>) -> Result<(), Memory>
    ensures ok { OnOk result (out.new ≡ out.old ++ frame_of (reply_content id.now reply.now)) }
    ensures err { OnErr result (out.new ≡ out.old) }
{
    let text = reply_content(alloc, id, reply)?;
    append_frame(alloc, text.as_bytes(), out)
}

fn reply_content(alloc: Global, id: &Id, reply: &Reply) -> Result<String, AllocError>
    ensures { IfOk result (λ text. string_bytes text ≡ reply_content id.now reply.now) }
{
    let id = id_text(alloc, id)?;
    let answer = result_text(alloc, reply)?;
    reply_around(alloc, id.as_str(), answer.as_str())
}

fn reply_around(alloc: Global, id: &str, answer: &str) -> Result<String, AllocError>
    ensures { IfOk result (λ text. string_bytes text ≡ codes "{\"id\":" ++ (id.now
        ++ (codes ",\"jsonrpc\":\"2.0\",\"result\":" ++ (answer.now ++ codes "}")))) }
{
    format!(in alloc; "{{\"id\":{id},\"jsonrpc\":\"2.0\",\"result\":{answer}}}")
}

/// Appends the frame of an error that answers the request. After `Memory` the bytes are as before.
pub fn write_error(alloc: Global, id: &Id, code: i32, out: &mut List<u8>) -> Result<(), Memory>
    ensures ok { OnOk result (out.new ≡ out.old ++ frame_of (error_content id.now code)) }
    ensures err { OnErr result (out.new ≡ out.old) }
{
    let text = error_content(alloc, id, code)?;
    append_frame(alloc, text.as_bytes(), out)
}

fn error_content(alloc: Global, id: &Id, code: i32) -> Result<String, AllocError>
    ensures { IfOk result (λ text. string_bytes text ≡ error_content id.now code) }
{
    let error = error_text(alloc, code)?;
    let id = id_text(alloc, id)?;
    error_around(alloc, error.as_str(), id.as_str())
}

fn error_around(alloc: Global, error: &str, id: &str) -> Result<String, AllocError>
    ensures { IfOk result (λ text. string_bytes text ≡ codes "{\"error\":" ++ (error.now
        ++ (codes ",\"id\":" ++ (id.now ++ codes ",\"jsonrpc\":\"2.0\"}")))) }
{
    format!(in alloc; "{{\"error\":{error},\"id\":{id},\"jsonrpc\":\"2.0\"}}")
}

/// Appends the frame of a notice of a document's diagnostics. After `Memory` the bytes are as
/// before.
pub fn write_notes(
    alloc: Global,
    uri: &Uri,
    notes: &List<Note>,
    out: &mut List<u8>,
) -> Result<(), Memory>
    ensures ok { OnOk result (out.new ≡ out.old ++ frame_of (notes_content uri.now notes.now)) }
    ensures err { OnErr result (out.new ≡ out.old) }
{
    let text = notes_content(alloc, uri.as_str(), notes.as_slice())?;
    append_frame(alloc, text.as_bytes(), out)
}

fn notes_content(alloc: Global, uri: &str, notes: &[Note]) -> Result<String, AllocError>
    ensures { IfOk result (λ text. string_bytes text ≡ notes_content uri.now notes.now) }
{
    let params = notes_text(alloc, uri, notes)?;
    notice_around(alloc, params.as_str())
}

fn notice_around(alloc: Global, params: &str) -> Result<String, AllocError>
    ensures { IfOk result (λ text. string_bytes text
        ≡ codes "{\"jsonrpc\":\"2.0\",\"method\":\"textDocument/publishDiagnostics\",\"params\":"
        ++ (params.now ++ codes "}")) }
{
    format!(in alloc;
        "{{\"jsonrpc\":\"2.0\",\"method\":\"textDocument/publishDiagnostics\",\"params\":{params}}}"
    )
}

// The JSON of what names a request.
fn id_text(alloc: Global, id: &Id) -> Result<String, AllocError>
    ensures { IfOk result (λ text. string_bytes text ≡ compact_text (id_data id.now)) }
{
    match id {
        Id::Int(number) => integer_text(alloc, *number),
        Id::Text(text) => quoted_text(alloc, text.as_str()),
        Id::Null => String::from_str(alloc, "null"),
    }
}

fn integer_text(alloc: Global, number: i128) -> Result<String, AllocError>
    ensures { IfOk result (λ text. string_bytes text ≡ signed_decimal number) }
{
    format!(in alloc; "{number}")
}
