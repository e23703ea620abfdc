//! The codes of errors, of JSON-RPC 2.0 and LSP 3.17, with their texts.

ghost use Rattle.std.specs.Prelude.{◌≡◌};
ghost use Rattle.lsp_wire.specs.Errors.{error_text};

/// The content is no JSON.
pub const PARSE_ERROR: i32 = -32700;

/// The JSON is no message, or the request has no place here.
pub const INVALID_REQUEST: i32 = -32600;

/// No request has the method.
pub const METHOD_NOT_FOUND: i32 = -32601;

/// A parameter is missing or of another type.
pub const INVALID_PARAMS: i32 = -32602;

/// A request before `initialize`.
pub const SERVER_NOT_INITIALIZED: i32 = -32002;

/// The text of an error, which is empty for a code that is none of these.
pub fn error_text(code: i32) -> &'static str
    ensures { result.now ≡ error_text code }
{
    if code == PARSE_ERROR {
        return "parse error";
    }
    if code == INVALID_REQUEST {
        return "invalid request";
    }
    if code == METHOD_NOT_FOUND {
        return "method not found";
    }
    if code == INVALID_PARAMS {
        return "invalid params";
    }
    if code == SERVER_NOT_INITIALIZED {
        return "server not initialized";
    }
    ""
}
