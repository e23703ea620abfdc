// Faults and their codes.
ghost use Rattle.std.specs.Prelude.{◌≡◌};
ghost use Rattle.front_laws.specs.Fronts as fronts;

use tla_model::Diagnostic;
use tla_symbols::{LexKind, Lexeme, Span};

/// The bytes are not UTF-8.
pub const NOT_UTF8: u16 = 101;

/// The module has no header.
pub const NO_HEADER: u16 = 102;

/// The module's name is not the file's.
pub const MISNAMED: u16 = 103;

/// The text has too many bytes.
pub const TOO_LARGE: u16 = 104;

/// A unit of the module is too high.
pub const TOO_HIGH: u16 = 105;

// No lexeme begins.
const NO_LEXEME: u16 = 201;

// The lexemes begin no module.
const SYNTAX: u16 = 202;

/// A fault of no bytes, at an offset.
pub fn fault_at(code: u16, offset: u32) -> Diagnostic
    ensures { result ≡ fronts.fault_at code offset }
{
    Diagnostic {
        code,
        span: Span {
            start: offset,
            end: offset,
        },
    }
}

/// A fault at a lexeme.
pub fn fault_of(code: u16, lexeme: Lexeme) -> Diagnostic
    ensures { result ≡ fronts.fault_of code lexeme }
{
    Diagnostic {
        code,
        span: lexeme.span,
    }
}

/// The fault of the first bad lexeme.
pub fn syntax_fault(lexeme: Lexeme) -> Diagnostic
    ensures { result ≡ fronts.fault_of (fronts.syntax_code lexeme.kind) lexeme }
{
    let code = match lexeme.kind {
        LexKind::Bad => NO_LEXEME,
        _ => SYNTAX,
    };
    fault_of(code, lexeme)
}
