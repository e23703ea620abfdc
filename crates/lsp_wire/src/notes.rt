//! The diagnostics' names and texts, by their numbers.

ghost use Rattle.std.specs.Prelude.{◌≡◌, ◌++◌, IfOk, codes, decimal, string_bytes};
ghost use Rattle.lsp_wire.specs.Notes.{note_text, text_at_code};

use std::alloc::{AllocError, Global};

/// Each diagnostic's number and text.
pub const NOTES: [(u16, &str); 24] = [
    (101, "not UTF-8"),
    (102, "no module header"),
    (103, "module name is not the file's"),
    (104, "text too large"),
    (105, "nesting too deep"),
    (106, "definitions too deep"),
    (201, "no lexeme"),
    (202, "syntax"),
    (301, "unknown module"),
    (302, "cyclic import"),
    (303, "imported module refused"),
    (401, "unknown symbol"),
    (402, "symbol already there"),
    (403, "clash by EXTENDS"),
    (404, "clash by INSTANCE"),
    (405, "no such parameter"),
    (406, "replaced twice"),
    (407, "parameter not replaced"),
    (501, "wrong number of arguments"),
    (502, "operator and expression confused"),
    (503, "@ outside EXCEPT"),
    (601, "level"),
    (602, "assumption not constant"),
    (603, "level of a replacement"),
];

/// The text of a diagnostic, which is empty for a number that none has.
#[tactic(auto, unfolding(crate::specs::Notes::note_text))]
pub fn note_text(code: u16) -> &'static str
    ensures { result.now ≡ note_text code }
{
    text_in(&NOTES, code)
}

fn text_in(table: &'static [(u16, &'static str)], code: u16) -> &'static str
    ensures { result.now ≡ text_at_code (λ row. row.0) (λ row. row.1.now) table.now code }
{
    'rows: for row in table {
        if code == row.0 {
            return row.1;
        }
    }
    ""
}

/// A diagnostic's name, as `E402`.
pub fn code_name(alloc: Global, code: u16) -> Result<String, AllocError>
    ensures { IfOk result (λ name. string_bytes name ≡ codes "E" ++ decimal code) }
{
    format!(in alloc; "E{code}")
}
