// A walk through a text that makes symbols of its names.
ghost use Rattle.std.specs.Prelude.{◌≡◌, IfOk};
ghost use Rattle.std.specs.Str.{IsCharBoundary};
ghost use Rattle.server_notes.specs.Areas as areas;
ghost use Rattle.server_outlines.specs.Outlines as outlines;
ghost use Rattle.tla_lexeme.specs.Spans.{IsPlaced};
ghost use Rattle.tla_model.specs.Lexemes as lexemes;
ghost use Rattle.tla_model.specs.Lexemes.{LiesIn};

use lsp_wire::{Area, Position, Symbol};
use std::alloc::Global;
use std::marker::Model;
use text_cursor::{Columns, Cursor};
use tla_model::spelled;
use tla_symbols::{Lexeme, Span};
use tla_text::Text;
use tool_list::{Chars, Memory};

/// A walk through a text that makes symbols of its names. Each place is counted from the one before,
/// so that names in the order of the text cost one walk. Contracts see the text.
pub struct Walk<'a> {
    text: &'a Text,
    source: &'a str,
    cursor: Cursor,
}

// By hand, so that a proof meets one call wherever a value ends.
impl<'a> Drop for Walk<'a> {
    fn drop(self) {
        let Walk {
            text: _,
            source: _,
            cursor: _,
        } = self;
    }
}

impl<'a> Model for Walk<'a> {
    ghost use Rattle.std.specs.Prelude.{◌≡◌, List, ℕ};
    ghost use Rattle.text_cursor.specs.Cursors.{IsCursor};
    ghost use Rattle.text_cursor.specs.declared.cursor.Columns.TheVariants.{Utf16};

    ghost Value = { List ℕ };

    ghost view = { λ w. w.text.now };

    ghost invariant = { λ w. (w.source.now ≡ w.text.now) × IsCursor Utf16 w.text.now w.cursor };
}

impl<'a> Walk<'a> {
    /// A walk that begins at the start of a text. The source is the same text.
    pub fn new(text: &'a Text, source: &'a str) -> Walk<'a>
        requires { source.now ≡ text.now }
        ensures { result ≡ text.now }
    {
        Walk {
            text,
            source,
            cursor: Cursor::start(text, Columns::Utf16),
        }
    }

    /// The position of an offset.
    pub fn position(&mut self, offset: u32) -> Position
        requires { IsCharBoundary self.old offset }
        ensures position { result ≡ areas.position_at self.old offset }
        ensures text { self.new ≡ self.old }
    {
        let cursor = self.cursor.moved(self.text, Columns::Utf16, offset);
        self.cursor = cursor;
        Position {
            line: cursor.place.line,
            unit: cursor.place.column,
        }
    }

    /// The area of a span.
    pub fn area(&mut self, span: Span) -> Area
        requires { IsPlaced self.old span }
        ensures area { result ≡ areas.area_at self.old span }
        ensures text { self.new ≡ self.old }
    {
        let start = self.position(span.start);
        let end = self.position(span.end);
        Area { start, end }
    }

    /// The bytes of a name.
    pub fn name(&self, alloc: Global, name: Lexeme) -> Result<Chars, Memory>
        requires { LiesIn self.now name }
        ensures { IfOk result (λ chars. chars ≡ lexemes.spelled self.now name) }
    {
        Chars::from_str(alloc, spelled(self.source, &name))
    }

    /// The symbol of a name, of this kind and over this span.
    pub fn symbol(
        &mut self,
        alloc: Global,
        kind: u8,
        span: Span,
        name: Lexeme,
    ) -> Result<Symbol, Memory>
        requires span { IsPlaced self.old span }
        requires name { LiesIn self.old name }
        ensures symbol { IfOk result
            (λ symbol. symbol ≡ outlines.symbol self.old kind span name) }
        ensures text { self.new ≡ self.old }
    {
        let start = self.position(span.start);
        let name_area = self.area(name.span);
        let end = self.position(span.end);
        let name = self.name(alloc, name)?;
        Ok(Symbol {
            name,
            kind,
            area: Area { start, end },
            name_area,
            children: None,
        })
    }
}
