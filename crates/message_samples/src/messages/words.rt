//! Messages in words.

use lsp_wire::{Area, Call, Change, FileEvent, Id, Incoming, Notice, Position};
use std::alloc::{AllocError, Global};
use tool_list::Chars;

/// Words with a space between them.
#[derive(Drop)]
pub struct Words {
    text: String,
}

impl Words {
    /// No words.
    pub fn new(alloc: Global) -> Words {
        Words {
            text: String::new(alloc),
        }
    }

    /// The words.
    pub fn as_str(&self) -> &str {
        self.text.as_str()
    }

    fn word(&mut self, word: &str) -> Result<(), AllocError> {
        if !self.text.is_empty() {
            self.text.push(' ')?;
        }
        self.text.push_str(word)
    }

    fn number(&mut self, alloc: Global, number: i128) -> Result<(), AllocError> {
        let shown = format!(in alloc; "{number}")?;
        self.word(shown.as_str())
    }

    fn flag(&mut self, flag: bool) -> Result<(), AllocError> {
        self.word(if flag { "true" } else { "false" })
    }

    fn place(&mut self, alloc: Global, at: Position) -> Result<(), AllocError> {
        let shown = format!(in alloc; "{}:{}", at.line, at.unit)?;
        self.word(shown.as_str())
    }

    fn id(&mut self, alloc: Global, id: &Id) -> Result<(), AllocError> {
        match id {
            Id::Int(number) => self.number(alloc, *number),
            Id::Text(text) => self.quoted(text.as_str()),
            Id::Null => self.word("null"),
        }
    }

    fn quoted(&mut self, text: &str) -> Result<(), AllocError> {
        self.word("'")?;
        self.text.push_str(text)?;
        self.text.push('\'')
    }

    fn call(&mut self, alloc: Global, call: &Call) -> Result<(), AllocError> {
        match call {
            Call::Initialize { root } => self.initialize(root),
            Call::Shutdown => self.word("shutdown"),
            Call::Definition { uri, at } => self.asked("definition", alloc, uri, *at),
            Call::References {
                uri,
                at,
                with_declaration,
            } => {
                self.asked("references", alloc, uri, *at)?;
                self.flag(*with_declaration)
            }
            Call::Symbols { uri } => self.document("symbols", uri),
            Call::BadParams => self.word("bad"),
            Call::Unknown => self.word("unknown"),
        }
    }

    fn initialize(&mut self, root: &Option<Chars>) -> Result<(), AllocError> {
        match root {
            Some(root) => self.document("initialize", root),
            None => self.word("initialize"),
        }
    }

    fn document(&mut self, word: &str, uri: &Chars) -> Result<(), AllocError> {
        self.word(word)?;
        self.word(uri.as_str())
    }

    fn asked(
        &mut self,
        word: &str,
        alloc: Global,
        uri: &Chars,
        at: Position,
    ) -> Result<(), AllocError> {
        self.document(word, uri)?;
        self.place(alloc, at)
    }

    fn notice(&mut self, alloc: Global, notice: &Notice) -> Result<(), AllocError> {
        match notice {
            Notice::Exit => self.word("exit"),
            Notice::Open { uri, text } => {
                self.document("open", uri)?;
                self.word(text.as_str())
            }
            Notice::Change { uri, changes } => {
                self.document("change", uri)?;
                self.changes(alloc, changes.as_slice())
            }
            Notice::Close { uri } => self.document("close", uri),
            Notice::Files { events } => self.events(events.as_slice()),
            Notice::Other => self.word("other"),
        }
    }

    fn changes(&mut self, alloc: Global, changes: &[Change]) -> Result<(), AllocError> {
        for change in changes {
            self.area(alloc, change.area)?;
            self.word(change.text.as_str())?;
        }
        Ok(())
    }

    fn area(&mut self, alloc: Global, area: Option<Area>) -> Result<(), AllocError> {
        match area {
            Some(area) => {
                self.place(alloc, area.start)?;
                self.place(alloc, area.end)
            }
            None => self.word("all"),
        }
    }

    fn events(&mut self, events: &[FileEvent]) -> Result<(), AllocError> {
        self.word("files")?;
        for event in events {
            self.word(event.uri.as_str())?;
            self.flag(event.gone)?;
        }
        Ok(())
    }

    /// Adds the words of a message.
    pub fn message(&mut self, alloc: Global, message: &Incoming) -> Result<(), AllocError> {
        match message {
            Incoming::Request { id, call } => {
                self.id(alloc, id)?;
                self.call(alloc, call)
            }
            Incoming::Notice(notice) => self.notice(alloc, notice),
            Incoming::Dropped => self.word("dropped"),
            Incoming::Invalid { code, id } => {
                self.number(alloc, *code as i128)?;
                self.id(alloc, id)
            }
        }
    }
}
