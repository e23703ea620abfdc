//! The messages: what is read, and what is written.

use tool_list::{Chars, List};

/// A URI as its sender spelled it.
pub type Uri = Chars;

/// A place in a document: a line, from 0, and UTF-16 units before it in the line.
#[derive(Clone, Copy, Debug, PartialEq, Eq)]
pub struct Position {
    pub line: u32,
    pub unit: u32,
}

/// From the first place up to the second, which it leaves out.
#[derive(Clone, Copy, Debug, PartialEq, Eq)]
pub struct Area {
    pub start: Position,
    pub end: Position,
}

/// An area of a document.
pub struct Location {
    pub uri: Uri,
    pub area: Area,
}

// By hand, so that a proof meets one call wherever a value ends.
impl Drop for Location {
    fn drop(self) {
        let Location { uri: _, area: _ } = self;
    }
}

/// A change of a document: the text in place of that in the area, or of all where there is none.
#[derive(Drop)]
pub struct Change {
    pub area: Option<Area>,
    pub text: Chars,
}

/// A file of the folder was made, changed or deleted.
#[derive(Drop)]
pub struct FileEvent {
    pub uri: Uri,
    /// Whether it was deleted.
    pub gone: bool,
}

/// A diagnostic of a document, by its number.
#[derive(Clone, Copy, Debug, PartialEq, Eq)]
pub struct Note {
    pub code: u16,
    pub area: Area,
}

/// A declared or defined name of a document.
#[derive(Drop)]
pub struct Symbol {
    pub name: Chars,
    /// LSP's number of a symbol's kind.
    pub kind: u8,
    /// The whole unit, or the declared name with its places for arguments.
    pub area: Area,
    pub name_area: Area,
    /// The names of a nested module; no other symbol has any.
    pub children: Option<List<Symbol>>,
}

/// What names a request in its answer.
pub enum Id {
    Int(i128),
    Text(Chars),
    Null,
}

// By hand, so that a proof meets one call wherever a value ends.
impl Drop for Id {
    fn drop(self) {
        match self {
            Id::Int(_) | Id::Text(_) | Id::Null => {}
        }
    }
}

/// What a request asks.
pub enum Call {
    Initialize {
        root: Option<Uri>,
    },
    Shutdown,
    Definition {
        uri: Uri,
        at: Position,
    },
    References {
        uri: Uri,
        at: Position,
        with_declaration: bool,
    },
    Symbols {
        uri: Uri,
    },
    /// A known method whose parameters are missing or of another type.
    BadParams,
    /// A method that no request has here.
    Unknown,
}

// By hand, so that a proof meets one call wherever a value ends.
impl Drop for Call {
    fn drop(self) {
        match self {
            Call::Initialize { root: _ }
            | Call::Shutdown
            | Call::Definition { uri: _, at: _ }
            | Call::References {
                uri: _,
                at: _,
                with_declaration: _,
            }
            | Call::Symbols { uri: _ }
            | Call::BadParams
            | Call::Unknown => {}
        }
    }
}

/// What a notification tells.
pub enum Notice {
    Exit,
    Open { uri: Uri, text: Chars },
    Change { uri: Uri, changes: List<Change> },
    Close { uri: Uri },
    Files { events: List<FileEvent> },
    /// One that is passed over.
    Other,
}

// By hand, so that a proof meets one call wherever a value ends.
impl Drop for Notice {
    fn drop(self) {
        match self {
            Notice::Exit
            | Notice::Open { uri: _, text: _ }
            | Notice::Change { uri: _, changes: _ }
            | Notice::Close { uri: _ }
            | Notice::Files { events: _ }
            | Notice::Other => {}
        }
    }
}

/// A frame's content.
pub enum Incoming {
    Request { id: Id, call: Call },
    Notice(Notice),
    /// An answer to a request that was never made.
    Dropped,
    /// What is no message: the error's code, and whom the answer names.
    Invalid { code: i32, id: Id },
}

// By hand, so that a proof meets one call wherever a value ends.
impl Drop for Incoming {
    fn drop(self) {
        match self {
            Incoming::Request { id: _, call: _ }
            | Incoming::Notice(_)
            | Incoming::Dropped
            | Incoming::Invalid { code: _, id: _ } => {}
        }
    }
}

/// An answer's result.
pub enum Reply {
    /// What the server can do.
    Initialized,
    Null,
    Place(Location),
    Places(List<Location>),
    Symbols(List<Symbol>),
}

// By hand, so that a proof meets one call wherever a value ends.
impl Drop for Reply {
    fn drop(self) {
        match self {
            Reply::Initialized
            | Reply::Null
            | Reply::Place(_)
            | Reply::Places(_)
            | Reply::Symbols(_) => {}
        }
    }
}
