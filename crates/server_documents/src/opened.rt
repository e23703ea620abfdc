// Open documents.
ghost use Rattle.std.specs.Prelude.{◌≡◌, Some};

use lsp_wire::Note;
use std::marker::Model;
use tool_list::{Chars, List};

/// An open document: its URI as it was spelled, and the notes last sent for it.
pub struct Open {
    pub uri: Chars,
    pub sent: Option<List<Note>>,
}

// By hand, so that a proof meets one call wherever a value ends.
impl Drop for Open {
    fn drop(self) {
        let Open { uri: _, sent: _ } = self;
    }
}

/// A document whose notice is due.
pub struct Named {
    pub name: Chars,
    pub uri: Chars,
}

// By hand, so that a proof meets one call wherever a value ends.
impl Drop for Named {
    fn drop(self) {
        let Named { name: _, uri: _ } = self;
    }
}

impl Open {
    /// The same document, once these notes are sent.
    pub fn with_notes(self, notes: List<Note>) -> Open
        ensures uri { result.uri ≡ self.uri }
        ensures sent { result.sent ≡ Some notes }
    {
        let Open { uri, sent: _ } = self;
        Open {
            uri,
            sent: Some(notes),
        }
    }
}

impl Model for Named {
    ghost use Rattle.lsp_answers.specs.States as states;

    ghost Value = { states.Named };

    ghost view = { λ named. record { name = named.name; uri = named.uri } };
}

impl Named {
    /// Its URI.
    pub fn into_uri(self) -> Chars
        ensures { result ≡ self.uri }
    {
        let Named { name: _, uri } = self;
        uri
    }
}
