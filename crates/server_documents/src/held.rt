// What is held of modules and documents.
ghost use Rattle.std.specs.Prelude.{◌≡◌, IfOk, map};
ghost use Rattle.server_documents.specs.Held as in_held;

use std::alloc::Global;
use std::collections::BTreeMap;
use std::marker::Model;
use tla_text::Text;
use tool_list::{Chars, List, Memory};

// The text of a module: the bytes of its file, or the text of its open document.
pub enum Held {
    File(List<u8>),
    Document(Text),
}

// By hand, so that a proof meets one call wherever a value ends.
impl Drop for Held {
    fn drop(self) {
        match self {
            Held::File(_) => {}
            Held::Document(_) => {}
        }
    }
}

impl Held {
    pub fn bytes(&self) -> &[u8]
        ensures { result.now ≡ in_held.bytes_of self.now }
    {
        match self {
            Held::File(bytes) => bytes.as_slice(),
            Held::Document(text) => text.bytes(),
        }
    }
}

/// The text of a module: its name and its bytes, which are held elsewhere.
pub struct ModuleText<'a> {
    name: &'a Chars,
    bytes: &'a [u8],
}

// By hand, so that a proof meets one call wherever a value ends.
impl<'a> Drop for ModuleText<'a> {
    fn drop(self) {
        let ModuleText { name: _, bytes: _ } = self;
    }
}

impl<'a> Model for ModuleText<'a> {
    ghost use Rattle.lsp_answers.specs.States as states;

    ghost Value = { states.ModuleText };

    ghost view = { λ text. record { name = text.name.now; bytes = text.bytes.now } };
}

impl<'a> ModuleText<'a> {
    /// The module's name.
    pub fn name(&self) -> &'a Chars
        ensures { result.now ≡ self.now.name }
    {
        self.name
    }

    /// Its bytes.
    pub fn bytes(&self) -> &'a [u8]
        ensures { result.now ≡ self.now.bytes }
    {
        self.bytes
    }
}

/// All texts, in byte order of their names.
pub fn texts_of<'a>(
    alloc: Global,
    texts: &'a BTreeMap<Chars, Held>,
) -> Result<List<ModuleText<'a>>, Memory>
    ensures { IfOk result (λ found. found ≡ map in_held.text_as texts.now.entries) }
{
    let mut found = List::new(alloc);
    for (name, held) in texts {
        found.push(ModuleText {
            name,
            bytes: held.bytes(),
        })?;
    }
    Ok(found)
}
