use std::sync::Arc;
use tool_list::{Chars, List};

/// What a needed name gives to the text that needs it.
#[derive(Drop)]
pub enum Input<F: Drop> {
    /// There is no text of that name.
    NoText,
    /// The needs of that name lead back to the one that needs it.
    Cyclic,
    /// The text of that name is broken.
    Broken,
    /// Its fact.
    Fact(Arc<F>),
}

/// Each needed name with what it gives, in the order of the needs.
pub type Given<F> = List<(Chars, Input<F>)>;

/// The value of a name, from the texts.
#[derive(Drop)]
pub enum Answer<F: Drop> {
    /// There is no text of that name.
    NoText,
    /// The text is broken.
    Broken,
    /// The fact.
    Fact(Arc<F>),
}

/// The text that a name gets; with `None` its text is taken away.
#[derive(Drop)]
pub struct NewText {
    /// The name.
    pub name: Chars,
    /// The bytes of its text.
    pub bytes: Option<List<u8>>,
}
