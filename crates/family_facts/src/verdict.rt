// Files of modules, and what is found of them.
use tla_model::Diagnostic;
use tla_text::Text;
use tool_list::{Chars, List};

/// A module file, by the name of its module.
pub struct File {
    pub name: Chars,
    pub bytes: List<u8>,
}

// By hand, so that a proof meets one call wherever a value ends.
impl Drop for File {
    fn drop(self) {
        let File { name: _, bytes: _ } = self;
    }
}

/// What was found of a module. It is accepted exactly where there are no faults.
pub struct Verdict {
    pub name: Chars,
    /// The longest front of the file that is a text; the faults stand in it.
    pub text: Text,
    pub faults: List<Diagnostic>,
}

// By hand, so that a proof meets one call wherever a value ends.
impl Drop for Verdict {
    fn drop(self) {
        let Verdict {
            name: _,
            text: _,
            faults: _,
        } = self;
    }
}
