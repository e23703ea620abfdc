// Uses as they are shown.
use family_facts::Verdict;
use tla_model::Level;
use tla_symbols::Span;
use tla_text::Place;
use tool_list::{Chars, List};

/// A use of a name as it is shown.
pub struct FactLine {
    /// Where the name stands in its text, in bytes.
    pub name: Span,
    /// The module whose text declares it.
    pub module: Chars,
    /// Where the declaring name begins there: its line and its characters, both from 0.
    pub declared: Place,
    /// The level of the use.
    pub level: Level,
}

// By hand, so that a proof meets one call wherever a value ends.
impl Drop for FactLine {
    fn drop(self) {
        let FactLine {
            name: _,
            module: _,
            declared: _,
            level: _,
        } = self;
    }
}

/// What is said of a module: whether it is accepted, and the facts on it that are asked for.
pub struct ModuleReport {
    /// Its name, its text and what is at fault in it.
    pub verdict: Verdict,
    /// The uses of names in it, in the order of the text. There are none where it is refused, and
    /// where facts are not asked for.
    pub facts: List<FactLine>,
}

// By hand, so that a proof meets one call wherever a value ends.
impl Drop for ModuleReport {
    fn drop(self) {
        let ModuleReport {
            verdict: _,
            facts: _,
        } = self;
    }
}
