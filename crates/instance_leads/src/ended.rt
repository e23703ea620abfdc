// Nested modules that have ended.
use crate::leads::Leads;
use name_exports::Exported;

/// A nested module that has ended.
pub struct Ended<'a> {
    /// What it exports.
    pub exports: Exported<'a>,
    /// The constants and variables that it declares or extends, and that the context round it does not
    /// hold.
    pub parameters: Exported<'a>,
    /// Where the instances lead that it exports.
    pub instances: Leads<'a>,
}

// By hand, so that a proof meets one call wherever a value ends.
impl<'a> Drop for Ended<'a> {
    fn drop(self) {
        let Ended {
            exports: _,
            parameters: _,
            instances: _,
        } = self;
    }
}
