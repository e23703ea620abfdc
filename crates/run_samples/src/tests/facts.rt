// Small modules and families beside the whole reports with facts that the sentences of the language
// ask for.
pub mod actions;
pub mod arguments;
pub mod brought;
pub mod constants;
pub mod depths;
pub mod files;
pub mod formulas;
pub mod functions;
pub mod operators;
pub mod paths;
pub mod replaced;
pub mod uses;
pub mod values;
