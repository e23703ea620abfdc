// Small families of modules with INSTANCE beside the whole reports that the sentences of the
// language ask for.
pub mod brought;
pub mod inner;
pub mod needed;
pub mod paths;
pub mod replaced;
pub mod segments;
pub mod shared;
pub mod unnamed;
pub mod uses;
