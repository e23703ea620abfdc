//! The outside, as the program sees it: a folder of files, an input and an output.
//!
//! Three traits say what each call answers and when it may fail. An object may tell what it holds;
//! contracts then name the bytes. Objects in memory tell, for tests and proofs; the adapters over
//! std tell nothing, and are the trusted edge. Knows nothing of modules or messages.
#![tactic(auto)]

use tool_list::{Chars, List};

mod failures;
mod folder;
mod memory_folder;
mod memory_sink;
mod memory_source;
mod quiet_source;
mod sink;
mod source;
mod std_folder;
mod std_sink;
mod std_source;

pub use folder::Folder;
pub use memory_folder::MemoryFolder;
pub use memory_sink::MemorySink;
pub use memory_source::MemorySource;
pub use quiet_source::QuietSource;
pub use sink::Sink;
pub use source::Source;
pub use std_folder::StdFolder;
pub use std_sink::StdSink;
pub use std_source::StdSource;

/// The outside failed. The count of the object that answers it rose by one in the call, or stands at
/// the last value of its type.
#[derive(Clone, Copy, Debug, PartialEq, Eq)]
pub struct Failed;

/// A call of the outside failed, or there was no room for its answer.
#[derive(Clone, Copy, Debug, PartialEq, Eq)]
pub enum IoFault {
    /// The outside failed: the object's count rose by one in the call, or stands at its last value.
    Failed,
    /// There was no room. The object's count is as before.
    Memory,
}

/// A file of a folder in memory.
#[derive(Drop)]
pub struct FileBytes {
    pub name: Chars,
    pub bytes: List<u8>,
}

/// The files under a path.
#[derive(Drop)]
pub struct FolderFiles {
    pub path: Chars,
    pub files: List<FileBytes>,
}

/// A file is set, or removed where there are no bytes. A file that is set under a path that is not
/// there adds the path.
#[derive(Drop)]
pub struct FileChange {
    pub path: Chars,
    pub name: Chars,
    pub bytes: Option<List<u8>>,
}

/// What a folder in memory holds. Of two entries for one path, or of two files of one name, the
/// first counts.
pub type FileMap = List<FolderFiles>;
