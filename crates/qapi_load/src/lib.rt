//! Where the files of a schema, a bind file or a script come from: the trait of libraries, a
//! library in memory, and the expressions of a schema's files in reading order.
#![tactic(auto)]

pub mod fault;
mod includes;
pub mod library;
mod loading;
pub mod memory;
mod open_file;
mod parsing;
mod reading;
pub mod source;

pub use fault::{LoadFault, LoadRule};
pub use library::{Library, LibraryFault};
pub use loading::load_files;
pub use memory::{FileList, LibraryFile, MemoryLibrary};
pub use source::{Source, SourceList};
