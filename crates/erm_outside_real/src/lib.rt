//! The outside of the engine as the system has it: a source over a reader, a sink over a writer, and
//! a disk in a folder.
#![tactic(auto)]

mod calls;
mod folder;
mod folder_disk;
mod host_files;
mod names;
mod patient;
mod reader_source;
mod writer_sink;

pub use calls::{Access, Call, FileSystem, Lock, OpenFile};
pub use folder_disk::FolderDisk;
pub use host_files::HostFiles;
pub use names::FOLDER;
pub use patient::Patient;
pub use reader_source::ReaderSource;
pub use writer_sink::WriterSink;
