//! Where bytes come from and go to: sources, sinks and the folders of disks, kinds in memory and real ones, and a
//! reader of lines. Bytes flow from a source through the reader, and from a disk, up to the commands, and from these
//! down into a sink.
#![tactic(auto)]

mod adapters;
mod disk;
mod folder_disk;
mod give;
mod listed;
mod mem_disk;
mod mem_sink;
mod mem_source;
mod reader;
mod shelf;
mod steady;
mod steady_disk;
mod stop;
mod traits;

pub use adapters::{StdSink, StdSource};
pub use disk::{Disk, DiskEnd};
pub use folder_disk::FolderDisk;
pub use mem_disk::MemDisk;
pub use mem_sink::MemSink;
pub use mem_source::MemSource;
pub use reader::Reader;
pub use shelf::Folder;
pub use steady::{SteadySink, SteadySource};
pub use steady_disk::SteadyDisk;
pub use stop::ReadStop;
pub use traits::{Failed, Sink, Source};
