//! Stores of files: how a program reads and writes files by their names.
#![tactic(auto)]

mod disk;
mod file_store;
mod memory_store;
mod new_access;
mod reading;
mod store;
mod system_disk;

pub use disk::{ChangeTime, Disk, FileAccess, FileKind, FileStatus};
pub use file_store::FileStore;
pub use memory_store::MemoryStore;
pub use new_access::NewAccess;
pub use reading::{MAX_INPUT, read_all};
pub use store::{Store, StoreFault, WriteMode, grown_bytes};
pub use system_disk::SystemDisk;
