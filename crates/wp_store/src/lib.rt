//! A store of records on a disk that no crash breaks.
#![tactic(auto)]

mod bodies;
mod calls;
mod disk;
mod disk_file;
mod done;
mod faults;
mod file_counts;
mod mem_disk;
mod mem_file;
mod opened;
mod real_disk;
mod records;
mod recovery;
mod steps;
mod store;
mod system_file;
mod written;

pub use bodies::Bodies;
pub use disk::{Disk, DiskFailed, DiskFault};
pub use disk_file::DiskFile;
pub use faults::{AppendFault, OpenFault};
pub use mem_disk::MemDisk;
pub use mem_file::{FileRoom, MemFile};
pub use opened::Store;
pub use real_disk::RealDisk;
pub use records::{MOST_BODY_BYTES, MOST_RECORDS, MOST_STORE_BYTES};
pub use recovery::{Opened, Recovered, open, recover};
pub use system_file::{STORE_FILE, SystemFile};
