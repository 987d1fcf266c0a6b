//! A durable log: batches of entries on a disk that may stop at any moment.
#![tactic(auto)]

mod batch;
mod batches;
mod disk;
mod headed;
mod laws;
mod log;
mod mem_disk;
mod opening;
mod reading;
mod replay;
mod std_disk;
mod window;

pub use batch::Batch;
pub use batches::Batches;
pub use disk::Disk;
pub use headed::{Head, Headed, HeadedFault, open_headed};
pub use laws::{one_head, one_holding, one_reading, prefix_spells};
pub use log::{Log, MakeFault};
pub use mem_disk::MemDisk;
pub use opening::{Opened, open_log};
pub use reading::{ReadLogFault, read_log};
pub use std_disk::{LockFile, StdDisk};
