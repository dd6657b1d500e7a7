// The outside: where bytes come from, where they go, and the disk.
#![tactic(auto)]

mod area;
mod bytes;
mod call;
mod crash;
mod damage;
mod disk;
mod failed;
mod held;
mod history;
mod mem_disk;
mod mem_sink;
mod mem_source;
mod no_disk;
mod pick;
mod quiet;
mod since;
mod sink;
mod source;

pub use area::Area;
pub use bytes::Bytes;
pub use damage::{Damage, Fault};
pub use disk::Disk;
pub use failed::Failed;
pub use mem_disk::MemDisk;
pub use mem_sink::MemSink;
pub use mem_source::MemSource;
pub use no_disk::NoDisk;
pub use pick::Pick;
pub use quiet::{QuietSink, QuietSource};
pub use since::fault_since;
pub use sink::{Sink, write_all};
pub use source::Source;
