//! Desks, which serve the requests of `machine`: one over any index (`IndexDesk`), over the tables
//! of a database (`TableDesk`), and over an index in memory, for tests and for reading
//! (`PlainDesk`). `machine` says what a desk serves; its names are exported here too. The tests
//! call public functions alone, and are in the crate `test_desks`.
#![tactic(auto)]

mod index;
mod index_desk;
mod kept;
mod listed;
mod memory_desk;
mod memory_index;
mod plain;
mod project;
mod rows;
mod selected;
mod table_desk;
mod table_index;

pub use index::{Index, IndexFault, Wanted};
pub use index_desk::IndexDesk;
pub use machine::{
    Code, Command, Desk, DocUri, Key, ProjectName, Query, Reply, Request, RunFault, Upload,
    UploadFault, answer_law, judgement_law, read_number, reply_law, retry_law, run,
};
pub use memory_desk::{MemoryDesk, memory_law};
pub use memory_index::MemoryIndex;
pub use plain::PlainDesk;
pub use table_desk::TableDesk;
