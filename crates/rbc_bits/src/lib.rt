//! The bits of a radio message (SUBSET-026 chapter 7): fields follow each other bit by bit, highest bit first. A reader
//! gives field after field of bytes that it borrows, a writer makes bytes of field after field.
//!
//! Bodies and proofs may change. The clauses of public functions have to stay: the crates above depend on them.
#![tactic(auto)]

mod fault;
mod part;
mod reader;
mod row;
mod word;
mod writer;

pub use fault::BitFault;
pub use part::BitPart;
pub use reader::BitReader;
pub use row::BitRow;
pub use word::BitWord;
pub use writer::BitWriter;
