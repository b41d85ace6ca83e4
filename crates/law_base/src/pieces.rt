//! Lemmas of the pieces of the one line centre's run, of the promises that each piece keeps, and of parts of lists of
//! events. They are in `proofs/`, for the crates above to cite.
//!
//! No code. The statements of `laws.rt` have to stay; their proofs may change.
