//! Each rule is walked once: the state and the frames after an act of a centre are those of a walk of small moves. A
//! law that requires something only of every small move is proved over the walk. The walks are in `proofs/`, for the
//! crates above to cite.
//!
//! No code: the proofs may change.
