//! Tests of bytes: streams in pieces, random bytes, frames between two centres, and a queue that carries them.
mod board;
pub mod bytes;
mod chance;
mod frame_bytes;
mod hostile;
mod stream;
