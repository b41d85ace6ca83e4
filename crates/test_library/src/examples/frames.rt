//! The examples of `rbc_linkmsg` and `rbc_board`: a frame between two centres is written, read and carried.

use rbc_board::{Carrier, CellBoard};
use rbc_linkmsg::{Body, Frame, FrameFault, decode_frame, encode_frame};
use std::alloc::Global;
use std::test::*;

/// The frame that is read from the bytes of another one.
pub fn read_again(alloc: Global) -> Result<Result<Frame, FrameFault>, Fail> {
    let frame = Frame::new(1, 4, Body::AskRight { engine: 2 });
    let bytes = encode_frame(alloc, &frame)?;
    let read = decode_frame(&bytes);
    Ok(read)
}

/// The frame that one centre gets before another has put it, and after that.
pub fn carried(alloc: Global) -> Result<[Option<Frame>; 2], Fail> {
    let frame = Frame::new(1, 4, Body::AskRight { engine: 2 });
    let board = CellBoard::new(alloc, 65_536)?;
    let mut sender = board.seen()?;
    let mut receiver = board.seen()?;
    let before = board.get(&mut receiver, 1);
    board
        .put(&mut sender, 1, frame)
        .ok()
        .ok_or("the frame is put")?;
    let after = board.get(&mut receiver, 1);
    Ok([before, after])
}
