use std::alloc::Global;
use std::io;
use std::io::{ErrorKind, Write};

/// The print of a command: a writer that takes this many bytes, and then refuses.
#[derive(Drop)]
pub struct Page {
    pub bytes: Vec<u8>,
    room: usize,
}

impl Page {
    pub fn new(alloc: Global, room: usize) -> Page {
        Page {
            bytes: Vec::new(alloc),
            room,
        }
    }
}

impl Write for Page {
    fn write(&mut self, bytes: &[u8]) -> io::Result<usize> {
        if self.room == 0 {
            return Err(ErrorKind::BrokenPipe.into());
        }
        let taken = bytes.len().min(self.room);
        self.bytes.extend_from_slice(&bytes[..taken])?;
        self.room -= taken;
        Ok(taken)
    }

    fn flush(&mut self) -> io::Result<()> {
        Ok(())
    }
}
