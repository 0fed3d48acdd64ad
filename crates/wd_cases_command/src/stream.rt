//! Streams that fail.
use crate::settings::Limit;
use std::alloc::Global;
use std::io;
use std::io::{ErrorKind, Write};

/// What was written to a stream with a limit, which takes up to ten bytes at a write.
#[derive(Drop)]
pub struct Stream {
    pub bytes: Vec<u8>,
    limit: Limit,
}

impl Stream {
    /// Nothing was written yet.
    pub fn new(alloc: Global, limit: Limit) -> Stream {
        Stream {
            bytes: Vec::new(alloc),
            limit,
        }
    }
}

impl Write for Stream {
    fn write(&mut self, buf: &[u8]) -> io::Result<usize> {
        if self.limit.writes == 0 {
            return Err(io::Error::from(ErrorKind::BrokenPipe));
        }
        self.limit.writes -= 1;
        let n = buf.len().min(10);
        self.bytes.extend_from_slice(&buf[..n])?;
        Ok(n)
    }

    fn flush(&mut self) -> io::Result<()> {
        if self.limit.flushes {
            Ok(())
        } else {
            Err(io::Error::from(ErrorKind::BrokenPipe))
        }
    }
}
