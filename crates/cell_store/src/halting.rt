// A reader and writer for tests, which is interrupted before each byte.
use std::io::{self, ErrorKind, Read, Write};

/// Moves one byte a call, each after an interruption. After `left` bytes it ends, or breaks.
#[derive(Drop)]
pub(crate) struct Halting {
    pub(crate) left: u8,
    pub(crate) breaks: bool,
    pub(crate) goes_on: bool,
}

impl Halting {
    /// Whether the next byte moves.
    fn next(&mut self) -> io::Result<bool> {
        self.goes_on = !self.goes_on;
        if self.goes_on {
            return Err(io::Error::from(ErrorKind::Interrupted));
        }
        if self.left == 0 {
            return if self.breaks {
                Err(io::Error::from(ErrorKind::Other))
            } else {
                Ok(false)
            };
        }
        self.left -= 1;
        Ok(true)
    }
}

impl Read for Halting {
    fn read(&mut self, buf: &mut [u8]) -> io::Result<usize> {
        if buf.is_empty() || !self.next()? {
            return Ok(0);
        }
        buf[0] = self.left;
        Ok(1)
    }
}

impl Write for Halting {
    fn write(&mut self, buf: &[u8]) -> io::Result<usize> {
        if buf.is_empty() || !self.next()? {
            return Ok(0);
        }
        Ok(1)
    }

    fn flush(&mut self) -> io::Result<()> {
        Ok(())
    }
}
