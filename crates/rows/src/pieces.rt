//! A reader and a writer that go on in small pieces, and fail once, after so many calls: they are interrupted, which some take
//! for a reason to try again. A call after the failed one goes well again, so that a body which does so is told apart.
use std::io;
use std::io::{Read, Write};

/// Gives at most so many bytes a read, and fails once, after so many reads.
#[derive(Drop)]
pub(crate) struct PieceReader<'a> {
    pub(crate) bytes: &'a [u8],
    pub(crate) piece: usize,
    pub(crate) left: u64,
}

impl Read for PieceReader<'_> {
    fn read(&mut self, buffer: &mut [u8]) -> io::Result<usize> {
        if self.left == 0 {
            self.left = u64::MAX;
            return Err(io::Error::from(io::ErrorKind::Interrupted));
        }
        self.left -= 1;
        let len = buffer.len().min(self.piece).min(self.bytes.len());
        let (front, rest) = self.bytes.split_at(len);
        buffer[..len].copy_from_slice(front);
        self.bytes = rest;
        Ok(len)
    }
}

/// How a write fails.
#[derive(Clone, Copy, Debug, PartialEq, Eq)]
pub(crate) enum Failure {
    Error,
    TakesNothing,
}

/// Takes at most so many bytes a write, and fails once, after so many writes.
#[derive(Drop)]
pub(crate) struct PieceWriter {
    pub(crate) held: Vec<u8>,
    pub(crate) piece: usize,
    pub(crate) left: u64,
    pub(crate) failure: Failure,
}

impl Write for PieceWriter {
    fn write(&mut self, bytes: &[u8]) -> io::Result<usize> {
        if self.left == 0 {
            self.left = u64::MAX;
            return match self.failure {
                Failure::Error => Err(io::Error::from(io::ErrorKind::Interrupted)),
                Failure::TakesNothing => Ok(0),
            };
        }
        self.left -= 1;
        let (front, _) = bytes.split_at(bytes.len().min(self.piece));
        self.held.extend_from_slice(front)?;
        Ok(front.len())
    }

    fn flush(&mut self) -> io::Result<()> {
        Ok(())
    }
}
