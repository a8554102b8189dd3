// A source and a sink of bytes.
ghost use Rattle.std.specs.Prelude.{◌<◌, length};
ghost use Rattle.cell_store.specs.Stream.{Stream, Takes, Gives};

/// What a read answers.
#[derive(Clone, Copy, Debug, PartialEq, Eq)]
pub enum Took {
    /// This many bytes, at least one, stand at the front of the buffer.
    Read { n: usize },
    /// Nothing is left.
    End,
    /// The outside failed, and nothing was taken.
    Failed,
}

/// Bytes that are read from the front.
pub trait Source {
    /// The bytes that are left, where they are told, and the count of faults.
    ghost stream: { Self → Stream };

    /// Takes the next bytes to the front of a buffer.
    fn read(&mut self, into: &mut [u8]) -> Took
        requires { 0 < length into.old }
        ensures { Takes (stream self.old) (stream self.new) into.new result };
}

/// What a write answers.
#[derive(Clone, Copy, Debug, PartialEq, Eq)]
pub enum Gave {
    /// This many bytes of the front, at least one, were written.
    Wrote { n: usize },
    /// The outside failed, and nothing was written.
    Failed,
    /// There was no memory, and nothing was written.
    NoMemory,
}

/// Bytes that are written at the end.
pub trait Sink {
    /// The bytes that are written, where they are told, and the count of faults.
    ghost stream: { Self → Stream };

    /// Writes bytes of the front of a list.
    fn write(&mut self, bytes: &[u8]) -> Gave
        requires { 0 < length bytes.now }
        ensures { Gives (stream self.old) (stream self.new) bytes.now result };
}
