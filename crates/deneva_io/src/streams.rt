//! Sources and sinks of bytes.
ghost use Rattle.std.specs.Prelude.{ℕ, ◌<◌, Option, List, length};
ghost use Rattle.deneva_io.specs.Streams.{ReadGave, ReadCause, WriteTook, WriteCause};

/// What one read gave.
#[derive(Clone, Copy, Debug, PartialEq, Eq)]
pub enum Got {
    /// So many bytes, at the front of the buffer. What the buffer holds past them is not said.
    Bytes(usize),
    End,
    Failed,
}

/// What one write did.
#[derive(Clone, Copy, Debug, PartialEq, Eq)]
pub enum Put {
    /// So many bytes were taken from the front of the piece. The rest is the caller's to write again.
    Took(usize),
    Failed,
}

/// Where bytes come from. A read that failed took no byte, so the next read goes on where it stood.
pub trait Source {
    /// The bytes that are left, where the source tells them.
    ghost left: { Self → Option (List ℕ) };

    /// A count that never falls, and rises with each fault until it stands at `u64::MAX`.
    ghost faults: { Self → ℕ };

    /// It may give fewer bytes than the buffer has room for, and more may follow.
    fn read(&mut self, buf: &mut [u8]) -> Got
        requires { 0 < length buf.old }
        ensures gave { ReadGave (left self.old) (left self.new) result buf.new }
        ensures cause { ReadCause (faults self.old) (faults self.new) result };
}

/// Where bytes go. A write that failed took no byte.
pub trait Sink {
    /// The bytes taken so far, where the sink tells them.
    ghost taken: { Self → Option (List ℕ) };

    /// A count that never falls, and rises with each fault until it stands at `u64::MAX`.
    ghost faults: { Self → ℕ };

    /// It may take fewer bytes than the piece has.
    fn write(&mut self, piece: &[u8]) -> Put
        requires { 0 < length piece.now }
        ensures took { WriteTook (taken self.old) (taken self.new) result piece.now }
        ensures cause { WriteCause (faults self.old) (faults self.new) result };
}
