//! Sources and sinks over the readers and writers of std.
ghost use Rattle.std.specs.Prelude.{◌≡◌, ◌<◌, None, length};
ghost use Rattle.deneva_io.specs.Streams.{ReadGave, ReadCause, faults_after_read, WriteTook, WriteCause, WroteOn, faults_after_write};

use crate::streams::{Got, Put, Sink, Source};
use std::io::{Read, Write};
use std::marker::Model;

/// A source over a reader. Each error of the reader, of whatever kind, is a fault.
#[derive(Drop)]
pub struct ReadSource<R: Read> {
    inner: R,
    faults: u64,
}

impl<R: Read> Model for ReadSource<R> {
    ghost use Rattle.deneva_io.specs.Streams.{Adapted};

    ghost Value = { Adapted };

    ghost view = { λ s. record { known = R.remaining s.inner; faults = s.faults } };
}

impl<R: Read> ReadSource<R> {
    pub fn new(inner: R) -> ReadSource<R>
        ensures { result ≡ record { known = R.remaining inner; faults = 0 } }
    {
        ReadSource { inner, faults: 0 }
    }
}

impl<R: Read> Source for ReadSource<R> {
    ghost left = { λ s. s.known };

    ghost faults = { λ s. s.faults };

    fn read(&mut self, buf: &mut [u8]) -> Got
        requires { 0 < length buf.old }
        ensures gave { ReadGave self.old.known self.new.known result buf.new }
        ensures cause { ReadCause self.old.faults self.new.faults result }
        ensures counted { self.new.faults ≡ faults_after_read self.old.faults result }
    {
        match self.inner.read(buf) {
            Ok(0) => Got::End,
            Ok(count) => Got::Bytes(count),
            Err(_) => {
                self.faults = self.faults.saturating_add(1);
                Got::Failed
            }
        }
    }
}

/// A sink over a writer. Each error of the writer, of whatever kind, is a fault, and so is a write that takes nothing.
///
/// It tells no bytes to a caller that is generic over `Sink`: what a writer holds is known only where its type says it.
#[derive(Drop)]
pub struct WriteSink<W: Write> {
    inner: W,
    faults: u64,
}

impl<W: Write> Model for WriteSink<W> {
    ghost use Rattle.deneva_io.specs.Streams.{Adapted};

    ghost Value = { Adapted };

    ghost view = { λ s. record { known = W.contents s.inner; faults = s.faults } };
}

impl<W: Write> WriteSink<W> {
    pub fn new(inner: W) -> WriteSink<W>
        ensures { result ≡ record { known = W.contents inner; faults = 0 } }
    {
        WriteSink { inner, faults: 0 }
    }

    /// The writer, which a caller may have to flush.
    pub fn into_inner(self) -> W
        ensures { W.contents result ≡ self.known }
    {
        let WriteSink { inner, .. } = self;
        inner
    }
}

impl<W: Write> Sink for WriteSink<W> {
    ghost taken = { λ _. None };

    ghost faults = { λ s. s.faults };

    fn write(&mut self, piece: &[u8]) -> Put
        requires { 0 < length piece.now }
        ensures took { WriteTook None None result piece.now }
        ensures cause { WriteCause self.old.faults self.new.faults result }
        ensures wrote { WroteOn self.old.known self.new.known result piece.now }
        ensures counted { self.new.faults ≡ faults_after_write self.old.faults result }
    {
        match self.inner.write(piece) {
            Ok(0) | Err(_) => {
                self.faults = self.faults.saturating_add(1);
                Put::Failed
            }
            Ok(count) => Put::Took(count),
        }
    }
}

#[cfg(test)]
mod tests {
    use super::*;
    use std::io;
    use std::test::Fail;

    /// A reader and a writer that err at every call.
    #[derive(Drop)]
    struct Broken;

    impl Read for Broken {
        fn read(&mut self, _buf: &mut [u8]) -> io::Result<usize> {
            Err(io::ErrorKind::Other.into())
        }
    }

    impl Write for Broken {
        fn write(&mut self, _buf: &[u8]) -> io::Result<usize> {
            Err(io::ErrorKind::Other.into())
        }

        fn flush(&mut self) -> io::Result<()> {
            Ok(())
        }
    }

    /// A writer that takes nothing.
    #[derive(Drop)]
    struct Full;

    impl Write for Full {
        fn write(&mut self, _buf: &[u8]) -> io::Result<usize> {
            Ok(0)
        }

        fn flush(&mut self) -> io::Result<()> {
            Ok(())
        }
    }

    #[test]
    fn reads_to_the_end(rt: HostRuntime) {
        let bytes: &[u8] = b"abc";
        let mut source = ReadSource::new(bytes);
        let mut buf = [0; 2];
        assert_eq!(rt; source.read(&mut buf), Got::Bytes(2));
        assert_eq!(rt; buf, *b"ab");
        assert_eq!(rt; source.read(&mut buf), Got::Bytes(1));
        assert_eq!(rt; buf[0], b'c');
        assert_eq!(rt; source.read(&mut buf), Got::End);
        assert_eq!(rt; source.faults, 0);
    }

    #[test]
    fn writes_on(rt: HostRuntime) {
        let mut sink = WriteSink::new(Vec::new(rt.alloc()));
        assert_eq!(rt; sink.write(b"ab"), Put::Took(2));
        assert_eq!(rt; sink.write(b"c"), Put::Took(1));
        assert_eq!(rt; sink.faults, 0);
        assert_eq!(rt; sink.into_inner().as_slice(), b"abc".as_slice());
    }

    #[test]
    fn counts_faults(rt: HostRuntime) {
        let mut source = ReadSource::new(Broken);
        assert_eq!(rt; source.read(&mut [0; 2]), Got::Failed);
        assert_eq!(rt; source.faults, 1);
        let mut broken = WriteSink::new(Broken);
        assert_eq!(rt; broken.write(b"a"), Put::Failed);
        assert_eq!(rt; broken.faults, 1);
        let mut full = WriteSink::new(Full);
        assert_eq!(rt; full.write(b"a"), Put::Failed);
        assert_eq!(rt; full.write(b"a"), Put::Failed);
        assert_eq!(rt; full.faults, 2);
    }
}
