//! A source and a sink over memory that fail at the calls of a list.
ghost use Rattle.std.specs.Prelude.{◌≡◌, ◌<◌, Some, IfOk, length};
ghost use Rattle.deneva_io.specs.Streams.{ReadGave, ReadCause, WriteTook, WriteCause};
ghost use Rattle.deneva_io.specs.Memory.{script_of, called, given_by_script, nothing_held, told, taken_by_script, held_by_script};

use crate::calls::CallScript;
use crate::streams::{Got, Put, Sink, Source};
use crate::sure::{SureSink, SureSource};
use deneva_base::{ByteList, CountList, NoMemory};
use std::alloc::Global;
use std::marker::Model;

/// A source over bytes, whose calls of `read` that are listed fail.
///
/// Calls are numbered from 0, and failed ones count too. The number stops at `u64::MAX`, far past every number that can be
/// listed.
#[derive(Drop)]
pub struct MemSource {
    source: SureSource,
    script: CallScript,
}

impl Model for MemSource {
    ghost use Rattle.deneva_io.specs.Memory.{Reading};

    ghost Value = { Reading };

    ghost view = { λ s. record { left = s.source; script = s.script } };
}

impl MemSource {
    pub fn new(bytes: ByteList, fails: CountList) -> MemSource
        ensures { result ≡ record { left = bytes; script = script_of fails } }
    {
        MemSource {
            source: SureSource::new(bytes),
            script: CallScript::new(fails),
        }
    }
}

impl Source for MemSource {
    ghost left = { λ s. Some s.left };

    ghost faults = { λ s. s.script.faults };

    fn read(&mut self, buf: &mut [u8]) -> Got
        requires { 0 < length buf.old }
        ensures gave { ReadGave (Some self.old.left) (Some self.new.left) result buf.new }
        ensures cause { ReadCause self.old.script.faults self.new.script.faults result }
        ensures answer { result ≡ given_by_script self.old (length buf.old) }
        ensures script { self.new.script ≡ called self.old.script }
    {
        if self.script.call() {
            return Got::Failed;
        }
        self.source.read(buf)
    }
}

/// A sink that holds bytes as `SureSink` does, and whose calls of `write` that are listed fail. They are numbered as
/// those of `MemSource`.
#[derive(Drop)]
pub struct MemSink {
    sink: SureSink,
    script: CallScript,
}

impl Model for MemSink {
    ghost use Rattle.deneva_io.specs.Memory.{Writing};

    ghost Value = { Writing };

    ghost view = { λ s. record { held = s.sink; script = s.script } };
}

impl MemSink {
    /// Takes the memory for the whole room.
    pub fn new(alloc: Global, room: usize, fails: CountList) -> Result<MemSink, NoMemory>
        ensures { IfOk result (λ s. s ≡ record { held = nothing_held room; script = script_of fails }) }
    {
        Ok(MemSink {
            sink: SureSink::new(alloc, room)?,
            script: CallScript::new(fails),
        })
    }

    /// The first `room` bytes that were taken.
    pub fn bytes(&self) -> &[u8]
        ensures { result.now ≡ self.now.held.bytes }
    {
        self.sink.bytes()
    }

    /// The number of all bytes that were taken. It stops at `u64::MAX`.
    pub fn count(&self) -> u64
        ensures { result ≡ self.now.held.count }
    {
        self.sink.count()
    }
}

impl Sink for MemSink {
    ghost taken = { λ s. told s.held };

    ghost faults = { λ s. s.script.faults };

    fn write(&mut self, piece: &[u8]) -> Put
        requires { 0 < length piece.now }
        ensures took { WriteTook (told self.old.held) (told self.new.held) result piece.now }
        ensures cause { WriteCause self.old.script.faults self.new.script.faults result }
        ensures answer { result ≡ taken_by_script self.old piece.now }
        ensures held { self.new.held ≡ held_by_script self.old piece.now }
        ensures script { self.new.script ≡ called self.old.script }
    {
        if self.script.call() {
            return Put::Failed;
        }
        self.sink.write(piece)
    }
}
