//! A source and a sink over memory that never fail.
ghost use Rattle.std.specs.Prelude.{◌≡◌, ◌<◌, Some, IfOk, ◌≤◌, ◌++◌, length, min, take, vec_capacity};
ghost use Rattle.deneva_io.specs.Streams.{ReadGave, ReadCause, WriteTook, WriteCause};
ghost use Rattle.deneva_io.specs.declared.streams.Put.TheVariants.{Took};
ghost use Rattle.deneva_io.specs.Memory.{given, nothing_held, held_with, told};

use crate::streams::{Got, Put, Sink, Source};
use deneva_base::{ByteList, NoMemory};
use std::alloc::Global;
use std::marker::Model;

/// A source over bytes, which never fails. Contracts see it as the list of the bytes that are left.
#[derive(Drop)]
pub struct SureSource {
    bytes: ByteList,
    at: usize,
}

impl Model for SureSource {
    ghost use Rattle.std.specs.Prelude.{ℕ, List, ◌≤◌, drop, length};

    ghost Value = { List ℕ };

    ghost view = { λ s. drop s.at s.bytes };

    ghost invariant = { λ s. s.at ≤ length s.bytes };
}

impl SureSource {
    pub fn new(bytes: ByteList) -> SureSource
        ensures { result ≡ bytes }
    {
        SureSource { bytes, at: 0 }
    }
}

impl Source for SureSource {
    ghost left = { λ s. Some s };

    ghost faults = { λ _. 0 };

    fn read(&mut self, buf: &mut [u8]) -> Got
        requires { 0 < length buf.old }
        ensures gave { ReadGave (Some self.old) (Some self.new) result buf.new }
        ensures cause { ReadCause 0 0 result }
        ensures answer { result ≡ given self.old (length buf.old) }
    {
        let left = &self.bytes.as_slice()[self.at..];
        if left.is_empty() {
            return Got::End;
        }
        let count = copy_front(left, buf);
        self.at += count;
        Got::Bytes(count)
    }
}

/// Copies as many bytes as both have, and answers how many.
fn copy_front(from: &[u8], to: &mut [u8]) -> usize
    ensures count { result ≡ min (length to.old) (length from.now) }
    ensures copied { take result to.new ≡ take result from.now }
{
    let count = to.len().min(from.len());
    to[..count].copy_from_slice(&from[..count]);
    count
}

/// A sink with room for so many bytes, which never fails: past its room it counts the bytes and lets them go.
///
/// It tells what it took as long as all of it is held.
#[derive(Drop)]
pub struct SureSink {
    bytes: Vec<u8>,
    room: usize,
    count: u64,
}

impl Model for SureSink {
    ghost use Rattle.std.specs.Prelude.{◌≡◌, ◌≤◌, ◌<◌, ◌^◌, length, min, vec_capacity};
    ghost use Rattle.deneva_io.specs.Memory.{Held};

    ghost Value = { Held };

    ghost view = { λ s. record { room = s.room; bytes = s.bytes.items; count = s.count } };

    ghost invariant = { λ s. (s.room ≤ vec_capacity s.bytes) × (s.room < 2 ^ 63) × (length s.bytes.items ≡ min s.count s.room) };
}

impl SureSink {
    /// Takes the memory for the whole room.
    pub fn new(alloc: Global, room: usize) -> Result<SureSink, NoMemory>
        ensures { IfOk result (λ s. s ≡ nothing_held room) }
    {
        let bytes = Vec::with_capacity(alloc, room)?;
        Ok(SureSink {
            bytes,
            room,
            count: 0,
        })
    }

    /// The first `room` bytes that were taken.
    pub fn bytes(&self) -> &[u8]
        ensures { result.now ≡ self.now.bytes }
    {
        &self.bytes
    }

    /// The number of all bytes that were taken. It stops at `u64::MAX`.
    pub fn count(&self) -> u64
        ensures { result ≡ self.now.count }
    {
        self.count
    }
}

impl Sink for SureSink {
    ghost taken = { told };

    ghost faults = { λ _. 0 };

    fn write(&mut self, piece: &[u8]) -> Put
        requires { 0 < length piece.now }
        ensures took { WriteTook (told self.old) (told self.new) result piece.now }
        ensures cause { WriteCause 0 0 result }
        ensures all { result ≡ Took (length piece.now) }
        ensures held { self.new ≡ held_with self.old piece.now }
    {
        fill(&mut self.bytes, self.room, piece);
        self.count = self.count.saturating_add(piece.len() as u64);
        Put::Took(piece.len())
    }
}

/// Puts as much of a piece at the end as there is room for.
#[tactic(auto, using(crate::proofs::Rooms::fills))]
fn fill(bytes: &mut Vec<u8>, room: usize, piece: &[u8])
    requires fits { length bytes.old.items ≤ room }
    requires reserved { room ≤ vec_capacity bytes.old }
    ensures filled { bytes.new.items ≡ take room (bytes.old.items ++ piece.now) }
    ensures reserved { room ≤ vec_capacity bytes.new }
{
    let kept = (room - bytes.len()).min(piece.len());
    // The room was reserved, so this finds memory.
    let _ = bytes.extend_from_slice(&piece[..kept]);
}
