//! Items in a line, of which any can be taken out.
ghost use Rattle.std.specs.Prelude.{◌≡◌, ◌++◌, ◌∷◌, [], ◌<◌, ◌≤◌, ◌^◌, length, slice_get, Some, ℕ, ◌↔◌, IsTrue, IfSome, IfNone, IfErr, OnOk, OnErr};
ghost use Rattle.std.specs.List.{remove};
ghost use Rattle.server_core.specs.declared.messages.Mail.{Mail};
ghost use Rattle.world.specs.Chunks.{LiesAt, joined};
ghost use Rattle.world.specs.Matches.{Gives, IsFirst};

use deneva_base::{NoMemory, PushNoMemory};
use server_core::{Entry, Mail};
use std::alloc::Global;
use std::collections::VecDeque;
use std::marker::Model;
use std::mem;

/// How many items a chunk has at most.
const CHUNK: usize = 512;

/// So few items of two chunks go into one.
const FEW: usize = 256;

/// How many items a line has at most: more than a memory has room for.
const MOST: usize = 1 << 62;

/// A piece of a line. An item lies in a box, so that few bytes move where one is taken out.
#[derive(Drop)]
struct Chunk<T> {
    items: VecDeque<Box<T>>,
}

impl<T> Model for Chunk<T> {
    ghost use Rattle.std.specs.Prelude.{List, map};

    ghost Value = { List T };

    ghost view = { λ c. map (λ b. b.value) c.items.items };
}

impl<T> Chunk<T> {
    fn new(alloc: Global) -> Chunk<T>
        ensures { result ≡ [] }
    {
        Chunk {
            items: VecDeque::new(alloc),
        }
    }

    fn len(&self) -> usize
        ensures { result ≡ length self.now }
    {
        self.items.len()
    }

    fn get(&self, place: usize) -> &T
        requires { place < length self.now }
        ensures { slice_get self.now place ≡ Some result.now }
    {
        &self.items[place]
    }

    /// Puts an item at the end.
    fn push(&mut self, alloc: Global, item: T) -> Result<(), PushNoMemory<T>>
        ensures ok { OnOk result (self.new ≡ self.old ++ item ∷ []) }
        ensures err { OnErr result (self.new ≡ self.old) }
        ensures returned { IfErr result (λ e. e.item ≡ item) }
    {
        match Box::new(alloc, item) {
            Ok(item) => match self.items.push_back(item) {
                Ok(()) => Ok(()),
                Err(refused) => Err(PushNoMemory {
                    item: Box::into_inner(refused.value),
                }),
            },
            Err(refused) => Err(PushNoMemory {
                item: refused.value,
            }),
        }
    }

    /// Takes out the item at this place.
    fn take(&mut self, place: usize) -> T
        requires { place < length self.old }
        ensures item { slice_get self.old place ≡ Some result }
        ensures left { self.new ≡ remove self.old place }
    {
        match self.items.remove(place) {
            Some(item) => Box::into_inner(item),
            None => unreachable!(),
        }
    }
}

impl<T: Drop> Chunk<T> {
    /// Moves the items of another chunk to the end.
    fn append(&mut self, next: &mut Chunk<T>) -> Result<(), NoMemory>
        ensures ok { OnOk result ((self.new ≡ self.old ++ next.old) × (next.new ≡ [])) }
        ensures err { OnErr result ((self.new ≡ self.old) × (next.new ≡ next.old)) }
    {
        Ok(self.items.append(&mut next.items)?)
    }
}

/// The chunk that the item at `index` of all lies in, and its place there.
#[inline(never)]
fn find<T>(chunks: &VecDeque<Chunk<T>>, index: usize) -> (usize, usize)
    requires { index < length (joined chunks.now.items) }
    ensures { LiesAt chunks.now.items index result.0 result.1 }
{
    let mut chunk = 0;
    let mut place = index;
    loop {
        let len = chunks[chunk].len();
        if place < len {
            return (chunk, place);
        }
        place -= len;
        chunk += 1;
    }
}

/// Items in the order in which they were put. Taking one out costs by the number of chunks.
#[derive(Drop)]
pub struct Flight<T> {
    alloc: Global,
    chunks: VecDeque<Chunk<T>>,
    len: usize,
}

impl<T> Model for Flight<T> {
    ghost use Rattle.std.specs.Prelude.{List, ◌≡◌, ◌≤◌, ◌^◌, length};
    ghost use Rattle.world.specs.Chunks.{joined};

    ghost Value = { List T };

    ghost view = { λ f. joined f.chunks.items };

    ghost invariant = { λ f. (f.len ≡ length (joined f.chunks.items)) × (f.len ≤ 2 ^ 62) };
}

impl<T> Flight<T> {
    pub fn new(alloc: Global) -> Flight<T>
        ensures { result ≡ [] }
    {
        Flight {
            alloc,
            chunks: VecDeque::new(alloc),
            len: 0,
        }
    }

    pub fn len(&self) -> usize
        ensures len { result ≡ length self.now }
        ensures small { length self.now ≤ 2 ^ 62 }
    {
        self.len
    }

    /// The item at `index`, counted from 0.
    pub fn get(&self, index: usize) -> &T
        requires { index < length self.now }
        ensures { slice_get self.now index ≡ Some result.now }
    {
        let (chunk, place) = find(&self.chunks, index);
        self.chunks[chunk].get(place)
    }
}

impl<T: Drop> Flight<T> {
    /// Puts an item at the end.
    pub fn push(&mut self, item: T) -> Result<(), PushNoMemory<T>>
        ensures ok { OnOk result (self.new ≡ self.old ++ item ∷ []) }
        ensures err { OnErr result (self.new ≡ self.old) }
        ensures returned { IfErr result (λ e. e.item ≡ item) }
    {
        if self.len >= MOST || open_last(self.alloc, &mut self.chunks).is_err() {
            return Err(PushNoMemory { item });
        }
        match push_last(self.alloc, &mut self.chunks, item) {
            Ok(()) => {
                self.len += 1;
                Ok(())
            }
            Err(refused) => Err(refused),
        }
    }

    /// Takes out the item at `index`. It needs no memory.
    pub fn take(&mut self, index: usize) -> T
        requires { index < length self.old }
        ensures item { slice_get self.old index ≡ Some result }
        ensures left { self.new ≡ remove self.old index }
    {
        let item = take_at(self.alloc, &mut self.chunks, index);
        self.len -= 1;
        item
    }
}

/// Has the last chunk be one with room: where there is none, an empty one is put at the end.
fn open_last<T: Drop>(alloc: Global, chunks: &mut VecDeque<Chunk<T>>) -> Result<(), NoMemory>
    ensures items { joined chunks.new.items ≡ joined chunks.old.items }
    ensures ok { OnOk result (0 < length chunks.new.items) }
{
    if let Some(last) = chunks.back() {
        if last.len() < CHUNK {
            return Ok(());
        }
    }
    Ok(chunks.push_back(Chunk::new(alloc))?)
}

/// Puts an item at the end of the last chunk.
fn push_last<T>(
    alloc: Global,
    chunks: &mut VecDeque<Chunk<T>>,
    item: T,
) -> Result<(), PushNoMemory<T>>
    requires { 0 < length chunks.old.items }
    ensures ok { OnOk result (joined chunks.new.items ≡ joined chunks.old.items ++ item ∷ []) }
    ensures err { OnErr result (joined chunks.new.items ≡ joined chunks.old.items) }
    ensures returned { IfErr result (λ e. e.item ≡ item) }
{
    let last = chunks.len() - 1;
    let chunk = &mut chunks[last];
    match chunk.push(alloc, item) {
        Ok(()) => Ok(()),
        Err(refused) => Err(refused),
    }
}

/// Takes out the item at `index` of all. Chunks with few items are joined, so that half of all places are taken.
fn take_at<T: Drop>(alloc: Global, chunks: &mut VecDeque<Chunk<T>>, index: usize) -> T
    requires { index < length (joined chunks.old.items) }
    ensures item { slice_get (joined chunks.old.items) index ≡ Some result }
    ensures left { joined chunks.new.items ≡ remove (joined chunks.old.items) index }
{
    let (number, place) = find(chunks, index);
    let chunk = &mut chunks[number];
    let item = chunk.take(place);
    join_few(alloc, chunks, number);
    join_few(alloc, chunks, number.saturating_sub(1));
    item
}

/// Puts the items of the next chunk into this one, where both have few.
fn join_few<T: Drop>(alloc: Global, chunks: &mut VecDeque<Chunk<T>>, number: usize)
    ensures { joined chunks.new.items ≡ joined chunks.old.items }
{
    if chunks.len() < 2 || number > chunks.len() - 2 {
        return;
    }
    let (here, there) = (chunks[number].len(), chunks[number + 1].len());
    if here > FEW || there > FEW - here {
        return;
    }
    let mut next = mem::replace(&mut chunks[number + 1], Chunk::new(alloc));
    match chunks[number].append(&mut next) {
        Ok(()) => drop(chunks.remove(number + 1)),
        Err(_) => chunks[number + 1] = next,
    }
}

/// Whether the entry is of this mail.
fn gives(mail: &Mail, entry: &Entry) -> bool
    ensures { IsTrue result ↔ Gives mail.now entry.now }
{
    mail.from == entry.from && mail.to == entry.node && mail.msg.is_same(&entry.msg)
}

impl Chunk<Mail> {
    /// The first place whose mail gives this entry.
    fn position(&self, entry: &Entry) -> Option<usize>
        ensures some { IfSome result (λ place. IsFirst self.now entry.now place) }
        ensures none { IfNone result ((place : ℕ) (m : Mail) → slice_get self.now place ≡ Some m → Gives m entry.now → ⊥) }
    {
        for place in 0..self.len() {
            if gives(self.get(place), entry) {
                return Some(place);
            }
        }
        None
    }
}

impl Flight<Mail> {
    /// The first index whose mail gives this entry. It looks at each mail before it.
    pub fn position(&self, entry: &Entry) -> Option<usize>
        ensures some { IfSome result (λ index. IsFirst self.now entry.now index) }
        ensures none { IfNone result ((index : ℕ) (m : Mail) → slice_get self.now index ≡ Some m → Gives m entry.now → ⊥) }
    {
        position_in(&self.chunks, entry)
    }
}

fn position_in(chunks: &VecDeque<Chunk<Mail>>, entry: &Entry) -> Option<usize>
    requires { length (joined chunks.now.items) ≤ 2 ^ 62 }
    ensures some { IfSome result (λ index. IsFirst (joined chunks.now.items) entry.now index) }
    ensures none { IfNone result ((index : ℕ) (m : Mail) → slice_get (joined chunks.now.items) index ≡ Some m → Gives m entry.now → ⊥) }
{
    let mut before = 0;
    for number in 0..chunks.len() {
        let chunk = &chunks[number];
        if let Some(place) = chunk.position(entry) {
            return Some(before + place);
        }
        before += chunk.len();
    }
    None
}
