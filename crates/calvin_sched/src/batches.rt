//! The batches that came.
ghost use Rattle.std.specs.Prelude.{◌≡◌, ◌<◌, length, replicate, slice_set, IfOk, Some, None};
ghost use Rattle.calvin_sched.specs.Batches.{came, AreTaken, newly};

use deneva_base::{IdList, NoMemory, TxnId};
use std::alloc::Global;

/// The batches that came, by epoch and then by sequencer, and how many are taken: the first ones, as far as all came.
#[derive(Drop)]
pub(crate) struct Batches {
    alloc: Global,
    came: Vec<Option<IdList>>,
    taken: usize,
}

impl Batches {
    /// Room for so many batches, of which none came.
    pub fn begin(alloc: Global, count: usize) -> Result<Batches, NoMemory>
        ensures { IfOk result (λ b. (came b ≡ replicate count None) × AreTaken b) }
    {
        let mut came = Vec::with_capacity(alloc, count)?;
        for _ in 0..count {
            came.push(None)?;
        }
        Ok(Batches {
            alloc,
            came,
            taken: 0,
        })
    }

    /// The transactions of the batches that are taken when this one comes to its place.
    pub fn fresh_ids(&self, place: usize, ids: &[TxnId]) -> Result<Vec<TxnId>, NoMemory>
        requires taken { AreTaken self.now }
        requires place { place < length (came self.now) }
        ensures { IfOk result (λ fresh. fresh.items ≡ newly place ids.now (came self.now)) }
    {
        let mut fresh = Vec::new(self.alloc);
        let mut next = self.taken;
        while next < self.came.len() {
            let batch = match &self.came[next] {
                _ if next == place => ids,
                Some(kept) => kept.as_slice(),
                None => break,
            };
            fresh.extend_from_slice(batch)?;
            next += 1;
        }
        Ok(fresh)
    }

    /// Keeps a batch at its place, and takes those that are next.
    pub fn keep(&mut self, place: usize, ids: IdList)
        requires taken { AreTaken self.old }
        requires place { place < length (came self.old) }
        ensures came { came self.new ≡ slice_set (came self.old) place (Some ids) }
        ensures taken { AreTaken self.new }
    {
        self.came[place] = Some(ids);
        while self.taken < self.came.len() && self.came[self.taken].is_some() {
            self.taken += 1;
        }
    }
}
