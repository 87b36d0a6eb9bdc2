//! Whom an end wakes.

use super::{Asked, Fate, Plain, Rule};
use crate::steps::key;
use deneva_base::{Attempt, Key, NoMemory, Wake, Woken};
use std::alloc::Global;

impl Plain {
    /// Ends an attempt, and grants who waited for it.
    pub(super) fn end(
        &mut self,
        alloc: Global,
        who: Attempt,
        fate: Fate,
    ) -> Result<Woken, NoMemory> {
        self.fates.push((who, fate))?;
        let mut woken = Woken::new(alloc);
        for a in 0..2 {
            if self.has_accessed(who, key(a)) {
                self.wake(alloc, key(a), &mut woken)?;
            }
        }
        Ok(woken)
    }

    /// Whether the attempt was granted an access to the key.
    pub(super) fn has_accessed(&self, who: Attempt, key: Key) -> bool {
        self.accesses.iter().any(|access| access.who == who && access.key == key && !access.waits)
    }

    /// Tries the waiters of a key one after another: under WAIT_DIE from the greatest stamp down until one has to go on
    /// waiting, else all of them from the least stamp up.
    fn wake(&mut self, alloc: Global, key: Key, woken: &mut Woken) -> Result<(), NoMemory> {
        let dies = matches!(self.rule, Rule::WaitDie);
        let mut last = if dies { u64::MAX } else { 0 };
        for _ in 0..self.accesses.len() {
            let Some(asked) = self.next_waiter(key, last) else {
                return Ok(());
            };
            last = asked.stamp;
            let stays = if dies {
                self.is_barred(&asked)
            } else {
                self.has_to_wait(&asked)
            };
            if !stays {
                woken.push(self.grant(alloc, &asked)?)?;
            } else if dies {
                return Ok(());
            }
        }
        Ok(())
    }

    /// The waiter of the key that comes after the one of this stamp.
    fn next_waiter(&self, key: Key, last: u64) -> Option<Asked> {
        let dies = matches!(self.rule, Rule::WaitDie);
        let comes = |before: u64, after: u64| if dies { after < before } else { before < after };
        let mut next: Option<Asked> = None;
        for access in &self.accesses {
            let waits = access.waits && access.key == key && comes(last, access.stamp);
            if waits && next.map_or(true, |found| comes(access.stamp, found.stamp)) {
                next = Some(*access);
            }
        }
        next
    }

    /// Grants a waiting access.
    fn grant(&mut self, alloc: Global, asked: &Asked) -> Result<Wake, NoMemory> {
        let (row, version) = self.read(alloc, asked)?;
        for access in self.accesses.iter_mut() {
            if access.who == asked.who && access.key == asked.key {
                access.waits = false;
                access.version = version;
            }
        }
        Ok(Wake {
            who: asked.who,
            key: asked.key,
            row,
            version,
            bound: 0,
        })
    }
}
