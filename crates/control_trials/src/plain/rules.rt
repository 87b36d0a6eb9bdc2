//! When an access is refused, when it waits, and which numbers a vote has.

use super::{Asked, Fate, Plain, Rule};
use crate::steps::Cells;
use deneva_base::{Attempt, Cause, Key, Number, Vote};

impl Plain {
    /// Why an access is refused, if it is.
    pub(super) fn refusal(&self, asked: &Asked) -> Option<Cause> {
        let key = asked.key;
        match self.rule {
            Rule::NoWait => {
                let bar = self.least_bar(asked, u64::MAX)?;
                Some(Cause::Held { key, by: bar.who })
            }
            Rule::WaitDie => {
                let bar = self.least_bar(asked, asked.stamp)?;
                let (by, age) = (bar.who, bar.stamp);
                Some(Cause::Younger { key, by, age })
            }
            Rule::Timestamp => self.is_written(asked).or(self.is_read_later(asked)),
            Rule::Mvcc(keep) => self.is_trimmed(asked, keep).or(self.is_read_later(asked)),
            Rule::Maat(_) => None,
        }
    }

    /// The least attempt whose owned access conflicts, of those with a stamp below this one.
    fn least_bar(&self, asked: &Asked, below: u64) -> Option<Asked> {
        let mut least: Option<Asked> = None;
        for access in &self.accesses {
            let bars = self.is_owner(access) && access.conflicts(asked) && access.stamp < below;
            if bars && least.map_or(true, |found| access.who < found.who) {
                least = Some(*access);
            }
        }
        least
    }

    /// TIMESTAMP: a reading access whose stamp is below the greatest committed number of the key.
    fn is_written(&self, asked: &Asked) -> Option<Cause> {
        let (number, _) = self.latest(asked.key, u64::MAX)?;
        if asked.mode.is_reading() && asked.stamp < number.n {
            return Some(Cause::Written {
                key: asked.key,
                stamp: number.n,
            });
        }
        None
    }

    /// A writing access whose stamp is below that of one that has read the key (under MVCC the version that the write
    /// would come after).
    fn is_read_later(&self, asked: &Asked) -> Option<Cause> {
        if !asked.mode.is_writing() {
            return None;
        }
        let version = self.version(asked);
        let mut stamp = 0;
        for access in &self.accesses {
            let reads = access.key == asked.key && access.mode.is_reading() && !access.waits;
            let counts = matches!(self.rule, Rule::Timestamp) || access.version == version;
            if reads && counts && stamp < access.stamp {
                stamp = access.stamp;
            }
        }
        if asked.stamp < stamp {
            return Some(Cause::ReadLater {
                key: asked.key,
                stamp,
            });
        }
        None
    }

    /// The number of the greatest version below the stamp.
    fn version(&self, asked: &Asked) -> Number {
        match self.latest(asked.key, asked.stamp) {
            Some((number, _)) => number,
            None => super::LOADED,
        }
    }

    /// MVCC: the stamp is below the greatest committed number that has so many versions of the key from it on.
    fn is_trimmed(&self, asked: &Asked, keep: usize) -> Option<Cause> {
        let key = asked.key;
        let mut floor = 0;
        for written in &self.written {
            if let Fate::Committed(number) = self.fate(written.who) {
                let is_deep = written.key == key && keep <= self.versions_from(key, number);
                if keep > 0 && is_deep && floor < number.n {
                    floor = number.n;
                }
            }
        }
        if asked.stamp < floor {
            return Some(Cause::Trimmed { key, floor });
        }
        None
    }

    /// How many committed rows of the key have this number or a greater one.
    fn versions_from(&self, key: Key, least: Number) -> usize {
        self.written
            .iter()
            .filter(|written| {
                let later = matches!(self.fate(written.who), Fate::Committed(n) if least <= n);
                written.key == key && later
            })
            .count()
    }

    /// Whether an access that is not refused waits.
    pub(super) fn has_to_wait(&self, asked: &Asked) -> bool {
        match self.rule {
            Rule::NoWait | Rule::Maat(_) => false,
            Rule::WaitDie => self.is_barred(asked) || self.stands_behind(asked),
            Rule::Timestamp => self.follows_writer(asked, 0),
            Rule::Mvcc(_) => self.follows_writer(asked, self.version(asked).n),
        }
    }

    /// Whether an owner conflicts.
    pub(super) fn is_barred(&self, asked: &Asked) -> bool {
        self.accesses
            .iter()
            .any(|access| self.is_owner(access) && access.conflicts(asked))
    }

    /// WAIT_DIE: whether a waiting access of greater stamp conflicts.
    fn stands_behind(&self, asked: &Asked) -> bool {
        self.accesses.iter().any(|access| access.waits
            && access.conflicts(asked)
            && access.stamp > asked.stamp)
    }

    /// Whether it reads, and an owner writes the key with a stamp above the version and below its own.
    fn follows_writer(&self, asked: &Asked, version: u64) -> bool {
        let writes = |access: &Asked| access.key == asked.key && access.mode.is_writing();
        asked.mode.is_reading()
            && self.accesses.iter().any(|access| {
                let between = version < access.stamp && access.stamp < asked.stamp;
                self.is_owner(access) && writes(access) && between
            })
    }

    /// The vote on an attempt that writes these keys.
    pub(super) fn vote(&self, who: Attempt, n: u64, writes: Cells) -> Vote {
        match self.rule {
            Rule::NoWait | Rule::WaitDie => Vote::Yes {
                lo: self.greatest_met(who).saturating_add(1),
                hi: 1 << 63,
            },
            Rule::Timestamp | Rule::Mvcc(_) => {
                let stamp = self.stamp(who);
                Vote::Yes {
                    lo: stamp,
                    hi: stamp,
                }
            }
            Rule::Maat(span) => self.window(who, n, writes, span),
        }
    }

    fn stamp(&self, who: Attempt) -> u64 {
        for access in &self.accesses {
            if access.who == who {
                return access.stamp;
            }
        }
        0
    }

    /// The greatest number of a committed attempt whose access conflicted with one of this attempt.
    fn greatest_met(&self, who: Attempt) -> u64 {
        let mut greatest = 0;
        for mine in &self.accesses {
            if mine.who == who {
                greatest = greatest.max(self.greatest_met_by(mine));
            }
        }
        greatest
    }

    fn greatest_met_by(&self, mine: &Asked) -> u64 {
        let mut greatest = 0;
        for access in &self.accesses {
            if let Fate::Committed(number) = self.fate(access.who) {
                if access.conflicts(mine) {
                    greatest = greatest.max(number.n);
                }
            }
        }
        greatest
    }
}
