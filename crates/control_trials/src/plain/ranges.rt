//! The bounds and windows of MAAT.

use super::{Asked, Fate, Plain, Rule, Written};
use crate::steps::{Cells, key};
use deneva_base::{Attempt, Cause, Key, Vote};

impl Plain {
    /// The bound of a granted access.
    pub(super) fn bound(&self, asked: &Asked) -> u64 {
        if !matches!(self.rule, Rule::Maat(_)) {
            return 0;
        }
        let mut bound = 1;
        if asked.mode.is_reading() {
            bound = asked.version.n.saturating_add(1);
        }
        if asked.mode.is_writing() {
            bound = bound.max(self.past(asked.key));
        }
        bound
    }

    /// One past the number of each committed attempt that accessed the key, and one past the upper end of each prepared
    /// one: the greatest.
    fn past(&self, key: Key) -> u64 {
        let mut past = 0;
        for access in &self.accesses {
            if access.key == key {
                past = past.max(match self.fate(access.who) {
                    Fate::Committed(number) => number.n.saturating_add(1),
                    Fate::Prepared(_, hi) => hi.saturating_add(1),
                    _ => 0,
                });
            }
        }
        past
    }

    /// The window of an attempt that prepares with this bound.
    pub(super) fn window(&self, who: Attempt, n: u64, writes: Cells, span: u64) -> Vote {
        let first = self.low_at(who, key(0), writes.first);
        let second = self.low_at(who, key(1), writes.second);
        let lo = first.max(second).max(n).max(1);
        let gives = n != lo && first != lo && second == lo;
        let lo_key = if gives { key(1) } else { key(0) };
        match self.high(who) {
            Some((hi, hi_by)) if hi < lo => Vote::No(Cause::EmptyRange {
                lo,
                lo_key,
                hi,
                hi_by,
            }),
            limit => {
                let hi = limit.map_or(1 << 63, |found| found.0);
                let end = lo.saturating_add(span).saturating_sub(1);
                Vote::Yes {
                    lo,
                    hi: hi.min(end),
                }
            }
        }
    }

    /// What a key asks of the lower end.
    fn low_at(&self, who: Attempt, key: Key, cell: Option<u32>) -> u64 {
        let mut low = if cell.is_some() { self.past(key) } else { 0 };
        for access in &self.accesses {
            if access.who == who && access.key == key && access.mode.is_reading() {
                low = low.max(access.version.n.saturating_add(1));
            }
        }
        low
    }

    /// The least upper end that a write of another attempt gives, with the least attempt that gives it.
    fn high(&self, who: Attempt) -> Option<(u64, Attempt)> {
        let mut least = None;
        for mine in &self.accesses {
            if mine.who == who && mine.mode.is_reading() {
                least = lesser(least, self.high_at(mine));
            }
        }
        least
    }

    fn high_at(&self, mine: &Asked) -> Option<(u64, Attempt)> {
        let mut least = None;
        for written in &self.written {
            if written.key == mine.key && written.who != mine.who {
                least = lesser(least, self.limit(mine, written));
            }
        }
        least
    }

    /// One below what a write above the version read has: its number, or the lower end of its window.
    fn limit(&self, mine: &Asked, written: &Written) -> Option<(u64, Attempt)> {
        match self.fate(written.who) {
            Fate::Committed(number) if mine.version < number => Some((
                number.n.saturating_sub(1),
                written.who,
            )),
            Fate::Prepared(lo, hi) if mine.version.n < hi => Some((
                lo.saturating_sub(1),
                written.who,
            )),
            _ => None,
        }
    }
}

fn lesser(one: Option<(u64, Attempt)>, other: Option<(u64, Attempt)>) -> Option<(u64, Attempt)> {
    match (one, other) {
        (Some(first), Some(second)) if second < first => Some(second),
        (Some(first), _) => Some(first),
        (None, second) => second,
    }
}
