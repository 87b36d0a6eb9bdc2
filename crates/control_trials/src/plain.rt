//! The plain body: lists of all accesses, rows and fates that ever were, which each call scans by the text of its rule.

mod ranges;
mod rules;
mod wakes;

use crate::steps::{Cells, Effect, Said, Step, key};
use deneva_base::{
    Answer, Attempt, Cell, CellList, Key, Keyed, Mode, NoMemory, Number, Row, RowList, TxnId, Vote,
};
use std::alloc::Global;

/// Whose rule the plain body reads.
#[derive(Clone, Copy, Debug)]
pub(crate) enum Rule {
    NoWait,
    WaitDie,
    Timestamp,
    /// With so many versions kept of a key, all for 0.
    Mvcc(usize),
    /// With windows of at most so many numbers.
    Maat(u64),
}

/// An access that was not refused, with the version that it reads once it is granted.
#[derive(Clone, Copy, Debug)]
struct Asked {
    who: Attempt,
    stamp: u64,
    key: Key,
    mode: Mode,
    waits: bool,
    version: Number,
}

impl Asked {
    fn conflicts(&self, other: &Asked) -> bool {
        self.key == other.key
            && self.who != other.who
            && (self.mode.is_writing() || other.mode.is_writing())
    }
}

/// A row of one number that an attempt is to write or append.
#[derive(Clone, Copy, Debug)]
struct Written {
    who: Attempt,
    key: Key,
    cell: u32,
}

/// What became of an attempt.
#[derive(Clone, Copy, Debug)]
enum Fate {
    Running,
    /// It voted for these numbers.
    Prepared(u64, u64),
    Committed(Number),
    Aborted,
}

#[derive(Drop)]
pub(crate) struct Plain {
    rule: Rule,
    accesses: Vec<Asked>,
    written: Vec<Written>,
    fates: Vec<(Attempt, Fate)>,
}

impl Plain {
    pub(crate) fn new(alloc: Global, rule: Rule) -> Plain {
        Plain {
            rule,
            accesses: Vec::new(alloc),
            written: Vec::new(alloc),
            fates: Vec::new(alloc),
        }
    }

    /// Whether this is what comes of a call.
    pub(crate) fn agrees(
        &mut self,
        alloc: Global,
        step: Step,
        said: &Said,
    ) -> Result<bool, NoMemory> {
        match (step, said) {
            (Step::Ask(who, stamp, a, mode), Said::Answer(answer)) => {
                let asked = Asked {
                    who,
                    stamp,
                    key: key(a),
                    mode,
                    waits: false,
                    version: LOADED,
                };
                Ok(self.ask(alloc, asked)? == *answer)
            }
            (Step::Prepare(who, n, effect), Said::Vote(vote)) => {
                Ok(self.prepare(who, n, effect)? == *vote)
            }
            (Step::Commit(who, n), Said::Ended(woken, waiting)) => {
                let number = Number { n, id: who.txn };
                let wakes = self.end(alloc, who, Fate::Committed(number))?;
                Ok(wakes == *woken && self.waiting() == *waiting)
            }
            (Step::Abort(who), Said::Ended(woken, waiting)) => {
                let wakes = self.end(alloc, who, Fate::Aborted)?;
                Ok(wakes == *woken && self.waiting() == *waiting)
            }
            _ => Ok(false),
        }
    }

    fn ask(&mut self, alloc: Global, mut asked: Asked) -> Result<Answer, NoMemory> {
        if let Some(cause) = self.refusal(&asked) {
            return Ok(Answer::Refused(cause));
        }
        asked.waits = self.has_to_wait(&asked);
        let (row, version) = self.read(alloc, &asked)?;
        asked.version = version;
        let bound = self.bound(&asked);
        self.accesses.push(asked)?;
        if asked.waits {
            return Ok(Answer::Waits);
        }
        Ok(Answer::Granted {
            row,
            version,
            bound,
        })
    }

    fn prepare(&mut self, who: Attempt, n: u64, effect: Effect) -> Result<Vote, NoMemory> {
        let vote = self.vote(who, n, effect.writes);
        if let Vote::Yes { lo, hi } = vote {
            self.fates.push((who, Fate::Prepared(lo, hi)))?;
            self.write(who, 0, effect.writes)?;
            self.write(who, 5, effect.appends)?;
        }
        Ok(vote)
    }

    /// Notes the rows of a prepared attempt.
    fn write(&mut self, who: Attempt, table: u8, cells: Cells) -> Result<(), NoMemory> {
        for (a, cell) in [(0, cells.first), (1, cells.second)] {
            if let Some(cell) = cell {
                let key = row_key(table, a);
                self.written.push(Written { who, key, cell })?;
            }
        }
        Ok(())
    }

    /// What became of an attempt: the last of what is noted.
    fn fate(&self, who: Attempt) -> Fate {
        let mut last = Fate::Running;
        for (other, fate) in &self.fates {
            if *other == who {
                last = *fate;
            }
        }
        last
    }

    fn is_owner(&self, access: &Asked) -> bool {
        !access.waits && matches!(self.fate(access.who), Fate::Running | Fate::Prepared(_, _))
    }

    /// The committed row of the greatest number with an `n` below this one.
    fn latest(&self, key: Key, below: u64) -> Option<(Number, u32)> {
        let mut latest: Option<(Number, u32)> = None;
        for written in &self.written {
            if let Fate::Committed(number) = self.fate(written.who) {
                let later = latest.map_or(true, |found| found.0 < number);
                if written.key == key && number.n < below && later {
                    latest = Some((number, written.cell));
                }
            }
        }
        latest
    }

    /// What an access reads.
    fn read(&self, alloc: Global, asked: &Asked) -> Result<(Row, Number), NoMemory> {
        if !asked.mode.is_reading() {
            return Ok((Row::empty(alloc)?, LOADED));
        }
        let below = match self.rule {
            Rule::Timestamp | Rule::Mvcc(_) => asked.stamp,
            _ => u64::MAX,
        };
        match self.latest(asked.key, below) {
            Some((number, cell)) => Ok((row_of(alloc, i64::from(cell))?, number)),
            None => Ok((row_of(alloc, 100 + i64::from(asked.key.a))?, LOADED)),
        }
    }

    /// The rows in key order.
    pub(crate) fn rows(&self, alloc: Global) -> Result<RowList, NoMemory> {
        let mut rows = RowList::new(alloc);
        for (table, a) in [(0, 0), (0, 1), (5, 0), (5, 1)] {
            let key = row_key(table, a);
            if let Some((_, cell)) = self.latest(key, u64::MAX) {
                let row = row_of(alloc, i64::from(cell))?;
                rows.push(Keyed { key, row })?;
            } else if table == 0 {
                let row = row_of(alloc, 100 + i64::from(a))?;
                rows.push(Keyed { key, row })?;
            }
        }
        Ok(rows)
    }

    /// How many accesses wait.
    fn waiting(&self) -> usize {
        self.accesses.iter().filter(|access| access.waits).count()
    }
}

/// The number of a loaded row.
const LOADED: Number = Number { n: 0, id: TxnId(0) };

fn row_key(table: u8, a: u32) -> Key {
    Key {
        table,
        a,
        b: 0,
        c: 0,
    }
}

fn row_of(alloc: Global, cell: i64) -> Result<Row, NoMemory> {
    let mut cells = CellList::new(alloc);
    cells.push(Cell::Num(cell))?;
    Row::of(alloc, cells)
}
