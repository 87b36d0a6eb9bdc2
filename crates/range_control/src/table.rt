//! A partition under MAAT: its rows, the accesses to them, and what each attempt has there.
ghost use Rattle.std.specs.Prelude.{◌≡◌, ◌≤◌, ◌<◌, ◌^◌, ◌+◌, true, None, Some, IfOk, IfErr, IfSome, OnOk, OnErr, length};
ghost use Rattle.deneva_base.specs.Lists.{IsIn};
ghost use Rattle.protocol_rules.specs.Ranged.{window_vote};
ghost use Rattle.deneva_base.specs.declared.keys.Key.{Key};
ghost use Rattle.deneva_base.specs.declared.rows.Keyed.{Keyed};
ghost use Rattle.deneva_base.specs.declared.answers.Answer.TheVariants.{Granted};
ghost use Rattle.row_store.specs.Stores.{version_at, has};
ghost use Rattle.shelf.specs.Shelves.{held, read_in};
ghost use Rattle.range_control.specs.Accesses.{past_over};
ghost use Rattle.range_control.specs.Tables.{accesses_at, low_at};
ghost use Rattle.range_control.specs.Changes.{past_version, bound_in, new_access, lower_for, upper_for, IsNew, Adds, MayNote, VotesYes, MayVote, Votes, EndsOne};

use crate::accesses::Held;
use crate::ends::{Upper, lower_end};
use crate::lines::Lines;
use control_core::PrepareNoMemory;
use deneva_base::{
    Answer, Attempt, Bound, Cause, Key, Keyed, Mode, NoMemory, Number, RowList, Vote,
};
use row_store::Store;
use shelf::Shelf;

/// The rows and what each attempt has here, and the accesses.
#[derive(Drop)]
pub(crate) struct Table {
    pub shelf: Shelf,
    pub lines: Lines,
}

impl Table {
    pub fn new(store: Store) -> Table
        ensures { IsNew store result }
    {
        let alloc = store.allocator();
        Table {
            shelf: Shelf::new(store),
            lines: Lines::new(alloc),
        }
    }

    /// One past the number of the key's row.
    fn past_version(&self, key: Key) -> u64
        requires small { past_version (version_at self.now.shelf.store key) < 2 ^ 64 }
        ensures { result ≡ past_version (version_at self.now.shelf.store key) }
    {
        match self.shelf.version(key) {
            Some(version) => version.number.n + 1,
            None => 1,
        }
    }

    /// The bound of an access.
    fn bound(&self, key: Key, mode: Mode) -> u64
        requires past { past_over (accesses_at self.now.lines key) < 2 ^ 64 }
        requires version { past_version (version_at self.now.shelf.store key) < 2 ^ 64 }
        ensures { result ≡ bound_in mode (version_at self.now.shelf.store key) (past_over (accesses_at self.now.lines key)) }
    {
        match mode {
            Mode::Read => self.past_version(key),
            Mode::Update => self.past_version(key).max(self.lines.past(key)),
            Mode::Put => self.lines.past(key).max(1),
        }
    }

    /// Grants an access.
    pub fn grant(
        &mut self,
        who: Attempt,
        stamp: u64,
        key: Key,
        mode: Mode,
    ) -> Result<Answer, NoMemory>
        requires past { past_over (accesses_at self.old.lines key) < 2 ^ 64 }
        requires version { past_version (version_at self.old.shelf.store key) < 2 ^ 64 }
        ensures answer { IfOk result (λ a. a ≡ Granted (read_in mode (version_at self.old.shelf.store key)).0 (read_in mode (version_at self.old.shelf.store key)).1 (bound_in mode (version_at self.old.shelf.store key) (past_over (accesses_at self.old.lines key)))) }
        ensures ok { OnOk result (Adds stamp key (new_access who mode (read_in mode (version_at self.old.shelf.store key)).1) self.old self.new) }
        ensures err { OnErr result (MayNote who stamp key self.old self.new) }
    {
        let (row, version) = self.shelf.read(key, mode)?;
        let bound = self.bound(key, mode);
        self.shelf.note(who, stamp, key)?;
        self.lines.add(
            key,
            Held {
                who,
                mode,
                version,
                upper: None,
                window: None,
            },
        )?;
        Ok(Answer::Granted {
            row,
            version,
            bound,
        })
    }

    /// The lower end of an attempt's window, where it is to write these rows.
    fn lower(&self, who: Attempt, bound: Bound, writes: &[Keyed]) -> Bound
        requires past { (key : Key) → past_over (accesses_at self.now.lines key) < 2 ^ 64 }
        requires low { (key : Key) → low_at self.now.lines who writes.now key < 2 ^ 64 }
        ensures { result ≡ lower_for self.now who bound writes.now }
    {
        let best = self.lines.lower_over(self.shelf.keys(who), who, writes);
        lower_end(bound, best)
    }

    /// The upper end. Where nothing gives one it is that of all numbers, and the attempt itself is named.
    fn upper(&self, who: Attempt) -> Upper
        ensures { result ≡ upper_for self.now who }
    {
        let best = self.lines.upper_over(self.shelf.keys(who), who);
        best.unwrap_or(Upper {
            n: 1 << 63,
            by: who,
        })
    }

    /// Keeps the rows of an attempt that votes the numbers from `lo` to `hi`, and takes the memory for them.
    fn promise(
        &mut self,
        who: Attempt,
        lo: u64,
        hi: u64,
        writes: RowList,
        appends: RowList,
    ) -> Result<(), PrepareNoMemory>
        ensures ok { OnOk result (VotesYes who lo hi writes appends self.old self.new) }
        ensures err { OnErr result (MayVote self.old self.new) }
        ensures returned { IfErr result (λ e. (e.writes ≡ writes) × (e.appends ≡ appends)) }
    {
        self.shelf.promise(who, writes, appends)?;
        let keys = self.shelf.keys(who);
        self.lines
            .prepare_all(keys, who, lo, hi, self.shelf.writes(who));
        Ok(())
    }

    /// Votes, with a window of at most `span` numbers. Where the vote is Yes, the memory for the rows is taken.
    pub fn prepare(
        &mut self,
        span: u64,
        who: Attempt,
        bound: Bound,
        writes: RowList,
        appends: RowList,
    ) -> Result<Vote, PrepareNoMemory>
        requires past { (key : Key) → past_over (accesses_at self.old.lines key) < 2 ^ 64 }
        requires low { (key : Key) → low_at self.old.lines who writes key < 2 ^ 64 }
        requires upper { (upper_for self.old who).n ≤ 2 ^ 63 }
        requires span { span ≤ 2 ^ 62 }
        ensures vote { IfOk result (λ v. v ≡ window_vote span (lower_for self.old who bound writes).key (upper_for self.old who).by (lower_for self.old who bound writes).n (upper_for self.old who).n) }
        ensures ok { IfOk result (λ v. Votes v who writes appends self.old self.new) }
        ensures err { OnErr result (MayVote self.old self.new) }
        ensures returned { IfErr result (λ e. (e.writes ≡ writes) × (e.appends ≡ appends)) }
    {
        let lower = self.lower(who, bound, writes.as_slice());
        match vote(span, lower, self.upper(who)) {
            Vote::Yes { lo, hi } => {
                self.promise(who, lo, hi, writes, appends)?;
                Ok(Vote::Yes { lo, hi })
            }
            Vote::No(cause) => Ok(Vote::No(cause)),
        }
    }

    /// Ends an attempt, which commits where it has a number: its rows are written, and its accesses are taken out.
    pub fn end(&mut self, who: Attempt, number: Option<Number>)
        requires small { IfSome number (λ n. n.n < 2 ^ 48) }
        requires present { (w : Keyed) → IsIn w (held self.old.shelf who).writes → has self.old.shelf.store w.key ≡ true }
        requires promised { length (held self.old.shelf who).appends ≤ self.old.shelf.promised }
        requires room { self.old.shelf.promised ≤ self.old.shelf.store.spare }
        ensures { EndsOne who number self.old self.new }
    {
        let ended = self.shelf.end(who, number);
        self.lines.end_all(&ended.keys, who, number);
    }
}

/// The vote for a window with these ends, cut to at most `span` numbers.
fn vote(span: u64, lower: Bound, upper: Upper) -> Vote
    requires positive { 1 ≤ lower.n }
    requires small { upper.n ≤ 2 ^ 63 }
    requires span { span ≤ 2 ^ 62 }
    ensures { result ≡ window_vote span lower.key upper.by lower.n upper.n }
{
    if lower.n > upper.n {
        return Vote::No(Cause::EmptyRange {
            lo: lower.n,
            lo_key: lower.key,
            hi: upper.n,
            hi_by: upper.by,
        });
    }
    let last = lower.n + span - 1;
    Vote::Yes {
        lo: lower.n,
        hi: upper.n.min(last),
    }
}
