//! What came of a run of Calvin.
ghost use Rattle.std.specs.Prelude.{◌≡◌, ◌↔◌, ◌<◌, ◌≤◌, IsTrue, List, map, reverse, length, IfOk};
ghost use Rattle.std.specs.List.{All, list_all};
ghost use Rattle.deneva_base.specs.Rows as base_rows;
ghost use Rattle.deneva_base.specs.declared.config.Protocol.TheVariants.{Calvin};
ghost use Rattle.txn_program.specs.Serial.{all_ids};
ghost use Rattle.server_core.specs.CalvinScheduler as ordered;
ghost use Rattle.server_core.specs.Outcome.{outcome};
ghost use Rattle.server_core.specs.declared.messages.Entry as messages;
ghost use Rattle.run_outcomes.specs.Finishing.{gathered, finished_line, finished_lines_of, IsPlace};
ghost use Rattle.run_outcomes.specs.Outcomes.{with_rows, IsOver};
ghost use Rattle.server_core.specs.Roles.{setting_of};
ghost use Rattle.run_outcomes.specs.Stories.{Tells};

use crate::lists::in_number_order;
use crate::stories::{Story, stories_of};
use deneva_base::{Access, Key, Keyed, NoMemory, Row, RowList, TxnId, partition_of};
use server_core::{
    AbortList, Decided, DecidedList, Entry, GiveupList, Msg, Outcome, Role, RunKind, ordered_number,
};
use std::alloc::Global;
use txn_program::row_among;

/// Whether the partition has finished the transaction.
fn has_finished(id: TxnId, part: u8, messages: &[&Msg]) -> bool
    ensures { result ≡ ordered.has_finished (map (λ m. m.now) messages.now) id part }
{
    let [msg, before @ ..] = messages else {
        return false;
    };
    let here = match msg {
        Msg::Finished {
            id: of,
            part: from,
            ..
        } => *of == id && *from == part,
        _ => false,
    };
    here || has_finished(id, part, before)
}

/// Whether each of these partitions has finished the transaction.
fn all_finished(id: TxnId, parts: &[u8], messages: &[&Msg]) -> bool
    ensures { result ≡ list_all (ordered.has_finished (map (λ m. m.now) messages.now) id) parts.now }
{
    match parts {
        [] => true,
        [part, rest @ ..] => has_finished(id, *part, messages) && all_finished(id, rest, messages),
    }
}

/// The rows that the partition sent for the transaction.
fn rows_from<'h>(id: TxnId, part: u8, messages: &[&'h Msg]) -> &'h [Keyed]
    ensures { result.now ≡ ordered.rows_from (map (λ m. m.now) messages.now) id part }
{
    let [msg, before @ ..] = messages else {
        return &[];
    };
    match msg {
        Msg::Rows {
            id: of,
            part: from,
            rows,
        } if *of == id && *from == part => rows.as_slice(),
        _ => rows_from(id, part, before),
    }
}

/// The row of a key, and a row of no cells where the key is absent.
fn row_at(alloc: Global, rows: &[Keyed], key: Key) -> Result<Row, NoMemory>
    ensures { IfOk result (λ row. row ≡ base_rows.row_at rows.now key) }
{
    match row_among(rows, key) {
        Some(row) => row.share(),
        None => Row::empty(alloc),
    }
}

/// The rows of the accesses that read, as their partitions sent them.
fn rows_read(
    role: Role<'_>,
    id: TxnId,
    accesses: &[Access],
    messages: &[&Msg],
) -> Result<RowList, NoMemory>
    ensures { IfOk result (λ rows. rows ≡ gathered role.entry.config.parts (map (λ m. m.now) messages.now) id accesses.now) }
{
    let mut reads = RowList::new(role.alloc);
    for access in accesses {
        if access.mode.is_reading() {
            let key = access.key;
            let rows = rows_from(id, partition_of(key, role.config.parts), messages);
            let row = row_at(role.alloc, rows, key)?;
            reads.push(Keyed { key, row })?;
        }
    }
    Ok(reads)
}

impl Story<'_> {
    /// Whether every participant has finished the transaction.
    pub(crate) fn is_finished(&self) -> bool
        ensures { result ≡ list_all (ordered.has_finished (map (λ m. m.now) self.now.messages.items) self.now.id) self.now.participants }
    {
        all_finished(self.id, self.participants.as_slice(), &self.messages)
    }

    /// The line of the transaction, which every participant has finished, at this place among those of its home.
    fn finished_line(&self, role: Role<'_>, place: usize) -> Result<Decided, NoMemory>
        requires { place ≤ 10000 }
        ensures { IfOk result (λ line. (H : List messages.Entry) → Tells role.entry H self.now → IsPlace (setting_of role.entry) self.now.id place → line ≡ finished_line (setting_of role.entry) H self.now.id) }
    {
        let n = ordered_number(role.config.parts, self.home, place);
        let reads = rows_read(role, self.id, self.accesses.as_slice(), &self.messages)?;
        let line = self.decided_line(role, n, reads)?;
        Ok(line)
    }
}

/// The lines of the finished transactions.
fn finished_lines(role: Role<'_>, stories: &[Story<'_>]) -> Result<DecidedList, NoMemory>
    requires few { length stories.now ≤ 10000 }
    requires homes { All (λ t. t.home < role.config.parts) stories.now }
    ensures { IfOk result (λ list. (H : List messages.Entry) → All (Tells role.entry H) stories.now → map (λ t. t.id) stories.now ≡ all_ids role.entry.work.now → list ≡ finished_lines_of (setting_of role.entry) H (all_ids role.entry.work.now)) }
{
    let mut places = vec![in role.alloc; 0_usize; usize::from(role.config.parts)]?;
    let mut list = DecidedList::new(role.alloc);
    for story in stories {
        let home = usize::from(story.home);
        let place = places[home];
        places[home] = place + 1;
        if story.is_finished() {
            list.push(story.finished_line(role, place)?)?;
        }
    }
    Ok(list)
}

/// The outcome of a history, with these rows.
pub(crate) fn ordered_outcome(
    role: Role<'_>,
    history: &[Entry],
    rows: RowList,
) -> Result<Outcome, NoMemory>
    requires { role.config.protocol ≡ Calvin }
    ensures { IfOk result (λ o. o ≡ with_rows (outcome role.entry.config role.entry.work.now (reverse history.now)) rows) }
{
    let stories = stories_of(role, history)?;
    let decided = in_number_order(finished_lines(role, &stories)?)?;
    let giveups = GiveupList::new(role.alloc);
    let aborts = AbortList::new(role.alloc);
    Ok(Outcome {
        kind: RunKind::Under(role.config.protocol),
        parts: role.config.parts,
        decided,
        giveups,
        aborts,
        rows,
    })
}
