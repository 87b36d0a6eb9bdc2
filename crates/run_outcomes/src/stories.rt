//! What a run tells of each of its transactions.
ghost use Rattle.std.specs.Prelude.{◌≡◌, List, map, reverse, length, IfOk};
ghost use Rattle.std.specs.List.{All};
ghost use Rattle.deneva_base.specs.Lists.{IsIn};
ghost use Rattle.txn_program.specs.Serial.{all_ids};
ghost use Rattle.server_core.specs.Runs as runs;
ghost use Rattle.server_core.specs.declared.messages.Entry as messages;
ghost use Rattle.run_outcomes.specs.Naming.{entries_of};
ghost use Rattle.run_outcomes.specs.Stories.{Tells};

use crate::groups::{Group, group};
use deneva_base::{AccessList, ByteList, NoMemory, TxnId};
use server_core::{Entry, Msg, Role};
use std::alloc::Global;
use txn_program::Program;

/// A transaction with its entries, the newest first, and the messages among them that its home has handled.
#[derive(Drop)]
pub(crate) struct Story<'h> {
    pub(crate) id: TxnId,
    pub(crate) program: &'h Program,
    pub(crate) home: u8,
    pub(crate) accesses: AccessList,
    pub(crate) participants: ByteList,
    pub(crate) entries: Vec<&'h Entry>,
    pub(crate) messages: Vec<&'h Msg>,
}

/// The messages that a node has handled.
fn messages_at<'h>(alloc: Global, node: u8, entries: &[&'h Entry]) -> Result<Vec<&'h Msg>, NoMemory>
    ensures { IfOk result (λ v. map (λ m. m.now) v.items ≡ runs.heard node (map (λ e. e.now) entries.now)) }
{
    let mut messages = Vec::new(alloc);
    for entry in entries {
        if entry.node == node {
            messages.push(&entry.msg)?;
        }
    }
    Ok(messages)
}

fn newest_first<'h>(alloc: Global, entries: &[&'h Entry]) -> Result<Vec<&'h Entry>, NoMemory>
    ensures { IfOk result (λ v. v.items ≡ reverse entries.now) }
{
    Ok(entries.iter().rev().copied().collect(alloc)?)
}

/// What these entries, the oldest first, tell of their transaction.
fn story_of<'h>(role: Role<'h>, id: TxnId, entries: &[&'h Entry]) -> Result<Story<'h>, NoMemory>
    requires { IsIn id (all_ids role.work.now) }
    ensures id { IfOk result (λ t. t.id ≡ id) }
    ensures tells { IfOk result (λ t. (H : List messages.Entry) → map (λ e. e.now) entries.now ≡ entries_of id H → Tells role.entry (reverse H) t) }
{
    let program = role.program(id);
    let home = role.home(id);
    let accesses = role.accesses(id)?;
    let participants = role.participants(id)?;
    let entries = newest_first(role.alloc, entries)?;
    let messages = messages_at(role.alloc, home, &entries)?;
    Ok(Story {
        id,
        program,
        home,
        accesses,
        participants,
        entries,
        messages,
    })
}

/// What a history tells of each transaction.
pub(crate) fn stories_of<'h>(
    role: Role<'h>,
    history: &'h [Entry],
) -> Result<Vec<Story<'h>>, NoMemory>
    ensures ids { IfOk result (λ v. map (λ t. t.id) v.items ≡ all_ids role.entry.work.now) }
    ensures stories { IfOk result (λ v. All (λ t. Tells role.entry (reverse history.now) t) v.items) }
{
    let groups = group(role.alloc, role.work.programs.len(), history)?;
    let mut stories = Vec::with_capacity(role.alloc, groups.len())?;
    for (place, entries) in groups.iter().enumerate() {
        let story = story_of(role, TxnId(place as u32 + 1), entries)?;
        stories.push(story)?;
    }
    Ok(stories)
}
