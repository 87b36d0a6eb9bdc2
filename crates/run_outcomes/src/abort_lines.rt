//! The lines of aborted attempts.
ghost use Rattle.std.specs.Prelude.{◌≡◌, ◌&&◌, ◌++◌, List, Some, None, map, option_map, option_to_list, IfOk, OnOk, ◌==◌};
ghost use Rattle.std.specs.List.{find};
ghost use Rattle.server_core.specs.Aborts as aborts;
ghost use Rattle.server_core.specs.Coordinator as coordinator;
ghost use Rattle.server_core.specs.AttemptEnds as ends;
ghost use Rattle.server_core.specs.declared.messages.Entry as messages;
ghost use Rattle.run_outcomes.specs.Seen.{refusal_of};
ghost use Rattle.server_core.specs.Roles.{setting_of};
ghost use Rattle.run_outcomes.specs.Stories.{Tells};
ghost use Rattle.server_core.specs.declared.role.Role as roles;

use crate::ballots::{all_voted, apart_cause, first_no};
use crate::received::{Refusal, has_started, refusal_for, votes_for};
use crate::stories::Story;
use deneva_base::{Attempt, Cause, Key, NoMemory};
use server_core::{AbortLine, AbortList, Ballot, Entry, Msg, Role, greatest_lo, least_hi};

/// Whether the attempt asks for the key.
fn is_ask_of(who: Attempt, key: Key, msg: &Msg) -> bool
    ensures { result ≡ aborts.is_ask_of who key msg.now }
{
    match msg {
        Msg::Ask {
            who: by,
            key: of,
            ..
        } => *by == who && *of == key,
        _ => false,
    }
}

fn is_prepare_of(who: Attempt, msg: &Msg) -> bool
    ensures { result ≡ aborts.is_prepare_of who msg.now }
{
    match msg {
        Msg::Prepare { who: by, .. } => *by == who,
        _ => false,
    }
}

fn is_vote_of(who: Attempt, msg: &Msg) -> bool
    ensures { result ≡ aborts.is_vote_of who msg.now }
{
    match msg {
        Msg::Yes { who: by, .. } | Msg::No { who: by, .. } => *by == who,
        _ => false,
    }
}

/// The newest entry at which the attempt asked for the key.
fn newest_ask<'h>(who: Attempt, key: Key, entries: &[&'h Entry]) -> Option<&'h Entry>
    ensures { result ≡ find (λ e. aborts.is_ask_of who key e.now.msg) entries.now }
{
    entries
        .iter()
        .copied()
        .find(|entry| is_ask_of(who, key, &entry.msg))
}

/// The newest entry at which the node prepared the attempt.
fn newest_prepare<'h>(who: Attempt, node: u8, entries: &[&'h Entry]) -> Option<&'h Entry>
    ensures { result ≡ find (λ e. e.now.node == node && aborts.is_prepare_of who e.now.msg) entries.now }
{
    entries.iter().copied().find(|entry| entry.node == node && is_prepare_of(who, &entry.msg))
}

/// The newest entry at which the node had a vote on the attempt.
fn newest_vote<'h>(who: Attempt, node: u8, entries: &[&'h Entry]) -> Option<&'h Entry>
    ensures { result ≡ find (λ e. e.now.node == node && aborts.is_vote_of who e.now.msg) entries.now }
{
    entries
        .iter()
        .copied()
        .find(|entry| entry.node == node && is_vote_of(who, &entry.msg))
}

/// The line of an attempt that was aborted for this cause, where it was found.
fn line_at(who: Attempt, cause: Cause, found: Option<&Entry>) -> Option<AbortLine>
    ensures { option_to_list result ≡ aborts.line_at who cause (option_map (λ e. e.now) found.entry) }
{
    let entry = found?;
    Some(AbortLine {
        who,
        place: entry.place,
        node: entry.node,
        cause,
    })
}

impl Story<'_> {
    /// The line of the attempt of this turn, of which an access was refused.
    fn refusal_line(&self, turn: u8, refusal: Refusal) -> Option<AbortLine>
        ensures { (r : roles.Role) (H : List messages.Entry) → Tells r H self.now → option_to_list result ≡ aborts.abort_lines (setting_of r) H (ends.attempt self.now.id turn) (refusal_of (Some refusal)) }
    {
        let who = self.attempt(turn);
        let found = newest_ask(who, refusal.key, &self.entries);
        line_at(who, refusal.cause, found)
    }

    /// The line of the attempt of this turn, if these votes abort it.
    fn vote_line(&self, turn: u8, ballots: &[Ballot]) -> Option<AbortLine>
        ensures { (r : roles.Role) (H : List messages.Entry) → Tells r H self.now → option_to_list result ≡ aborts.vote_abort (setting_of r) H (ends.attempt self.now.id turn) ballots.now (coordinator.first_no None ballots.now) }
    {
        let who = self.attempt(turn);
        match first_no(None, ballots) {
            Some(no) => line_at(who, no.cause, newest_prepare(who, no.part, &self.entries)),
            None if least_hi(ballots) < greatest_lo(ballots) => {
                line_at(
                    who,
                    apart_cause(ballots),
                    newest_vote(who, self.home, &self.entries),
                )
            }
            None => None,
        }
    }

    /// The line of the attempt of this turn, of which no access was refused, if it was aborted.
    fn voted_line(&self, role: Role<'_>, turn: u8) -> Result<Option<AbortLine>, NoMemory>
        ensures { IfOk result (λ line. (H : List messages.Entry) → Tells role.entry H self.now → option_to_list line ≡ aborts.abort_lines (setting_of role.entry) H (ends.attempt self.now.id turn) None) }
    {
        let who = self.attempt(turn);
        if !has_started(who, &self.messages) {
            return Ok(None);
        }
        let ballots = votes_for(role.alloc, who, &self.messages)?;
        if all_voted(&ballots, self.participants.as_slice()) {
            Ok(self.vote_line(turn, &ballots))
        } else {
            Ok(None)
        }
    }

    /// The line of the attempt of this turn, if it was aborted.
    fn abort_line(&self, role: Role<'_>, turn: u8) -> Result<Option<AbortLine>, NoMemory>
        ensures { IfOk result (λ line. (H : List messages.Entry) → Tells role.entry H self.now → let who = ends.attempt self.now.id turn in option_to_list line ≡ aborts.abort_lines (setting_of role.entry) H who (aborts.refusal_for who (ends.at_home (setting_of role.entry) H who))) }
    {
        match refusal_for(self.attempt(turn), &self.messages) {
            Some(refusal) => Ok(self.refusal_line(turn, refusal)),
            None => self.voted_line(role, turn),
        }
    }

    /// Puts the lines of the aborted attempts at the end, by their turns.
    pub(crate) fn push_aborts(&self, role: Role<'_>, lines: &mut AbortList) -> Result<(), NoMemory>
        ensures { OnOk result ((H : List messages.Entry) → Tells role.entry H self.now → lines.new ≡ lines.old ++ aborts.turns (setting_of role.entry) H self.now.id role.entry.config.attempts) }
    {
        for turn in 0..role.config.attempts {
            if let Some(line) = self.abort_line(role, turn + 1)? {
                lines.push(line)?;
            }
        }
        Ok(())
    }
}
