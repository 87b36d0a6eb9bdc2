//! What a coordinator says: all of it, or nothing where there is no memory.
ghost use Rattle.std.specs.Prelude.{◌≡◌, ◌++◌, ◌∷◌, [], map, IfOk, OnOk, OnErr};
ghost use Rattle.server_core.specs.Coordinator.{ask_of, at_part, prepare_to, to_all};
ghost use Rattle.server_core.specs.Effects.{lasting};
ghost use Rattle.server_core.specs.Roles.{setting_of};
ghost use Rattle.server_core.specs.declared.messages.Msg.TheVariants.{Start};
ghost use Rattle.coord.specs.Endings.{message_of_ending};

use deneva_base::{Access, Attempt, Bound, NoMemory, Number, RowList, partition_of};
use server_core::{Mail, MailList, Msg, Outbox, Role};
use txn_program::{Effect, Verdict};

/// How an attempt ends.
#[derive(Clone, Copy, Debug, PartialEq, Eq)]
pub enum Ending {
    Commit(Number),
    Abort,
}

impl Ending {
    fn message(self, who: Attempt) -> Msg
        ensures { result ≡ message_of_ending who self }
    {
        match self {
            Ending::Commit(number) => Msg::Commit { who, number },
            Ending::Abort => Msg::Abort { who },
        }
    }
}

/// Says the end of an attempt to each of these participants.
pub(crate) fn say_to_all(
    from: u8,
    who: Attempt,
    ending: Ending,
    participants: &[u8],
    out: &mut Outbox,
) -> Result<(), NoMemory>
    ensures ok { OnOk result (out.new.mails ≡ out.old.mails ++ to_all from (message_of_ending who ending) participants.now) }
    ensures err { OnErr result (out.new.mails ≡ out.old.mails) }
{
    out.reserve(participants.len())?;
    for participant in participants {
        out.append(Mail {
            from,
            to: *participant,
            msg: ending.message(who),
        });
    }
    Ok(())
}

/// The mail that asks the partition of its key for an access.
pub(crate) fn ask_mail(role: &Role<'_>, who: Attempt, stamp: u64, access: Access) -> Mail
    ensures { result ≡ ask_of (setting_of role.now) role.now.part who stamp access }
{
    Mail {
        from: role.part,
        to: partition_of(access.key, role.config.parts),
        msg: Msg::Ask {
            who,
            stamp,
            key: access.key,
            mode: access.mode,
        },
    }
}

/// Has a node begin an attempt of a transaction of its own.
pub(crate) fn say_start(part: u8, who: Attempt, out: &mut Outbox) -> Result<(), NoMemory>
    ensures ok { OnOk result (out.new.mails ≡ out.old.mails ++ record { from = part; to = part; msg = Start who } ∷ []) }
    ensures err { OnErr result (out.new.mails ≡ out.old.mails) }
{
    out.say(Mail {
        from: part,
        to: part,
        msg: Msg::Start { who },
    })
}

/// The rows at a participant that last under a verdict: none if the attempt rolls back.
fn lasting_rows_at(
    role: &Role<'_>,
    participant: u8,
    verdict: Verdict,
    rows: &RowList,
) -> Result<RowList, NoMemory>
    ensures { IfOk result (λ list. list ≡ at_part role.now.config.parts participant (lasting verdict rows.now)) }
{
    match verdict {
        Verdict::Commit => role.rows_at(participant, rows.as_slice()),
        Verdict::Rollback(_) => Ok(RowList::new(role.alloc)),
    }
}

/// The mail that has a participant prepare.
fn prepare(
    role: &Role<'_>,
    who: Attempt,
    bound: Bound,
    effect: &Effect,
    participant: u8,
) -> Result<Mail, NoMemory>
    ensures { IfOk result (λ mail. mail ≡ prepare_to (setting_of role.now) role.now.part who bound effect.now participant) }
{
    let writes = lasting_rows_at(role, participant, effect.verdict, &effect.writes)?;
    let appends = lasting_rows_at(role, participant, effect.verdict, &effect.appends)?;
    Ok(Mail {
        from: role.part,
        to: participant,
        msg: Msg::Prepare {
            who,
            bound,
            writes,
            appends,
        },
    })
}

/// Has each participant prepare an attempt: with its own rows of those that the effect writes and appends, and with none
/// if that rolls back.
pub(crate) fn say_prepares(
    role: &Role<'_>,
    who: Attempt,
    bound: Bound,
    effect: &Effect,
    participants: &[u8],
    out: &mut Outbox,
) -> Result<(), NoMemory>
    ensures ok { OnOk result (out.new.mails ≡ out.old.mails ++ map (prepare_to (setting_of role.now) role.now.part who bound effect.now) participants.now) }
    ensures err { OnErr result (out.new.mails ≡ out.old.mails) }
{
    let mut mails = MailList::with_capacity(role.alloc, participants.len())?;
    for participant in participants {
        mails.push(prepare(role, who, bound, effect, *participant)?)?;
    }
    out.say_all(mails)
}
