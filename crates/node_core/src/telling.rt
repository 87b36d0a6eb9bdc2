//! What a partition tells the homes of transactions.
ghost use Rattle.std.specs.Prelude.{◌≡◌, ◌++◌, ◌∷◌, [], ◌≤◌, ◌+◌, ℕ, List, length};
ghost use Rattle.deneva_base.specs.Lists.{IsIn};
ghost use Rattle.deneva_base.specs.declared.answers.Wake as answers;
ghost use Rattle.txn_program.specs.Serial.{all_ids};
ghost use Rattle.server_core.specs.Participant.{mail_home, answer_mails, vote_mail, wake_mails};
ghost use Rattle.server_core.specs.Roles.{setting_of};

use deneva_base::{Answer, Attempt, Key, Vote, Wake, Woken};
use server_core::{Mail, Msg, Outbox, Role};

/// Tells the attempt's home, for which there is room.
fn tell(role: &Role<'_>, who: Attempt, msg: Msg, out: &mut Outbox)
    requires known { IsIn who.txn (all_ids role.now.work.now) }
    requires room { 1 ≤ out.old.spare }
    ensures mails { out.new.mails ≡ out.old.mails ++ mail_home (setting_of role.now) role.now.part who msg ∷ [] }
    ensures spare { out.new.spare + 1 ≡ out.old.spare }
{
    let to = role.home(who.txn);
    out.append(Mail {
        from: role.part,
        to,
        msg,
    });
}

/// Tells what came of an Ask: nothing where the access waits.
pub(crate) fn tell_answer(role: &Role<'_>, who: Attempt, key: Key, answer: Answer, out: &mut Outbox)
    requires known { IsIn who.txn (all_ids role.now.work.now) }
    requires room { 1 ≤ out.old.spare }
    ensures { out.new.mails ≡ out.old.mails ++ answer_mails (setting_of role.now) role.now.part who key answer }
{
    match answer {
        Answer::Granted {
            row,
            version,
            bound,
        } => {
            let granted = Msg::Granted {
                who,
                key,
                row,
                version,
                bound,
            };
            tell(role, who, granted, out);
        }
        Answer::Waits => {}
        Answer::Refused(cause) => tell(role, who, Msg::Refused { who, key, cause }, out),
    }
}

/// Tells a vote.
pub(crate) fn tell_vote(role: &Role<'_>, who: Attempt, vote: Vote, out: &mut Outbox)
    requires known { IsIn who.txn (all_ids role.now.work.now) }
    requires room { 1 ≤ out.old.spare }
    ensures { out.new.mails ≡ out.old.mails ++ vote_mail (setting_of role.now) role.now.part who vote ∷ [] }
{
    let part = role.part;
    let msg = match vote {
        Vote::Yes { lo, hi } => Msg::Yes { who, part, lo, hi },
        Vote::No(cause) => Msg::No { who, part, cause },
    };
    tell(role, who, msg, out);
}

/// Tells each woken access that it is granted, in their order. The rows are moved.
fn tell_woken(role: &Role<'_>, woken: Woken, out: &mut Outbox)
    requires known { (w : answers.Wake) → IsIn w woken → IsIn w.who.txn (all_ids role.now.work.now) }
    requires room { length woken ≤ out.old.spare }
    ensures { out.new.mails ≡ out.old.mails ++ wake_mails (setting_of role.now) role.now.part woken }
{
    for wake in woken.into_vec() {
        let Wake {
            who,
            key,
            row,
            version,
            bound,
        } = wake;
        let grant = Msg::Granted {
            who,
            key,
            row,
            version,
            bound,
        };
        tell(role, who, grant, out);
    }
}

/// Tells that an attempt has ended here, and then the wakes.
pub(crate) fn tell_end(role: &Role<'_>, who: Attempt, ended: Msg, woken: Woken, out: &mut Outbox)
    requires known { IsIn who.txn (all_ids role.now.work.now) }
    requires woken { (w : answers.Wake) → IsIn w woken → IsIn w.who.txn (all_ids role.now.work.now) }
    requires room { length woken + 1 ≤ out.old.spare }
    ensures { out.new.mails ≡ out.old.mails ++ mail_home (setting_of role.now) role.now.part who ended ∷ wake_mails (setting_of role.now) role.now.part woken }
{
    tell(role, who, ended, out);
    tell_woken(role, woken, out);
}
