//! What is in flight at the start of a run.
ghost use Rattle.std.specs.Prelude.{◌≡◌, ◌++◌, [], ◌∷◌, map, IfOk, OnOk, cond, ltb};
ghost use Rattle.txn_program.specs.Transactions.{numbers_below};
ghost use Rattle.txn_program.specs.Valid.{IsValid};
ghost use Rattle.server_core.specs.Calvin as calvin;
ghost use Rattle.server_core.specs.Configs.{IsConfig};
ghost use Rattle.server_core.specs.Says.{opening_mails};
ghost use Rattle.server_core.specs.Setting.{setting, homes, take_first};
ghost use Rattle.server_core.specs.Voting as voting;
ghost use Rattle.server_core.specs.declared.messages.Msg.TheVariants as msg;

use crate::MailList;
use crate::messages::{Mail, Msg};
use deneva_base::{Attempt, Config, NoMemory, Protocol, TxnId};
use std::alloc::Global;
use txn_program::{Workload, home};

/// The mail of a node to itself that begins the first attempt of a transaction.
fn first_start(node: u8, id: TxnId) -> Mail
    ensures { result ≡ record { from = node; to = node; msg = msg.Start (record { txn = id; turn = 1 }) } }
{
    Mail {
        from: node,
        to: node,
        msg: Msg::Start {
            who: Attempt { txn: id, turn: 1 },
        },
    }
}

/// Puts at the end the mails with which a node begins the first of its home transactions, as many as it may have open.
fn push_starts(
    mails: &mut MailList,
    config: Config,
    work: &Workload,
    node: u8,
) -> Result<(), NoMemory>
    requires config { IsConfig config }
    requires valid { IsValid work.now }
    ensures { OnOk result (mails.new ≡ mails.old ++
        voting.first_starts node (take_first config.limit (homes (setting config work.now) node))) }
{
    let mut room = config.limit;
    for place in 0..work.programs.len() {
        let lives_at = home(&work.load, work.programs.get(place), config.parts);
        if lives_at == node && room > 0 {
            mails.push(first_start(node, TxnId(place as u32 + 1)))?;
            room -= 1;
        }
    }
    Ok(())
}

/// The mails with which the nodes begin their first home transactions.
fn starts_of_nodes(alloc: Global, config: Config, work: &Workload) -> Result<MailList, NoMemory>
    requires config { IsConfig config }
    requires valid { IsValid work.now }
    ensures { IfOk result (λ mails. mails ≡ voting.opening (setting config work.now)) }
{
    let mut mails = MailList::new(alloc);
    for node in 0..config.parts {
        push_starts(&mut mails, config, work, node)?;
    }
    Ok(mails)
}

/// The mails with which the nodes begin their first epoch.
fn ticks_of_nodes(alloc: Global, parts: u8) -> Result<MailList, NoMemory>
    ensures { IfOk result (λ mails. mails ≡ map (λ p. calvin.tick_mail p 0) (numbers_below parts)) }
{
    let mut mails = MailList::new(alloc);
    for node in 0..parts {
        mails.push(Mail {
            from: node,
            to: node,
            msg: Msg::Tick { epoch: 0 },
        })?;
    }
    Ok(mails)
}

/// The mails in flight at the start of a run.
pub fn opening(alloc: Global, config: Config, work: &Workload) -> Result<MailList, NoMemory>
    requires config { IsConfig config }
    requires valid { IsValid work.now }
    ensures { IfOk result (λ mails. mails ≡ opening_mails config work.now) }
{
    match config.protocol {
        Protocol::Calvin => {
            if work.programs.is_empty() {
                Ok(MailList::new(alloc))
            } else {
                ticks_of_nodes(alloc, config.parts)
            }
        }
        _ => starts_of_nodes(alloc, config, work),
    }
}
