//! From what the nodes say to what is in flight.
ghost use Rattle.std.specs.Prelude.{◌≡◌, [], None, OnOk};
ghost use Rattle.world.specs.Worlds.{in_line};

use crate::flight::Flight;
use deneva_base::NoMemory;
use server_core::{Mail, Outbox};

/// Moves what was said to the end of the flight. A mail that finds no room is held; nothing is lost.
pub fn settle(
    flight: &mut Flight<Mail>,
    held: &mut Option<Mail>,
    said: &mut Outbox,
) -> Result<(), NoMemory>
    ensures all { in_line flight.new held.new said.new.mails ≡ in_line flight.old held.old said.old.mails }
    ensures ok { OnOk result ((held.new ≡ None) × (said.new.mails ≡ [])) }
{
    settle_held_mail(flight, held)?;
    settle_outbox(flight, held, said)
}

fn settle_held_mail(flight: &mut Flight<Mail>, held: &mut Option<Mail>) -> Result<(), NoMemory>
    ensures all { in_line flight.new held.new [] ≡ in_line flight.old held.old [] }
    ensures ok { OnOk result (held.new ≡ None) }
{
    match held.take() {
        Some(mail) => match flight.push(mail) {
            Ok(()) => Ok(()),
            Err(refused) => {
                *held = Some(refused.item);
                Err(NoMemory)
            }
        },
        None => Ok(()),
    }
}

fn settle_outbox(
    flight: &mut Flight<Mail>,
    held: &mut Option<Mail>,
    said: &mut Outbox,
) -> Result<(), NoMemory>
    requires { held.old ≡ None }
    ensures all { in_line flight.new held.new said.new.mails ≡ in_line flight.old None said.old.mails }
    ensures ok { OnOk result ((held.new ≡ None) × (said.new.mails ≡ [])) }
{
    while let Some(mail) = said.take_first() {
        match flight.push(mail) {
            Ok(()) => {}
            Err(refused) => {
                *held = Some(refused.item);
                return Err(NoMemory);
            }
        }
    }
    Ok(())
}
