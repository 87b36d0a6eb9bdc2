//! What a sequencer says.
ghost use Rattle.std.specs.Prelude.{◌≡◌, ◌<◌, ◌++◌, ◌∷◌, List, IfOk, OnOk, OnErr};
ghost use Rattle.server_core.specs.Calvin.{says};
ghost use Rattle.server_core.specs.GlobalOrder.{Slot, batch, epochs};
ghost use Rattle.server_core.specs.Setting.{setting, homes};
ghost use Rattle.server_core.specs.declared.messages.Msg as messages;
ghost use Rattle.server_core.specs.declared.messages.Msg.TheVariants.{Tick};
ghost use Rattle.server_core.specs.Roles.{role_of, setting_of};
ghost use Rattle.calvin_seq.specs.Sequencers.{role_in};

use crate::order::epochs as epochs_of;
use crate::sequencer::Sequencer;
use deneva_base::{IdList, NoMemory, TxnId};
use server_core::{BATCH, Mail, MailList, Msg, Outbox, Role};

impl<'w> Sequencer<'w> {
    /// The sequencer of a node. It has closed no epoch.
    pub fn begin(role: Role<'w>) -> Result<Sequencer<'w>, NoMemory>
        ensures { IfOk result (λ s. role_of (role_in s) ≡ role_of role.entry) }
    {
        let homes = role.homes()?;
        let epochs = epochs_of(role.work, role.config.parts);
        Ok(Sequencer {
            role,
            homes,
            epochs,
        })
    }

    /// The transactions of an epoch, in file order: at most eight.
    fn batch(&self, epoch: u32) -> Result<IdList, NoMemory>
        requires epoch { epoch < epochs (setting_of (role_in self.now)) }
        ensures { IfOk result (λ ids. ids ≡ batch (setting_of (role_in self.now)) (record { epoch = epoch; seq = (role_in self.now).part })) }
    {
        let mut ids = IdList::new(self.role.alloc);
        let first = epoch as usize * BATCH;
        for at in first..self.homes.len().min(first + BATCH) {
            ids.push(self.homes[at])?;
        }
        Ok(ids)
    }

    /// Closes an epoch: its batch, which may be empty, goes to each node, and the sequencer tells itself to close the
    /// next epoch, if there is one.
    pub fn tick(&self, epoch: u32, out: &mut Outbox) -> Result<(), NoMemory>
        requires epoch { epoch < epochs (setting_of (role_in self.now)) }
        ensures ok { OnOk result ((ms : List messages.Msg) → out.new.mails ≡ out.old.mails ++ says (setting_of (role_in self.now)) (role_in self.now).part (Tick epoch ∷ ms)) }
        ensures err { OnErr result (out.new.mails ≡ out.old.mails) }
    {
        let Role {
            alloc,
            config,
            part,
            ..
        } = self.role;
        let mut nodes = Vec::new(alloc);
        for node in 0..config.parts {
            nodes.push(node)?;
        }
        let batch = Msg::Batch {
            epoch,
            seq: part,
            ids: self.batch(epoch)?,
        };
        let mut mails = self.role.mails_to(&nodes, &batch)?;
        if epoch + 1 < self.epochs {
            mails.push(Mail {
                from: part,
                to: part,
                msg: Msg::Tick { epoch: epoch + 1 },
            })?;
        }
        out.say_all(mails)
    }
}
