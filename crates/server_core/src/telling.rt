//! How a node tells others.
ghost use Rattle.std.specs.Prelude.{◌≡◌, IfOk};
ghost use Rattle.server_core.specs.Coordinator.{to_all};

use crate::MailList;
use crate::messages::{Mail, Msg};
use crate::role::Role;
use deneva_base::{Copied, NoMemory};

impl Role<'_> {
    /// The mails of this node with a copy of the message, one to each of these nodes, in their order.
    pub fn mails_to(&self, nodes: &[u8], msg: &Msg) -> Result<MailList, NoMemory>
        ensures { IfOk result (λ mails. mails ≡ to_all self.now.part msg.now nodes.now) }
    {
        let mut mails = MailList::with_capacity(self.alloc, nodes.len())?;
        for node in nodes {
            mails.push(Mail {
                from: self.part,
                to: *node,
                msg: msg.copied(self.alloc)?,
            })?;
        }
        Ok(mails)
    }
}
