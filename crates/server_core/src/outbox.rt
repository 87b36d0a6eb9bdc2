//! What nodes say, until it is sent.
ghost use Rattle.std.specs.Prelude.{◌≡◌, ◌++◌, ◌∷◌, [], ◌≤◌, ◌<◌, ◌+◌, ◌==◌, ◌^◌, length, slice_get, Some, IfSome, IfNone, MatchOption, OnOk, OnErr};

use crate::MailList;
use crate::messages::Mail;
use deneva_base::NoMemory;
use std::alloc::Global;
use std::collections::VecDeque;
use std::marker::Model;

/// Mails in the order said, and room for so many more. It keeps the allocator that it was made with.
#[derive(Debug, Drop)]
pub struct Outbox {
    mails: VecDeque<Mail>,
}

impl Model for Outbox {
    ghost use Rattle.std.specs.Prelude.{◌-◌};
    ghost use Rattle.std.specs.VecDeque.{deque_len, deque_capacity};
    ghost use Rattle.server_core.specs.Outgoing.{Outgoing};

    ghost Value = { Outgoing };

    ghost view = { λ o. record { mails = o.mails.items; spare = deque_capacity o.mails - deque_len o.mails } };
}

impl Outbox {
    /// One without mails. It takes no memory yet, and promises no room.
    pub fn new(alloc: Global) -> Outbox
        ensures { result.mails ≡ [] }
    {
        Outbox {
            mails: VecDeque::new(alloc),
        }
    }

    pub fn len(&self) -> usize
        ensures len { result ≡ length self.now.mails }
        ensures small { length self.now.mails < 2 ^ 63 }
    {
        self.mails.len()
    }

    pub fn is_empty(&self) -> bool
        ensures { result ≡ (length self.now.mails == 0) }
    {
        self.mails.is_empty()
    }

    /// The mail at `index`, counted from 0.
    pub fn get(&self, index: usize) -> &Mail
        requires { index < length self.now.mails }
        ensures { slice_get self.now.mails index ≡ Some result.now }
    {
        &self.mails[index]
    }

    /// Makes room for this many more mails. Where there is no memory for it, the room stays as it was or has grown.
    pub fn reserve(&mut self, more: usize) -> Result<(), NoMemory>
        ensures mails { self.new.mails ≡ self.old.mails }
        ensures ok { OnOk result (more ≤ self.new.spare) }
        ensures spare { self.old.spare ≤ self.new.spare }
    {
        Ok(self.mails.try_reserve(more)?)
    }

    /// Puts a mail at the end, for which there is room.
    pub fn append(&mut self, mail: Mail)
        requires room { 1 ≤ self.old.spare }
        ensures mails { self.new.mails ≡ self.old.mails ++ mail ∷ [] }
        ensures spare { self.new.spare + 1 ≡ self.old.spare }
    {
        drop(self.mails.push_back(mail));
    }

    /// Moves the mails to the end, for which there is room.
    pub fn append_all(&mut self, mails: MailList)
        requires room { length mails ≤ self.old.spare }
        ensures mails { self.new.mails ≡ self.old.mails ++ mails }
        ensures spare { self.new.spare + length mails ≡ self.old.spare }
    {
        for mail in mails.into_vec() {
            self.append(mail);
        }
    }

    /// Says a mail, or nothing if there is no memory for it.
    pub fn say(&mut self, mail: Mail) -> Result<(), NoMemory>
        ensures ok { OnOk result (self.new.mails ≡ self.old.mails ++ mail ∷ []) }
        ensures err { OnErr result (self.new.mails ≡ self.old.mails) }
    {
        self.reserve(1)?;
        self.append(mail);
        Ok(())
    }

    /// Says all of these mails, or none of them if there is no memory for all.
    pub fn say_all(&mut self, mails: MailList) -> Result<(), NoMemory>
        ensures ok { OnOk result (self.new.mails ≡ self.old.mails ++ mails) }
        ensures err { OnErr result (self.new.mails ≡ self.old.mails) }
    {
        self.reserve(mails.len())?;
        self.append_all(mails);
        Ok(())
    }

    /// Takes out the mail that was said first.
    pub fn take_first(&mut self) -> Option<Mail>
        ensures some { IfSome result (λ m. self.old.mails ≡ m ∷ self.new.mails) }
        ensures none { IfNone result ((self.old.mails ≡ []) × (self.new.mails ≡ [])) }
        ensures spare { MatchOption result (self.new.spare ≡ self.old.spare) (λ _. self.new.spare ≡ self.old.spare + 1) }
    {
        self.mails.pop_front()
    }
}
