//! Lists whose copies share their items.
ghost use Rattle.std.specs.Prelude.{◌≡◌, [], length, IfOk};
ghost use lib.Pointwise.{pointwise};
ghost use Rattle.std.proofs.Common.{rules};
ghost use Rattle.std.specs.Cmp.Rules.{comparing};

use crate::items::{Copied, Items};
use crate::memory::NoMemory;
use std::alloc::Global;
use std::marker::Model;
use std::sync::Arc;

/// A list that does not change, and that all its copies share, in any threads. Contracts see it as the list of its items.
#[derive(Debug, Drop)]
pub struct Shared<T> {
    items: Arc<Items<T>>,
}

impl<T> Model for Shared<T> {
    ghost use Rattle.std.specs.Prelude.{List};
    ghost use Rattle.std.specs.Arc.{arc_value};

    ghost Value = { List T };

    ghost view = { λ a. arc_value a.items };
}

impl<T> Shared<T> {
    pub fn as_slice(&self) -> &[T]
        ensures { result.now ≡ self.now }
    {
        self.items.as_slice()
    }

    pub fn len(&self) -> usize
        ensures { result ≡ length self.now }
    {
        self.as_slice().len()
    }
}

impl<T: Drop> Shared<T> {
    /// The empty list.
    pub fn empty(alloc: Global) -> Result<Shared<T>, NoMemory>
        ensures { IfOk result (λ s. s ≡ []) }
    {
        Shared::of(alloc, Items::new(alloc))
    }

    /// The list of these items.
    pub fn of(alloc: Global, items: Items<T>) -> Result<Shared<T>, NoMemory>
        ensures { IfOk result (λ s. s ≡ items) }
    {
        let items = Arc::new(alloc, items)?;
        Ok(Shared { items })
    }

    /// The list once more, with the same items in memory. It takes none; the error comes where 2^63 lists share them.
    pub fn share(&self) -> Result<Shared<T>, NoMemory>
        ensures { IfOk result (λ s. s ≡ self.now) }
    {
        let items = Arc::try_clone(&self.items)?;
        Ok(Shared { items })
    }
}

impl<T: Drop> Copied for Shared<T> {
    fn copied(&self, _alloc: Global) -> Result<Shared<T>, NoMemory> {
        self.share()
    }
}

impl<T: PartialEq> PartialEq for Shared<T> {
    ghost eq = { pointwise T.eq };

    ghost laws = { Prim.search (comparing, rules) };

    fn eq(&self, other: &Shared<T>) -> bool {
        self.as_slice() == other.as_slice()
    }
}

impl<T: Eq> Eq for Shared<T> {
    ghost laws = { Prim.search (comparing, rules) };
}
