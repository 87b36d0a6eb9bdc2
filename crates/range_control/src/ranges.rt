//! MAAT as a control.
ghost use Rattle.std.specs.Prelude.{true, refl};
ghost use Rattle.protocol_rules.specs.Maat.{maat};
ghost use Rattle.deneva_base.specs.declared.config.Protocol.TheVariants.{Maat};
ghost use Rattle.protocol_rules.proofs.Maats.{ranging};
ghost use Rattle.protocol_rules.proofs.MaatServed.{waits};
ghost use Rattle.protocol_rules.proofs.Rangeds.{windows_law};
ghost use Rattle.range_control.specs.Standing.{Stands};

use crate::table::Table;
use control_core::{Chosen, Control, PrepareNoMemory};
use deneva_base::{
    Answer, Attempt, Bound, Key, Mode, NoMemory, Number, Protocol, RowList, Vote, Woken,
};
use row_store::Store;

/// MAAT, with windows of at most `SPAN` numbers. It is a control for the span named below, which lies from 1 to 2^62: so no
/// window is empty, and none has an end that does not fit.
#[derive(Drop)]
pub struct Ranges<const SPAN: u64> {
    table: Table,
}

impl Control for Ranges<4096> {
    ghost KIND = { Maat };

    ghost FIXED = { true };

    ghost rule = { maat 4096 };

    ghost stands = { λ s loaded h. Stands 4096 s.table loaded h };

    const KIND: Protocol = Protocol::Maat;

    const FIXED: bool = true;

    fn begin(store: Store) -> Result<Ranges<4096>, NoMemory> {
        let table = Table::new(store);
        Ok(Ranges { table })
    }

    fn ask(&mut self, who: Attempt, stamp: u64, key: Key, mode: Mode) -> Result<Answer, NoMemory> {
        self.table.grant(who, stamp, key, mode)
    }

    fn prepare(
        &mut self,
        who: Attempt,
        bound: Bound,
        writes: RowList,
        appends: RowList,
    ) -> Result<Vote, PrepareNoMemory> {
        self.table.prepare(4096, who, bound, writes, appends)
    }

    fn commit(&mut self, who: Attempt, number: Number, _woken: &mut Woken) -> Result<(), NoMemory> {
        self.table.end(who, Some(number));
        Ok(())
    }

    fn abort(&mut self, who: Attempt, _woken: &mut Woken) -> Result<(), NoMemory> {
        self.table.end(who, None);
        Ok(())
    }

    fn waiting(&self) -> usize {
        0
    }

    fn rows(&self) -> Result<RowList, NoMemory> {
        self.table.shelf.rows_in_order()
    }

    ghost obeys = { λ s loaded h stands. stands.obeys };

    ghost windows = { λ s loaded h stands. windows_law loaded (maat 4096 loaded) (ranging 4096 loaded) h stands.obeys };

    ghost waiters = { waits 4096 };
}

impl Chosen for Ranges<4096> {
    ghost voting = { λ e. cc e };

    ghost choice = { refl };
}
