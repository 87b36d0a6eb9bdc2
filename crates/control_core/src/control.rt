//! Controls, and those that a protocol chooses.
ghost use Rattle.std.specs.Prelude.{◌≡◌, ◌≢◌, ◌++◌, [], ◌∷◌, true, length, Bool, Some, IfOk, IfErr, OnOk, OnErr, IsOk};
ghost use Rattle.protocol_rules.specs.Conditions.{MayAsk, MayPrepare, MayCommit, MayAbort};
ghost use Rattle.protocol_rules.specs.History.{History, Ask, Prepare, Commit, Abort, waits};
ghost use Rattle.protocol_rules.specs.Protocols.{chosen};
ghost use Rattle.deneva_base.specs.Rising.{keys_rise};
ghost use Rattle.deneva_base.specs.Rows.{Rows, row_of};
ghost use Rattle.protocol_rules.specs.Rules.{Rule, Obeys};
ghost use Rattle.protocol_rules.specs.Waits.{WaitsLaw};
ghost use Rattle.protocol_rules.specs.Windows.{KeepsWindows};
ghost use Rattle.deneva_base.specs.declared.config.Protocol.{Protocol};
ghost use Rattle.deneva_base.specs.declared.config.Protocol.TheVariants.{Calvin};
ghost use Rattle.deneva_base.specs.declared.keys.Key.{Key};
ghost use Rattle.row_store.specs.Stores.{row_in};
ghost use Rattle.control_core.specs.Leaving.{IsLoadedStore};
ghost use Rattle.protocol_rules.specs.Leaving.{rows_left};

use deneva_base::{
    Answer, Attempt, Bound, Key, Mode, NoMemory, Number, Protocol, RowList, Vote, Woken,
};
use row_store::Store;

/// A prepare found no memory: its rows are handed back.
#[derive(Debug, Drop)]
pub struct PrepareNoMemory {
    pub writes: RowList,
    pub appends: RowList,
}

/// A concurrency control of one partition. It stands for the calls that it has answered, the newest first, over the rows
/// that were loaded: each answer is its rule's on the calls before.
pub trait Control: Sized + Drop + Send {
    ghost KIND: { Protocol };

    ghost FIXED: { Bool };

    /// How it answers, over the rows that were loaded.
    ghost rule: { Rows → Rule };

    /// What it stands for.
    ghost stands: { Self → Rows → History → Type 0 };

    /// Its protocol.
    const KIND: Protocol;

    /// Whether a transaction keeps its first stamp over restarts.
    const FIXED: bool;

    /// A control over a store of loaded rows.
    fn begin(store: Store) -> Result<Self, NoMemory>
        requires loaded { IsLoadedStore store }
        ensures stands { IfOk result (λ c. Self.stands c (row_in store) []) };

    /// Asks for an access.
    fn ask(&mut self, who: Attempt, stamp: u64, key: Key, mode: Mode) -> Result<Answer, NoMemory>
        requires may { (loaded : Rows) × (h : History) × Self.stands self.old loaded h × MayAsk loaded h who stamp key }
        ensures answer { IfOk result (λ a. (loaded : Rows) (h : History) → Self.stands self.old loaded h → MayAsk loaded h who stamp key → a ≡ (Self.rule loaded).ask h who stamp key mode) }
        ensures stands { IfOk result (λ a. (loaded : Rows) (h : History) → Self.stands self.old loaded h → MayAsk loaded h who stamp key → Self.stands self.new loaded (Ask who stamp key mode a ∷ h)) }
        ensures same { OnErr result ((loaded : Rows) (h : History) → Self.stands self.old loaded h → Self.stands self.new loaded h) };

    /// Votes on an attempt that is to commit these rows, and takes the memory for them.
    fn prepare(
        &mut self,
        who: Attempt,
        bound: Bound,
        writes: RowList,
        appends: RowList,
    ) -> Result<Vote, PrepareNoMemory>
        requires may { (loaded : Rows) × (h : History) × Self.stands self.old loaded h × MayPrepare h who bound writes appends }
        ensures vote { IfOk result (λ v. (loaded : Rows) (h : History) → Self.stands self.old loaded h → MayPrepare h who bound writes appends → v ≡ (Self.rule loaded).vote h who bound writes appends) }
        ensures stands { IfOk result (λ v. (loaded : Rows) (h : History) → Self.stands self.old loaded h → MayPrepare h who bound writes appends → Self.stands self.new loaded (Prepare who bound writes appends v ∷ h)) }
        ensures same { OnErr result ((loaded : Rows) (h : History) → Self.stands self.old loaded h → Self.stands self.new loaded h) }
        ensures returned { IfErr result (λ e. (e.writes ≡ writes) × (e.appends ≡ appends)) };

    /// Ends an attempt that voted yes: its rows are written under `number`. Whom this wakes is put at the end of `woken`.
    fn commit(&mut self, who: Attempt, number: Number, woken: &mut Woken) -> Result<(), NoMemory>
        requires may { (loaded : Rows) × (h : History) × Self.stands self.old loaded h × MayCommit h who number }
        ensures woken { OnOk result ((loaded : Rows) (h : History) → Self.stands self.old loaded h → MayCommit h who number → woken.new ≡ woken.old ++ (Self.rule loaded).commit h who number) }
        ensures stands { OnOk result ((loaded : Rows) (h : History) → Self.stands self.old loaded h → MayCommit h who number → Self.stands self.new loaded (Commit who number ((Self.rule loaded).commit h who number) ∷ h)) }
        ensures same { OnErr result ((loaded : Rows) (h : History) → Self.stands self.old loaded h → Self.stands self.new loaded h) }
        ensures same_woken { OnErr result (woken.new ≡ woken.old) }
        ensures quiet { (loaded : Rows) (h : History) → Self.stands self.old loaded h → waits h ≡ [] → IsOk result }
        ensures idle { (loaded : Rows) (h : History) → Self.stands self.old loaded h → MayCommit h who number → (Self.rule loaded).commit h who number ≡ [] → IsOk result };

    /// Ends an attempt without its rows. Whom this wakes is put at the end of `woken`.
    fn abort(&mut self, who: Attempt, woken: &mut Woken) -> Result<(), NoMemory>
        requires may { (loaded : Rows) × (h : History) × Self.stands self.old loaded h × MayAbort h who }
        ensures woken { OnOk result ((loaded : Rows) (h : History) → Self.stands self.old loaded h → MayAbort h who → woken.new ≡ woken.old ++ (Self.rule loaded).abort h who) }
        ensures stands { OnOk result ((loaded : Rows) (h : History) → Self.stands self.old loaded h → MayAbort h who → Self.stands self.new loaded (Abort who ((Self.rule loaded).abort h who) ∷ h)) }
        ensures same { OnErr result ((loaded : Rows) (h : History) → Self.stands self.old loaded h → Self.stands self.new loaded h) }
        ensures same_woken { OnErr result (woken.new ≡ woken.old) }
        ensures quiet { (loaded : Rows) (h : History) → Self.stands self.old loaded h → waits h ≡ [] → IsOk result }
        ensures idle { (loaded : Rows) (h : History) → Self.stands self.old loaded h → MayAbort h who → (Self.rule loaded).abort h who ≡ [] → IsOk result };

    /// How many accesses wait.
    fn waiting(&self) -> usize
        ensures { (loaded : Rows) (h : History) → Self.stands self.now loaded h → result ≡ length (waits h) };

    /// A copy of the rows, in key order: the loaded ones with what the committed attempts wrote and appended.
    fn rows(&self) -> Result<RowList, NoMemory>
        ensures order { IfOk result (λ rows. keys_rise rows ≡ true) }
        ensures rows { IfOk result (λ rows. (loaded : Rows) (h : History) → Self.stands self.now loaded h → (key : Key) → row_of rows key ≡ rows_left loaded h key) };

    /// Each call met its conditions and was answered by the rule.
    ghost obeys: { (s : Self) (loaded : Rows) (h : History) → Self.stands s loaded h → Obeys loaded (Self.rule loaded) h };

    /// The window law.
    ghost windows: { (s : Self) (loaded : Rows) (h : History) → Self.stands s loaded h → KeepsWindows loaded h };

    /// The waits law.
    ghost waiters: { WaitsLaw Self.rule };
}

/// A control that a voting protocol chooses, with the rule and FIXED that the protocol takes.
pub trait Chosen: Control {
    ghost voting: { Self.KIND ≢ Calvin };

    ghost choice: { chosen Self.KIND ≡ Some (record { fixed = Self.FIXED; rule = Self.rule }) };
}
