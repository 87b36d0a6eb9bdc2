//! Laws of every run of Calvin.
ghost use Rattle.std.specs.Prelude.{◌≡◌, ◌<◌, ◌≤◌, ℕ, ◌+◌, ◌*◌, ◌^◌, List, [], ◌∷◌, ◌++◌, length, map, true, slice_get, Some};
ghost use Rattle.deneva_base.specs.Keys.{NumberLt};
ghost use Rattle.deneva_base.specs.Lists.{IsIn};
ghost use Rattle.deneva_base.specs.Partitions.{partition_of};
ghost use Rattle.deneva_base.specs.Rows.{row_of};
ghost use Rattle.deneva_base.specs.declared.config.Config.{Config};
ghost use Rattle.deneva_base.specs.declared.config.Protocol.TheVariants.{Calvin};
ghost use Rattle.deneva_base.specs.declared.keys.Key.{Key};
ghost use Rattle.deneva_base.specs.declared.numbers.TxnId.{TxnId};
ghost use Rattle.deneva_base.specs.declared.rows.Keyed.{Keyed};
ghost use Rattle.txn_program.specs.Serial.{all_ids};
ghost use Rattle.txn_program.specs.Valid.{IsValid};
ghost use Rattle.txn_program.specs.declared.programs.Workload.{Workload};
ghost use Rattle.server_core.specs.Atomic.{IsAtomic};
ghost use Rattle.server_core.specs.CalvinAtomic.{FinishedOnce};
ghost use Rattle.server_core.specs.Calvin.{says, opening};
ghost use Rattle.server_core.specs.CalvinFits.{AllFit};
ghost use Rattle.server_core.specs.CalvinLimits.{is_clock, is_about, most_ordered};
ghost use Rattle.server_core.specs.CalvinProper.{Valid, Forms, Limits};
ghost use Rattle.server_core.specs.CalvinRuns.{IsRun, AllFitting};
ghost use Rattle.server_core.specs.CalvinSerial.{RisingIds, serial_after, serial_lines, serial_part};
ghost use Rattle.server_core.specs.Configs.{IsConfig};
ghost use Rattle.server_core.specs.Fits as fit;
ghost use Rattle.server_core.specs.GlobalOrder.{Slot, epochs, batch, order, before, numbered, number};
ghost use Rattle.server_core.specs.GlobalOutcome.{in_global_order};
ghost use Rattle.server_core.specs.IsSerial.{IsSerial};
ghost use Rattle.server_core.specs.Limits.{count_entries};
ghost use Rattle.server_core.specs.Named.{AllNamed};
ghost use Rattle.server_core.specs.CalvinScheduler.{ordered_rows, is_ready};
ghost use Rattle.server_core.specs.NodeRows.{rows_of_node};
ghost use Rattle.server_core.specs.Lines.{ordered_lines};
ghost use Rattle.server_core.specs.Outcome.{outcome};
ghost use Rattle.server_core.specs.Picks.{Progress, PicksOne, deliver, deliveries, most_entries, picked};
ghost use Rattle.server_core.specs.Proper.{ids_in};
ghost use Rattle.server_core.specs.Ready.{IsReady};
ghost use Rattle.server_core.specs.ReportOrder.{InReportOrder};
ghost use Rattle.server_core.specs.Runs.{heard};
ghost use Rattle.server_core.specs.Says as any;
ghost use Rattle.server_core.specs.Says.{IsQuiet};
ghost use Rattle.server_core.specs.Setting.{Setting, setting, participants_for};
ghost use Rattle.server_core.specs.Told.{IsTold};
ghost use Rattle.server_core.specs.declared.messages.Entry.{Entry};
ghost use Rattle.server_core.specs.declared.messages.Mail.{Mail};
ghost use Rattle.server_core.specs.declared.messages.Msg.TheVariants.{Rows};
ghost use Rattle.server_core.specs.declared.messages.Msg.{Msg};
ghost use Rattle.server_core.specs.declared.outcomes.Decided.{Decided};
ghost use Rattle.server_core.specs.declared.schedules.Schedule.{Schedule};

/// The global order has each transaction of the workload once, in rising order of the numbers of the formula. Before a
/// transaction stand those of smaller number.
pub fn order_is_global()
    ensures all { (s : Setting) (x : TxnId) → Valid s → IsIn x s.ids → IsIn x (order s) }
    ensures only { (s : Setting) (x : TxnId) → IsIn x (order s) → IsIn x s.ids }
    ensures once { (s : Setting) (x : TxnId) → Valid s → ids_in x (order s) ≤ 1 }
    ensures rising { (s : Setting) → Valid s → RisingIds s (order s) }
    ensures formula { (s : Setting) (l : Slot) (i : ℕ) (x : TxnId) → Valid s → slice_get (batch s l) i ≡ Some x → number s x ≡ record { n = numbered s.parts l.epoch l.seq i; id = x } }
    ensures smaller { (s : Setting) (x y : TxnId) → Valid s → IsIn x s.ids → IsIn y (before x (order s)) → IsIn y s.ids × NumberLt (number s y) (number s x) }
    ensures before { (s : Setting) (x y : TxnId) → Valid s → IsIn x s.ids → IsIn y s.ids → NumberLt (number s y) (number s x) → IsIn y (before x (order s)) }
{}

/// A transaction is ready as the rule says: it was taken, takes part, and no taken, unfinished transaction of smaller
/// number conflicts with it there.
pub fn ready_is_the_rule()
    ensures ready { (s : Setting) (p : ℕ) (ms : List Msg) (x : TxnId) → Valid s → is_ready s p ms x ≡ true → IsReady s p ms x }
    ensures rule { (s : Setting) (p : ℕ) (ms : List Msg) (x : TxnId) → Valid s → IsReady s p ms x → is_ready s p ms x ≡ true }
{}

/// In every run what a `Rows` carries, in flight or handled, is what the transaction reads at its sender's partition at
/// its turn, where the transactions are executed one at a time in the global order.
pub fn rows_are_serial()
    ensures flight { (s : Setting) (H : List Entry) (flight : List Mail) (m : Mail) (x : TxnId) (q : ℕ) (rows : List Keyed) → Valid s → IsRun s H flight → IsIn m flight → m.msg ≡ Rows x q rows → rows ≡ serial_part s q x }
    ensures handled { (s : Setting) (H : List Entry) (flight : List Mail) (p : ℕ) (x : TxnId) (q : ℕ) (rows : List Keyed) → Valid s → IsRun s H flight → IsIn (Rows x q rows) (heard p H) → rows ≡ serial_part s q x }
{}

/// In every run each mail in flight fits its node, and each message that a node has handled fitted when it came.
pub fn calvin_mails_fit()
    ensures law { (s : Setting) (H : List Entry) (flight : List Mail) → Valid s → Forms s → Limits s → IsRun s H flight → AllFitting s H flight }
    ensures nodes { (s : Setting) (H : List Entry) (flight : List Mail) (p : ℕ) → Valid s → Forms s → IsRun s H flight → AllFit s p (heard p H) }
{}

/// With N nodes and E epochs a run has at most E (N + N N) Ticks and Batches, and m m + m entries of a transaction with m
/// participants. So within the limits it has fewer than 2^32, and all numbers are below 2^48.
pub fn calvin_runs_are_short()
    ensures clock { (s : Setting) (H : List Entry) (flight : List Mail) → Valid s → IsRun s H flight → count_entries (λ e. is_clock e.msg) H ≤ epochs s * (s.parts + s.parts * s.parts) }
    ensures each { (s : Setting) (H : List Entry) (flight : List Mail) (x : TxnId) → Valid s → IsRun s H flight → IsIn x s.ids → let m = length (participants_for s x) in count_entries (λ e. is_about x e.msg) H ≤ m * m + m }
    ensures all { (s : Setting) (H : List Entry) (flight : List Mail) → Valid s → IsRun s H flight → length H ≤ most_ordered s }
    ensures small { (s : Setting) (H : List Entry) (flight : List Mail) → Valid s → Limits s → IsRun s H flight → length H < 2 ^ 32 }
    ensures numbers { (s : Setting) (x : TxnId) → Valid s → Limits s → IsIn x s.ids → (number s x).n < 2 ^ 48 }
{}

/// No two mails in flight are equal, so each delivery makes a run of a run, and so does any schedule. One that picks some
/// mail wherever any is in flight has none left after as many deliveries as a run has entries at most.
pub fn calvin_deliveries_are_runs()
    ensures apart { (s : Setting) (H : List Entry) (flight : List Mail) (x : Mail) (front back : List Mail) → Valid s → IsRun s H flight → flight ≡ front ++ x ∷ back → IsIn x front → ⊥ }
    ensures deliver { (s : Setting) (k : ℕ) (w : Progress) → Valid s → IsRun s w.entries w.flight → IsRun s (deliver (says s) k w).entries (deliver (says s) k w).flight }
    ensures schedule { (s : Setting) (pick : ℕ → ℕ → ℕ) (i n : ℕ) (w : Progress) → Valid s → IsRun s w.entries w.flight → IsRun s (deliveries (says s) pick i n w).entries (deliveries (says s) pick i n w).flight }
    ensures ends { (s : Setting) (pick : ℕ → ℕ → ℕ) → Valid s → PicksOne pick → (deliveries (says s) pick 0 (most_ordered s) (record { entries = []; flight = opening s })).flight ≡ [] }
{}

/// In every quiet run the decided transactions are those of the global order, each with what it reads at its turn where
/// they are executed one at a time, the rows of the nodes are the last rows of that, and each participant of each
/// transaction, and no other node, has told its home once, with the number of the order, that it is finished.
pub fn calvin_quiet_runs_are_serial()
    ensures law { (s : Setting) (H : List Entry) → Valid s → IsRun s H [] → ordered_lines s H ≡ serial_lines s s.loaded (order s) }
    ensures numbers { (s : Setting) (H : List Entry) → Valid s → IsRun s H [] → map (λ (l : Decided). l.number) (ordered_lines s H) ≡ map (number s) (order s) }
    ensures rows { (s : Setting) (H : List Entry) (key : Key) → Valid s → IsRun s H [] → let p = partition_of key s.parts in ordered_rows s p (heard p H) key ≡ serial_after s s.loaded (order s) key }
    ensures finished { (s : Setting) (H : List Entry) (x : TxnId) → Valid s → IsRun s H [] → IsIn x s.ids → FinishedOnce s H x }
{}

/// The outcome of the serial execution in the global order has the lines and the rows in whose words the other laws speak:
/// those of the transactions one after another, each reading what the ones before it leave.
pub fn global_order_is_serial()
    ensures lines { (c : Config) (w : Workload) → IsConfig c → IsValid w → c.protocol ≡ Calvin → (in_global_order c.parts w).decided ≡ serial_lines (setting c w) (setting c w).loaded (order (setting c w)) }
    ensures rows { (c : Config) (w : Workload) (key : Key) → IsConfig c → IsValid w → c.protocol ≡ Calvin → row_of (in_global_order c.parts w).rows key ≡ serial_after (setting c w) (setting c w).loaded (order (setting c w)) key }
{}

/// What holds of every run of Calvin, whatever the configuration, the valid workload and the order of deliveries. In
/// every run each mail in flight fits its node, no abort is listed, and the run is no longer than a bound that the
/// configuration and the workload give: with N nodes and E epochs at most E (N + N N) Ticks and Batches, and m m + m
/// entries of a transaction with m participants, fewer than 2^32 in all; and all numbers are below 2^48. What a schedule
/// picks is a quiet run. In every quiet run each transaction is finished once at each of its participants and nowhere else;
/// each is decided, in the order and with the number of the global order; executed one at a time in that order they have the
/// same reads and final rows, and those are the nodes' rows. So all quiet runs have one outcome, that of the serial execution
/// in the global order.
pub fn calvin_runs_are_right()
    ensures fits { (c : Config) (w : Workload) (H : List Entry) (flight : List Mail) → IsConfig c → IsValid w → c.protocol ≡ Calvin → any.IsRun c w H flight → fit.AllFitting c w H flight }
    ensures short { (c : Config) (w : Workload) (H : List Entry) (flight : List Mail) → IsConfig c → IsValid w → c.protocol ≡ Calvin → any.IsRun c w H flight → length H ≤ most_entries c w }
    ensures clock { (c : Config) (w : Workload) (H : List Entry) (flight : List Mail) → IsConfig c → IsValid w → c.protocol ≡ Calvin → any.IsRun c w H flight → count_entries (λ e. is_clock e.msg) H ≤ epochs (setting c w) * (c.parts + c.parts * c.parts) }
    ensures each { (c : Config) (w : Workload) (H : List Entry) (flight : List Mail) (x : TxnId) → IsConfig c → IsValid w → c.protocol ≡ Calvin → any.IsRun c w H flight → IsIn x (all_ids w) → let m = length (participants_for (setting c w) x) in count_entries (λ e. is_about x e.msg) H ≤ m * m + m }
    ensures small { (c : Config) (w : Workload) (H : List Entry) (flight : List Mail) → IsConfig c → IsValid w → c.protocol ≡ Calvin → any.IsRun c w H flight → length H < 2 ^ 32 }
    ensures numbers { (c : Config) (w : Workload) (x : TxnId) → IsConfig c → IsValid w → c.protocol ≡ Calvin → IsIn x (all_ids w) → (number (setting c w) x).n < 2 ^ 48 }
    ensures named { (c : Config) (w : Workload) (H : List Entry) → c.protocol ≡ Calvin → AllNamed c w H (outcome c w H) }
    ensures picked { (c : Config) (w : Workload) (schedule : Schedule) → IsConfig c → IsValid w → c.protocol ≡ Calvin → IsQuiet c w (picked c w schedule) }
    ensures atomic { (c : Config) (w : Workload) (H : List Entry) → IsConfig c → IsValid w → c.protocol ≡ Calvin → IsQuiet c w H → IsAtomic c w H }
    ensures finished { (c : Config) (w : Workload) (H : List Entry) (x : TxnId) → IsConfig c → IsValid w → c.protocol ≡ Calvin → IsQuiet c w H → IsIn x (all_ids w) → FinishedOnce (setting c w) H x }
    ensures serial { (c : Config) (w : Workload) (H : List Entry) → IsConfig c → IsValid w → c.protocol ≡ Calvin → IsQuiet c w H → IsSerial w (outcome c w H) }
    ensures told { (c : Config) (w : Workload) (H : List Entry) → IsConfig c → IsValid w → c.protocol ≡ Calvin → IsQuiet c w H → IsTold (setting c w) H (outcome c w H) }
    ensures in_order { (c : Config) (w : Workload) (H : List Entry) → IsConfig c → IsValid w → c.protocol ≡ Calvin → IsQuiet c w H → InReportOrder (outcome c w H) }
    ensures rows { (c : Config) (w : Workload) (H : List Entry) (key : Key) → IsConfig c → IsValid w → c.protocol ≡ Calvin → IsQuiet c w H → rows_of_node c w (partition_of key c.parts) (heard (partition_of key c.parts) H) key ≡ row_of (outcome c w H).rows key }
    ensures ordered { (c : Config) (w : Workload) (H : List Entry) → IsConfig c → IsValid w → c.protocol ≡ Calvin → IsQuiet c w H → outcome c w H ≡ in_global_order c.parts w }
    ensures one { (c : Config) (w : Workload) (H K : List Entry) → IsConfig c → IsValid w → c.protocol ≡ Calvin → IsQuiet c w H → IsQuiet c w K → outcome c w H ≡ outcome c w K }
    ensures order { (c : Config) (w : Workload) (H : List Entry) → IsConfig c → IsValid w → c.protocol ≡ Calvin → IsQuiet c w H → map (λ (l : Decided). l.number) (outcome c w H).decided ≡ map (number (setting c w)) (order (setting c w)) }
{}
