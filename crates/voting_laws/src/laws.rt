//! Laws of every run of a voting protocol, under any rule that is lawful and whose numbers grow slowly.
ghost use Rattle.std.specs.Prelude.{◌≡◌, ◌≢◌, ◌⊎◌, ◌≤◌, ℕ, List, [], ◌∷◌, ◌++◌, length, Some};
ghost use Rattle.deneva_base.specs.Lists.{IsIn};
ghost use Rattle.protocol_rules.specs.Naming.{Naming};
ghost use Rattle.deneva_base.specs.Partitions.{partition_of};
ghost use Rattle.protocol_rules.specs.Protocols.{Chosen, chosen};
ghost use Rattle.deneva_base.specs.Rows.{row_of};
ghost use Rattle.protocol_rules.specs.Waits.{WaitsLaw};
ghost use Rattle.deneva_base.specs.declared.config.Config.{Config};
ghost use Rattle.deneva_base.specs.declared.keys.Key.{Key};
ghost use Rattle.deneva_base.specs.declared.keys.Mode.{Mode};
ghost use Rattle.deneva_base.specs.declared.numbers.Attempt.{Attempt};
ghost use Rattle.deneva_base.specs.declared.numbers.TxnId.{TxnId};
ghost use Rattle.txn_program.specs.Serial.{all_ids};
ghost use Rattle.txn_program.specs.Valid.{IsValid};
ghost use Rattle.txn_program.specs.declared.programs.Workload.{Workload};
ghost use Rattle.server_core.specs.Aborts.{aborts_of};
ghost use Rattle.server_core.specs.AbortsListed.{ListsAborts};
ghost use Rattle.server_core.specs.RunAccount.{RunAccount};
ghost use Rattle.server_core.specs.IsSerial.{IsSerial, IsDecided, IsGivenUp};
ghost use Rattle.server_core.specs.Limits.{Limits, is_of, count_entries, most_of, most_events};
ghost use Rattle.server_core.specs.Participant.{node_rows};
ghost use Rattle.server_core.specs.Lines.{lines, sort_lines, giveups_of};
ghost use Rattle.server_core.specs.Outcome.{outcome};
ghost use Rattle.server_core.specs.Picks.{Progress, PicksOne, deliver, deliveries, position, picked};
ghost use Rattle.server_core.specs.Proper.{Valid};
ghost use Rattle.server_core.specs.Runs.{heard};
ghost use Rattle.server_core.specs.Says.{IsQuiet};
ghost use Rattle.server_core.specs.Setting.{Setting, setting};
ghost use Rattle.server_core.specs.Voting.{says, opening};
ghost use Rattle.server_core.specs.VotingAtomic.{IsWhole};
ghost use Rattle.server_core.specs.VotingAtomic.{CommitsAgree};
ghost use Rattle.server_core.specs.VotingNamed.{IsNamed};
ghost use Rattle.server_core.specs.VotingRuns.{IsRun, AllFitting, Small};
ghost use Rattle.server_core.specs.VotingStamps.{StampsTell};
ghost use Rattle.server_core.specs.declared.messages.Entry.{Entry};
ghost use Rattle.server_core.specs.declared.messages.Mail.{Mail};
ghost use Rattle.server_core.specs.declared.messages.Msg.TheVariants.{Ask, Abort};
ghost use Rattle.server_core.specs.declared.outcomes.AbortLine.{AbortLine};
ghost use Rattle.server_core.specs.declared.outcomes.Decided.{Decided};
ghost use Rattle.server_core.specs.declared.outcomes.Giveup.{Giveup};
ghost use Rattle.server_core.specs.declared.schedules.Schedule.{Schedule};

/// In every run each mail in flight fits what its node has handled.
pub fn mails_fit()
    ensures law { (s : Setting) (H : List Entry) (flight : List Mail) → Valid s → Limits s → IsRun s H flight → AllFitting s H flight }
{}

/// An attempt with a accesses and m participants has at most 1 + 2a + 4m entries, a run so many for each attempt, and the
/// numbers of a run stay below 2^48.
pub fn runs_are_bounded()
    ensures each { (s : Setting) (H : List Entry) (flight : List Mail) (who : Attempt) → Valid s → Limits s → IsRun s H flight → count_entries (λ e. is_of who e.msg) H ≤ most_of s who.txn }
    ensures all { (s : Setting) (H : List Entry) (flight : List Mail) → Valid s → Limits s → IsRun s H flight → length H ≤ most_events s }
    ensures small { (s : Setting) (H : List Entry) (flight : List Mail) → Valid s → Limits s → IsRun s H flight → Small H flight }
{}

/// In every run the account holds: what is in flight for each attempt, waits, or was handled at its home; the turns of the
/// begun attempts of each transaction; and how many home transactions of a node are open.
pub fn runs_keep_account()
    ensures law { (s : Setting) (H : List Entry) (flight : List Mail) → Valid s → Limits s → IsRun s H flight → RunAccount s H flight }
{}

/// All Asks of an attempt have one stamp, which is at least 1; those of different transactions differ, over all nodes.
pub fn stamps_tell()
    ensures law { (s : Setting) (H : List Entry) (flight : List Mail) → Valid s → Limits s → IsRun s H flight → StampsTell H }
{}

/// No two mails in flight are equal, so each delivery makes a run of a run, and so does any schedule. One that picks some
/// mail wherever any is in flight, as each `Schedule` does, has none left after as many deliveries as a run has entries: what
/// a schedule picks is a quiet run.
pub fn deliveries_are_runs()
    ensures apart { (s : Setting) (H : List Entry) (flight : List Mail) (x : Mail) (front back : List Mail) → Valid s → Limits s → IsRun s H flight → flight ≡ front ++ x ∷ back → IsIn x front → ⊥ }
    ensures deliver { (s : Setting) (k : ℕ) (w : Progress) → Valid s → Limits s → IsRun s w.entries w.flight → IsRun s (deliver (says s) k w).entries (deliver (says s) k w).flight }
    ensures schedule { (s : Setting) (pick : ℕ → ℕ → ℕ) (i n : ℕ) (w : Progress) → Valid s → Limits s → IsRun s w.entries w.flight → IsRun s (deliveries (says s) pick i n w).entries (deliveries (says s) pick i n w).flight }
    ensures ends { (s : Setting) (pick : ℕ → ℕ → ℕ) → Valid s → Limits s → PicksOne pick → (deliveries (says s) pick 0 (most_events s) (record { entries = []; flight = opening s })).flight ≡ [] }
    ensures picks { (schedule : Schedule) → PicksOne (position schedule) }
    ensures picked { (c : Config) (w : Workload) (o : Chosen) (schedule : Schedule) → chosen c.protocol ≡ Some o → Valid (setting c w) → Limits (setting c w) → IsQuiet c w (picked c w schedule) }
{}

/// In every run the Commits of a transaction are of one attempt and one number, in the windows voted; in a quiet one each
/// participant has one and no other node, or there is none.
pub fn commits_are_atomic()
    ensures law { (s : Setting) (H : List Entry) (flight : List Mail) → Valid s → Limits s → IsRun s H flight → CommitsAgree s H }
    ensures quiet { (s : Setting) (H : List Entry) (x : TxnId) → Valid s → Limits s → IsRun s H [] → IsWhole s H x }
{}

/// In every run each abort line names what the rule found there; each attempt of which an Abort was said has exactly one
/// line, and no other has any.
pub fn aborts_are_named()
    ensures law { (s : Setting) (H : List Entry) (flight : List Mail) (l : AbortLine) → Valid s → Limits s → Naming s.rule → IsRun s H flight → IsIn l (aborts_of s H) → IsNamed s H l }
    ensures listed { (s : Setting) (H : List Entry) (flight : List Mail) → Valid s → Limits s → IsRun s H flight → ListsAborts s H (aborts_of s H) }
{}

/// In a quiet run of a rule with one of the waits laws each transaction is decided or given up; in no run is one both.
pub fn quiet_means_decided()
    ensures law { (s : Setting) (H : List Entry) (x : TxnId) → Valid s → Limits s → WaitsLaw s.rule → IsRun s H [] → IsIn x s.ids → ((l : Decided) × IsIn l (sort_lines (lines s H)) × (l.number.id ≡ x)) ⊎ ((g : Giveup) × IsIn g (giveups_of s H) × (g.id ≡ x)) }
    ensures not_both { (s : Setting) (H : List Entry) (flight : List Mail) (l : Decided) (g : Giveup) → Valid s → Limits s → IsRun s H flight → IsIn l (sort_lines (lines s H)) → IsIn g (giveups_of s H) → l.number.id ≢ g.id }
{}

/// A quiet run of a valid workload in which each transaction is decided or given up has the outcome of its decided
/// transactions executed one at a time in the order of their numbers; so has each quiet run of a rule with one of the waits
/// laws. In every quiet run the rows of the nodes are those of the outcome.
pub fn quiet_runs_are_serial()
    ensures law { (c : Config) (w : Workload) (o : Chosen) (H : List Entry) → chosen c.protocol ≡ Some o → IsValid w → Valid (setting c w) → Limits (setting c w) → IsQuiet c w H → ((x : TxnId) → IsIn x (all_ids w) → IsDecided (outcome c w H) x ⊎ IsGivenUp (outcome c w H) x) → IsSerial w (outcome c w H) }
    ensures waits { (c : Config) (w : Workload) (o : Chosen) (H : List Entry) → chosen c.protocol ≡ Some o → IsValid w → Valid (setting c w) → Limits (setting c w) → WaitsLaw o.rule → IsQuiet c w H → IsSerial w (outcome c w H) }
    ensures rows { (c : Config) (w : Workload) (o : Chosen) (H : List Entry) (key : Key) → chosen c.protocol ≡ Some o → IsValid w → Valid (setting c w) → Limits (setting c w) → IsQuiet c w H → node_rows (setting c w) (partition_of key c.parts) (heard (partition_of key c.parts) H) key ≡ row_of (outcome c w H).rows key }
{}
