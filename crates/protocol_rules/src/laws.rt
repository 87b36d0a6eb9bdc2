//! Laws of the rules, each of every history whose calls met their conditions and were answered by the rule.
ghost use Rattle.std.specs.Prelude.{◌≡◌, ◌⊎◌, ◌+◌, ◌<◌, ◌≤◌, List, ℕ, ◌∷◌, [], false, true, Some};
ghost use Rattle.std.specs.List.{list_any};
ghost use Rattle.deneva_base.specs.Lists.{IsIn};
ghost use Rattle.deneva_base.specs.Rows.{Row, Rows};
ghost use Rattle.protocol_rules.specs.History.{Call, History, Asked, Decided, Commit, Abort, waits};
ghost use Rattle.protocol_rules.specs.Rules.{Obeys};
ghost use Rattle.protocol_rules.specs.Windows.{KeepsWindows};
ghost use Rattle.protocol_rules.specs.Wakes.{WakesOnce};
ghost use Rattle.protocol_rules.specs.Waits.{NothingWaits, WaitsForYounger, WaitsForWriter, WaitsLaw};
ghost use Rattle.protocol_rules.specs.NoWait.{no_wait};
ghost use Rattle.protocol_rules.specs.WaitDie.{wait_die, queue, Falls, StandsBehind, FirstIsHeldUp, WakesRight, WakesInTurn, WakesFromFront};
ghost use Rattle.protocol_rules.specs.Waiting.{holders, holds, older_writer};
ghost use Rattle.protocol_rules.specs.Trying.{tries};
ghost use Rattle.protocol_rules.specs.Latest.{Version, latest};
ghost use Rattle.protocol_rules.specs.Leaving.{rows_left};
ghost use Rattle.protocol_rules.specs.Left.{Leaves, IsGreatestLeft};
ghost use Rattle.protocol_rules.specs.Versions.{written, start, greatest, below};
ghost use Rattle.protocol_rules.specs.Timestamp.{timestamp, top_written};
ghost use Rattle.protocol_rules.specs.Mvcc.{mvcc, writer_between};
ghost use Rattle.protocol_rules.specs.Maat.{maat};
ghost use Rattle.protocol_rules.specs.Lawful.{Lawful};
ghost use Rattle.protocol_rules.specs.Growth.{Grows};
ghost use Rattle.protocol_rules.specs.Naming.{Naming};
ghost use Rattle.protocol_rules.specs.Served.{Served};
ghost use Rattle.protocol_rules.specs.Protocols.{Chosen, IsVoting, chosen};
ghost use Rattle.deneva_base.specs.declared.config.Protocol.{Protocol};
ghost use Rattle.deneva_base.specs.declared.config.Protocol.TheVariants.{Calvin};
ghost use Rattle.deneva_base.specs.declared.answers.Vote.TheVariants.{Yes};
ghost use Rattle.deneva_base.specs.declared.causes.Bound.{Bound};
ghost use Rattle.deneva_base.specs.declared.rows.Keyed.{Keyed};
ghost use Rattle.deneva_base.specs.declared.keys.Key.{Key};
ghost use Rattle.deneva_base.specs.declared.numbers.Attempt.{Attempt};
ghost use Rattle.deneva_base.specs.declared.numbers.Number.{Number};

/// NO_WAIT keeps the window law, and nothing waits.
pub fn no_wait_laws()
    ensures windows { (loaded : Rows) (h : History) → Obeys loaded (no_wait loaded) h → KeepsWindows loaded h }
    ensures waits { (loaded : Rows) (h : History) → Obeys loaded (no_wait loaded) h → NothingWaits h }
{}

/// WAIT_DIE keeps the window law. Each waiter conflicts with an owner of greater stamp or stands behind a waiter of
/// greater stamp; the first of a key conflicts with an owner of greater stamp; one that conflicts with no owner stands
/// behind a conflicting waiter of greater stamp; the waiters of a key stand in strictly falling stamp order. Each access
/// that was told to wait is woken once or waits still; each wake is granted as the rule says, in its turn. The wakes of a
/// key are those taken from the front of its queue while compatible with the owners and with those taken before.
pub fn wait_die_laws()
    ensures windows { (loaded : Rows) (h : History) → Obeys loaded (wait_die loaded) h → KeepsWindows loaded h }
    ensures waits { (loaded : Rows) (h : History) → Obeys loaded (wait_die loaded) h → WaitsForYounger h }
    ensures first { (loaded : Rows) (h : History) → Obeys loaded (wait_die loaded) h → FirstIsHeldUp h }
    ensures behind { (loaded : Rows) (h : History) → Obeys loaded (wait_die loaded) h → StandsBehind h }
    ensures falls { (loaded : Rows) (h : History) (key : Key) → Obeys loaded (wait_die loaded) h → Falls (queue h key) }
    ensures wakes { (loaded : Rows) (h : History) → Obeys loaded (wait_die loaded) h → WakesOnce h }
    ensures right { (loaded : Rows) (h : History) (c : Call) → Obeys loaded (wait_die loaded) (c ∷ h) → WakesRight loaded h c }
    ensures turns { (loaded : Rows) (h : History) (c : Call) → Obeys loaded (wait_die loaded) (c ∷ h) → WakesInTurn loaded h c }
    ensures front { (loaded : Rows) (h : History) (c : Call) → Obeys loaded (wait_die loaded) (c ∷ h) → WakesFromFront loaded h c }
{}

/// TIMESTAMP keeps the window law. Each waiter reads and has a granted, unended writer of smaller stamp on its key. Whom
/// the end of an attempt wakes is found by trying the waiters of its keys one after another, by rising stamp; a waiter
/// of another key would not be granted.
pub fn timestamp_laws()
    ensures windows { (loaded : Rows) (h : History) → Obeys loaded (timestamp loaded) h → KeepsWindows loaded h }
    ensures waits { (loaded : Rows) (h : History) → Obeys loaded (timestamp loaded) h → WaitsForWriter h }
    ensures wakes { (loaded : Rows) (h : History) → Obeys loaded (timestamp loaded) h → WakesOnce h }
    ensures commit_tries { (loaded : Rows) (h : History) (who : Attempt) (number : Number) → Obeys loaded (timestamp loaded) h → (timestamp loaded).commit h who number ≡ tries loaded older_writer h (Commit who number [] ∷ h) who }
    ensures abort_tries { (loaded : Rows) (h : History) (who : Attempt) → Obeys loaded (timestamp loaded) h → (timestamp loaded).abort h who ≡ tries loaded older_writer h (Abort who [] ∷ h) who }
    ensures commit_keys { (loaded : Rows) (h : History) (who : Attempt) (number : Number) (a : Asked) → Obeys loaded (timestamp loaded) h → IsIn a (waits h) → holds h who a.key ≡ false → list_any (older_writer a) (holders (Commit who number [] ∷ h)) ≡ true }
    ensures abort_keys { (loaded : Rows) (h : History) (who : Attempt) (a : Asked) → Obeys loaded (timestamp loaded) h → IsIn a (waits h) → holds h who a.key ≡ false → list_any (older_writer a) (holders (Abort who [] ∷ h)) ≡ true }
{}

/// MVCC, whatever number of versions it keeps (all for 0), has the laws of TIMESTAMP, where a writer stops a waiter only
/// above the version that the waiter would read.
pub fn mvcc_laws()
    ensures windows { (keep : ℕ) (loaded : Rows) (h : History) → Obeys loaded (mvcc keep loaded) h → KeepsWindows loaded h }
    ensures waits { (keep : ℕ) (loaded : Rows) (h : History) → Obeys loaded (mvcc keep loaded) h → WaitsForWriter h }
    ensures wakes { (keep : ℕ) (loaded : Rows) (h : History) → Obeys loaded (mvcc keep loaded) h → WakesOnce h }
    ensures commit_tries { (keep : ℕ) (loaded : Rows) (h : History) (who : Attempt) (number : Number) → Obeys loaded (mvcc keep loaded) h → (mvcc keep loaded).commit h who number ≡ tries loaded (writer_between loaded (Commit who number [] ∷ h)) h (Commit who number [] ∷ h) who }
    ensures abort_tries { (keep : ℕ) (loaded : Rows) (h : History) (who : Attempt) → Obeys loaded (mvcc keep loaded) h → (mvcc keep loaded).abort h who ≡ tries loaded (writer_between loaded (Abort who [] ∷ h)) h (Abort who [] ∷ h) who }
    ensures commit_keys { (keep : ℕ) (loaded : Rows) (h : History) (who : Attempt) (number : Number) (a : Asked) → Obeys loaded (mvcc keep loaded) h → IsIn a (waits h) → holds h who a.key ≡ false → list_any (writer_between loaded (Commit who number [] ∷ h) a) (holders (Commit who number [] ∷ h)) ≡ true }
    ensures abort_keys { (keep : ℕ) (loaded : Rows) (h : History) (who : Attempt) (a : Asked) → Obeys loaded (mvcc keep loaded) h → IsIn a (waits h) → holds h who a.key ≡ false → list_any (writer_between loaded (Abort who [] ∷ h) a) (holders (Abort who [] ∷ h)) ≡ true }
{}

/// MAAT, whatever length its windows have, keeps the window law, and nothing waits. The window of a vote Yes has at least
/// one number and at most the span, where that is not 0.
pub fn maat_laws()
    ensures windows { (span : ℕ) (loaded : Rows) (h : History) → Obeys loaded (maat span loaded) h → KeepsWindows loaded h }
    ensures waits { (span : ℕ) (loaded : Rows) (h : History) → Obeys loaded (maat span loaded) h → NothingWaits h }
    ensures window { (span : ℕ) (loaded : Rows) (h : History) (who : Attempt) (bound : Bound) (writes appends : List Keyed) (lo hi : ℕ) → 1 ≤ span → (maat span loaded).vote h who bound writes appends ≡ Yes lo hi → (lo ≤ hi) × (hi < lo + span) }
{}

/// Each rule meets all that the laws of runs ask of one: its windows, wakes and granted rows, the causes that it names,
/// how far one answer raises its numbers, and what its waiters wait for.
pub fn rules_serve()
    ensures no_wait { Lawful no_wait × Naming no_wait × Grows no_wait 1 × WaitsLaw no_wait }
    ensures wait_die { Lawful wait_die × Naming wait_die × Grows wait_die 1 × WaitsLaw wait_die }
    ensures timestamp { Lawful timestamp × Naming timestamp × Grows timestamp 0 × WaitsLaw timestamp }
    ensures mvcc { (keep : ℕ) → Lawful (mvcc keep) × Naming (mvcc keep) × Grows (mvcc keep) 0 × WaitsLaw (mvcc keep) }
    ensures maat { (span : ℕ) → Lawful (maat span) × Naming (maat span) × Grows (maat span) (span + 1) × WaitsLaw (maat span) }
{}

/// Each protocol votes or is Calvin. A protocol that votes chooses a rule, and the rule that a protocol chooses meets all
/// that the laws of runs ask of one.
pub fn protocols_are_served()
    ensures votes { (p : Protocol) → IsVoting p ⊎ (p ≡ Calvin) }
    ensures chooses { (p : Protocol) → IsVoting p → (o : Chosen) × (chosen p ≡ Some o) }
    ensures served { (p : Protocol) (o : Chosen) → chosen p ≡ Some o → Served o.rule }
{}

/// The latest version of a key is the greatest of its committed writes and the loaded row, its n the greatest that was
/// written, and it is the version below each stamp that is above them all. The row that a history leaves for a key is that
/// of the greatest number among its committed writes and appends, and the loaded row where there is none.
pub fn committed_writes_agree()
    ensures latest { (loaded : Rows) (h : History) (key : Key) → latest loaded h key ≡ greatest (start loaded key) (written h key) }
    ensures top { (loaded : Rows) (h : History) (key : Key) → (latest loaded h key).number.n ≡ top_written h key }
    ensures below { (loaded : Rows) (h : History) (key : Key) (stamp : ℕ) → ((v : Version) → IsIn v (written h key) → v.number.n < stamp) → below loaded h key stamp ≡ latest loaded h key }
    ensures left { (loaded : Rows) (h : History) (key : Key) → ((row : Row) × IsGreatestLeft h key row × (rows_left loaded h key ≡ Some row)) ⊎ (((d : Decided) (row : Row) → Leaves h key d row → ⊥) × (rows_left loaded h key ≡ loaded key)) }
{}
