//! What a refusal and a No name, whatever the history is.
ghost use Rattle.std.specs.Prelude.{◌≡◌, ◌<◌, ◌≤◌, ◌^◌, ℕ, List};
ghost use Rattle.deneva_base.specs.declared.answers.Answer.TheVariants.{Refused};
ghost use Rattle.deneva_base.specs.declared.answers.Vote.TheVariants.{Yes, No};
ghost use Rattle.deneva_base.specs.declared.causes.Bound.{Bound};
ghost use Rattle.deneva_base.specs.declared.causes.Cause.TheVariants.{Held, Younger, Written, ReadLater, EmptyRange, Trimmed};
ghost use Rattle.deneva_base.specs.declared.keys.Key.{Key};
ghost use Rattle.deneva_base.specs.declared.keys.Mode.{Mode};
ghost use Rattle.deneva_base.specs.declared.numbers.Attempt.{Attempt};
ghost use Rattle.deneva_base.specs.declared.rows.Keyed.{Keyed};
ghost use Rattle.deneva_base.specs.Keys.{attempt_lt};
ghost use Rattle.deneva_base.specs.Rows.{Rows};
ghost use Rattle.protocol_rules.specs.Causes.{Bars, BarsFirst, ElderBarsFirst, WrittenAbove, ReadAbove, VersionReadAbove, KeptAbove, GivesHigh, NamesEnds};
ghost use Rattle.protocol_rules.specs.Conditions.{MayPrepare};
ghost use Rattle.protocol_rules.specs.Ends.{IsLockWindow, IsRange};
ghost use Rattle.protocol_rules.specs.History.{History, Grant};
ghost use Rattle.protocol_rules.specs.Least.{IsLeast};
ghost use Rattle.protocol_rules.specs.Locks.{lock_vote};
ghost use Rattle.protocol_rules.specs.Maat.{maat};
ghost use Rattle.protocol_rules.specs.Mvcc.{mvcc};
ghost use Rattle.protocol_rules.specs.NoWait.{no_wait};
ghost use Rattle.protocol_rules.specs.Ranged.{low, high};
ghost use Rattle.protocol_rules.specs.Rules.{Obeys};
ghost use Rattle.protocol_rules.specs.Timestamp.{timestamp};
ghost use Rattle.protocol_rules.specs.Versions.{below};
ghost use Rattle.protocol_rules.specs.WaitDie.{wait_die};
ghost use Rattle.protocol_rules.specs.Waiting.{this};

/// NO_WAIT refuses an access where an owner conflicts, and names the least such attempt.
pub fn no_wait_names_the_least()
    ensures refuses { (loaded : Rows) (h : History) (who : Attempt) (stamp : ℕ) (key : Key) (mode : Mode) (g : Grant) → Bars h (this who stamp key mode) g → (by : Attempt) × ((no_wait loaded).ask h who stamp key mode ≡ Refused (Held key by)) }
    ensures least { (loaded : Rows) (h : History) (who : Attempt) (stamp : ℕ) (key : Key) (mode : Mode) (k : Key) (by : Attempt) → (no_wait loaded).ask h who stamp key mode ≡ Refused (Held k by) → (k ≡ key) × BarsFirst h (this who stamp key mode) by }
{}

/// WAIT_DIE refuses an access where an owner of smaller stamp conflicts, and names the least such attempt with its stamp.
pub fn wait_die_names_the_least()
    ensures refuses { (loaded : Rows) (h : History) (who : Attempt) (stamp : ℕ) (key : Key) (mode : Mode) (g : Grant) → Bars h (this who stamp key mode) g → g.stamp < stamp → (by : Attempt) × (age : ℕ) × ((wait_die loaded).ask h who stamp key mode ≡ Refused (Younger key by age)) }
    ensures least { (loaded : Rows) (h : History) (who : Attempt) (stamp : ℕ) (key : Key) (mode : Mode) (k : Key) (by : Attempt) (age : ℕ) → (wait_die loaded).ask h who stamp key mode ≡ Refused (Younger k by age) → (k ≡ key) × ElderBarsFirst h (this who stamp key mode) by age }
{}

/// TIMESTAMP names the greatest number of a committed write of the key, or the greatest stamp with which it was read.
pub fn timestamp_names_the_greatest()
    ensures written { (loaded : Rows) (h : History) (who : Attempt) (stamp : ℕ) (key : Key) (mode : Mode) (k : Key) (top : ℕ) → (timestamp loaded).ask h who stamp key mode ≡ Refused (Written k top) → (k ≡ key) × WrittenAbove h key stamp top }
    ensures read { (loaded : Rows) (h : History) (who : Attempt) (stamp : ℕ) (key : Key) (mode : Mode) (k : Key) (top : ℕ) → (timestamp loaded).ask h who stamp key mode ≡ Refused (ReadLater k top) → (k ≡ key) × ReadAbove h key stamp top }
{}

/// MVCC names the greatest stamp with which the version below the stamp was read, or the least number that it keeps.
pub fn mvcc_names_the_greatest()
    ensures read { (keep : ℕ) (loaded : Rows) (h : History) (who : Attempt) (stamp : ℕ) (key : Key) (mode : Mode) (k : Key) (top : ℕ) → (mvcc keep loaded).ask h who stamp key mode ≡ Refused (ReadLater k top) → (k ≡ key) × VersionReadAbove h key (below loaded h key stamp).number stamp top }
    ensures trimmed { (keep : ℕ) (loaded : Rows) (h : History) (who : Attempt) (stamp : ℕ) (key : Key) (mode : Mode) (k : Key) (least : ℕ) → (mvcc keep loaded).ask h who stamp key mode ≡ Refused (Trimmed k least) → (k ≡ key) × KeptAbove keep loaded h key stamp least }
{}

/// MAAT names the ends of an empty window, each with the least that gives it. Where windows are of at most 2^30 numbers
/// something gives the upper end; where they are longer it can be that of all numbers, and then the attempt itself is named.
pub fn maat_names_its_ends()
    ensures ends { (span : ℕ) (loaded : Rows) (h : History) (who : Attempt) (bound : Bound) (writes appends : List Keyed) (lo : ℕ) (lo_key : Key) (hi : ℕ) (hi_by : Attempt) → (maat span loaded).vote h who bound writes appends ≡ No (EmptyRange lo lo_key hi hi_by) → NamesEnds h who bound writes lo lo_key hi hi_by }
    ensures limited { (span : ℕ) (loaded : Rows) (h : History) (who : Attempt) (bound : Bound) (writes appends : List Keyed) (lo : ℕ) (lo_key : Key) (hi : ℕ) (hi_by : Attempt) → span ≤ 2 ^ 30 → Obeys loaded (maat span loaded) h → MayPrepare h who bound writes appends → (maat span loaded).vote h who bound writes appends ≡ No (EmptyRange lo lo_key hi hi_by) → IsLeast attempt_lt (GivesHigh h who hi) hi_by }
{}

/// The window of a lock vote begins one past the greatest number of a committed attempt that the attempt met; that of MAAT
/// lies between the greatest of its lower ends and the least of its upper ones.
pub fn windows_have_their_ends()
    ensures locks { (h : History) (who : Attempt) (lo hi : ℕ) → lock_vote h who ≡ Yes lo hi → IsLockWindow h who lo hi }
    ensures maat { (h : History) (who : Attempt) (bound : Bound) (writes : List Keyed) → IsRange h who bound writes (low h who bound writes) (high h who) }
{}
