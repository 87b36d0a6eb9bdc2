//! Laws of what waits and of which reads are refused, by protocol.
ghost use Rattle.std.specs.Prelude.{◌≡◌, ◌⊎◌, ◌<◌, ℕ, [], Some};
ghost use Rattle.deneva_base.specs.Rows.{Rows};
ghost use Rattle.deneva_base.specs.declared.answers.Answer.TheVariants.{Refused};
ghost use Rattle.deneva_base.specs.declared.causes.Cause.{Cause};
ghost use Rattle.deneva_base.specs.declared.causes.Cause.TheVariants.{Trimmed};
ghost use Rattle.deneva_base.specs.declared.config.Protocol.{Protocol};
ghost use Rattle.deneva_base.specs.declared.config.Protocol.TheVariants.{NoWait, Maat};
ghost use Rattle.deneva_base.specs.declared.keys.Key.{Key};
ghost use Rattle.deneva_base.specs.declared.keys.Mode.TheVariants.{Read};
ghost use Rattle.deneva_base.specs.declared.numbers.Attempt.{Attempt};
ghost use Rattle.protocol_rules.specs.History.{History, waits};
ghost use Rattle.protocol_rules.specs.Mvcc.{mvcc, floor};
ghost use Rattle.protocol_rules.specs.Protocols.{Chosen, chosen};
ghost use Rattle.protocol_rules.specs.Rules.{Obeys};
ghost use Rattle.protocol_rules.specs.WaitsOf.{WaitsOf};

/// Each voting protocol has its own waits law; under NO_WAIT and MAAT no access waits, so that the count of those that wait
/// is 0.
pub fn protocols_wait()
    ensures law { (p : Protocol) (o : Chosen) (loaded : Rows) (h : History) → chosen p ≡ Some o → Obeys loaded (o.rule loaded) h → WaitsOf p h }
    ensures none { (p : Protocol) (o : Chosen) (loaded : Rows) (h : History) → chosen p ≡ Some o → (p ≡ NoWait) ⊎ (p ≡ Maat) → Obeys loaded (o.rule loaded) h → waits h ≡ [] }
{}

/// Under MVCC a read is refused exactly where its stamp is below the floor of the versions kept, and that is the cause; where
/// all versions are kept, none is refused.
pub fn mvcc_reads()
    ensures refused { (keep : ℕ) (loaded : Rows) (h : History) (who : Attempt) (stamp : ℕ) (key : Key) (cause : Cause) → (mvcc keep loaded).ask h who stamp key Read ≡ Refused cause → (stamp < floor keep loaded h key) × (cause ≡ Trimmed key (floor keep loaded h key)) }
    ensures below { (keep : ℕ) (loaded : Rows) (h : History) (who : Attempt) (stamp : ℕ) (key : Key) → stamp < floor keep loaded h key → (mvcc keep loaded).ask h who stamp key Read ≡ Refused (Trimmed key (floor keep loaded h key)) }
    ensures never { (loaded : Rows) (h : History) (who : Attempt) (stamp : ℕ) (key : Key) (cause : Cause) → (mvcc 0 loaded).ask h who stamp key Read ≡ Refused cause → ⊥ }
{}
