//! Laws of what a node of Calvin keeps: its rows, and the list of the transactions that have not finished there.
ghost use Rattle.std.specs.Prelude.{◌≡◌, ℕ, List, ◌∷◌, ◌++◌, filter, true, false};
ghost use Rattle.deneva_base.specs.Lists.{IsIn};
ghost use Rattle.deneva_base.specs.Partitions.{partition_of};
ghost use Rattle.deneva_base.specs.Rows.{put_rows};
ghost use Rattle.deneva_base.specs.declared.keys.Access.{Access};
ghost use Rattle.deneva_base.specs.declared.numbers.TxnId.{TxnId};
ghost use Rattle.deneva_base.specs.declared.rows.Keyed.{Keyed};
ghost use Rattle.server_core.specs.ActiveList.{active, is_first, became, without, newly_taken};
ghost use Rattle.server_core.specs.Calvin.{became_ready};
ghost use Rattle.server_core.specs.CalvinFits.{AllFit};
ghost use Rattle.server_core.specs.CalvinProper.{Valid};
ghost use Rattle.server_core.specs.GlobalOrder.{order, before, has_id};
ghost use Rattle.server_core.specs.GreatestRows.{IsGreatest};
ghost use Rattle.server_core.specs.CalvinScheduler.{participates, clash, taken, is_finished, is_ready, applied, now};
ghost use Rattle.server_core.specs.Setting.{Setting};
ghost use Rattle.server_core.specs.declared.messages.Msg.TheVariants.{Batch, Rows};
ghost use Rattle.server_core.specs.declared.messages.Msg.{Msg};

/// The rows at a node are for each key that of the greatest number which a finished transaction leaves there. One more
/// finished transaction puts what it leaves on the rows of the accessed keys.
pub fn calvin_rows_are_greatest()
    ensures greatest { (s : Setting) (p : ℕ) (ms : List Msg) → Valid s → IsGreatest s p ms (now s p ms) }
    ensures finish { (s : Setting) (p : ℕ) (ms : List Msg) (x : TxnId) (q : ℕ) (rows : List Keyed) (z : TxnId) (a : Access) → Valid s → AllFit s p ms → is_finished s (Rows x q rows ∷ ms) x ≡ true → is_finished s ms x ≡ false → IsIn x s.ids → IsIn z s.ids → IsIn a (s.accesses z) → partition_of a.key s.parts ≡ p → now s p (Rows x q rows ∷ ms) a.key ≡ put_rows (now s p ms) (applied s p (Rows x q rows ∷ ms) x) a.key }
{}

/// What a message makes ready: a batch, what it brought; `Rows`, what waited for the transaction that they finish.
pub fn news_are_local()
    ensures batch { (s : Setting) (p e q : ℕ) (ids : List TxnId) (ms : List Msg) (z : TxnId) → is_ready s p (Batch e q ids ∷ ms) z ≡ true → is_ready s p ms z ≡ false → has_id z (taken s ms) ≡ false }
    ensures rows { (s : Setting) (p q : ℕ) (x : TxnId) (rows : List Keyed) (ms : List Msg) (z : TxnId) → is_ready s p (Rows x q rows ∷ ms) z ≡ true → is_ready s p ms z ≡ false → (is_finished s (Rows x q rows ∷ ms) x ≡ true) × (is_finished s ms x ≡ false) × IsIn x (before z (order s)) × (clash s p z x ≡ true) }
{}

/// The list of the taken, unfinished transactions of a node, in the order of their numbers. One of them is ready where
/// none before it in the list conflicts with it, and those that become ready are among them. A batch puts what it brings
/// at its end, and `Rows` that finish a transaction take that away.
pub fn active_lists_are_kept()
    ensures ready { (s : Setting) (p : ℕ) (ms : List Msg) (x : TxnId) → Valid s → IsIn x (active s p ms) → is_ready s p ms x ≡ is_first s p (active s p ms) x }
    ensures became { (s : Setting) (p : ℕ) (m : Msg) (ms : List Msg) → Valid s → AllFit s p (m ∷ ms) → became_ready s p m ms ≡ filter (became s p m ms) (active s p (m ∷ ms)) }
    ensures batch { (s : Setting) (p e q : ℕ) (ids : List TxnId) (ms : List Msg) → Valid s → AllFit s p ms → active s p (Batch e q ids ∷ ms) ≡ active s p ms ++ filter (λ x. participates s x p) (newly_taken s (Batch e q ids) ms) }
    ensures finish { (s : Setting) (p q : ℕ) (x : TxnId) (rows : List Keyed) (ms : List Msg) → Valid s → is_finished s (Rows x q rows ∷ ms) x ≡ true → active s p (Rows x q rows ∷ ms) ≡ without x (active s p ms) }
    ensures same { (s : Setting) (p q : ℕ) (x : TxnId) (rows : List Keyed) (ms : List Msg) → Valid s → is_finished s (Rows x q rows ∷ ms) x ≡ is_finished s ms x → active s p (Rows x q rows ∷ ms) ≡ active s p ms }
{}
