//! What the version that a key has after a history is, under a rule that keeps the window law.
ghost use Rattle.std.specs.Prelude.{◌≡◌, ◌≤◌, Some, option_map};
ghost use Rattle.deneva_base.specs.Rows.{Row, Rows};
ghost use Rattle.deneva_base.specs.declared.keys.Key.{Key};
ghost use Rattle.protocol_rules.specs.History.{History};
ghost use Rattle.protocol_rules.specs.Latest.{latest};
ghost use Rattle.protocol_rules.specs.Leaving.{rows_left};
ghost use Rattle.protocol_rules.specs.Rules.{Rule, Obeys};
ghost use Rattle.protocol_rules.specs.Windows.{KeepsWindows};
ghost use Rattle.control_core.specs.Leaving.{last};

/// Its row is the one that the history leaves. Of a key that is loaded, to which nothing is appended, it is the latest
/// version.
pub fn last_versions_agree()
    ensures left { (loaded : Rows) (rule : Rule) → ((h : History) → Obeys loaded rule h → KeepsWindows loaded h) → (h : History) (key : Key) → Obeys loaded rule h → option_map (λ v. v.row) (last loaded h key) ≡ rows_left loaded h key }
    ensures latest { (loaded : Rows) (rule : Rule) (h : History) (key : Key) (row : Row) → Obeys loaded rule h → loaded key ≡ Some row → key.table ≤ 4 → last loaded h key ≡ Some (latest loaded h key) }
{}
