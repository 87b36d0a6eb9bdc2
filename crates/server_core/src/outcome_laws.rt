//! Laws of outcomes: the function does nothing, and its contract is the laws.
ghost use Rattle.std.specs.Prelude.{List, []};
ghost use Rattle.deneva_base.specs.declared.config.Config.{Config};
ghost use Rattle.txn_program.specs.declared.programs.Workload.{Workload};
ghost use Rattle.server_core.specs.Aborts.{aborts_of};
ghost use Rattle.server_core.specs.IsSerial.{Rises};
ghost use Rattle.server_core.specs.Lines.{giveups_of};
ghost use Rattle.server_core.specs.Outcome.{outcome_with};
ghost use Rattle.server_core.specs.ReportOrder.{InReportOrder};
ghost use Rattle.server_core.specs.Setting.{setting};
ghost use Rattle.server_core.specs.declared.messages.Entry.{Entry};
ghost use Rattle.server_core.specs.declared.outcomes.Decided.{Decided};

/// An outcome whose decided transactions stand by their numbers has all its lines in the order of a report.
pub fn outcomes_are_in_order()
    ensures voting { (c : Config) (w : Workload) (H : List Entry) (ls : List Decided) → Rises ls → InReportOrder (outcome_with c w ls (giveups_of (setting c w) H) (aborts_of (setting c w) H)) }
    ensures calvin { (c : Config) (w : Workload) (H : List Entry) (ls : List Decided) → Rises ls → InReportOrder (outcome_with c w ls [] []) }
{}
