//! Laws of serial executions: the function does nothing, and its contract is the laws.
ghost use Rattle.txn_program.specs.Serial.{serial, all_ids};
ghost use Rattle.txn_program.specs.declared.programs.Workload.{Workload};
ghost use Rattle.server_core.specs.IsSerial.{IsSerial};
ghost use Rattle.server_core.specs.ReportOrder.{InReportOrder};
ghost use Rattle.run_outcomes.specs.SerialOutcome.{serial_outcome};

/// The outcome of the serial execution of a workload in file order is serial, and lists its lines in the order of a report.
pub fn serial_outcomes_are_serial()
    ensures serial { (w : Workload) → IsSerial w (serial_outcome (serial w (all_ids w))) }
    ensures in_order { (w : Workload) → InReportOrder (serial_outcome (serial w (all_ids w))) }
{}
