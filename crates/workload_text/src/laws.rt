//! Laws of workload files: each function does nothing, and its contract is the law.
ghost use Rattle.std.specs.Prelude.{◌≡◌, ◌≤◌, ℕ, List, length, take, Ok};
ghost use Rattle.records.specs.Records.{records_of};
ghost use Rattle.txn_program.specs.Valid.{IsValid};
ghost use Rattle.txn_program.specs.declared.programs.Workload.{Workload};
ghost use Rattle.workload_text.specs.FileText.{file_of};
ghost use Rattle.workload_text.specs.Files.{IsRising, AreNumbers, AreByNumber, in_order};
ghost use Rattle.workload_text.specs.Grammar.{Prefix, prefix_of, workload_from, workload_of};
ghost use Rattle.workload_text.specs.Ycsb.{steps_from};
ghost use Rattle.workload_text.specs.declared.heads.YcsbHead.{YcsbHead};

/// The workload that a file gives is valid, and its rows stand in strictly rising key order.
pub fn files_are_valid()
    ensures valid { (bytes : List ℕ) (work : Workload) → workload_of bytes ≡ Ok work → IsValid work }
    ensures order { (bytes : List ℕ) (work : Workload) → workload_of bytes ≡ Ok work → IsRising work.load.rows }
{}

/// The records up to and with the first `end` are a file of the workload that they give.
pub fn prefixes_are_files()
    ensures { (bytes : List ℕ) (p : Prefix) → prefix_of bytes ≡ Ok p → workload_from (take p.last (records_of bytes)) ≡ Ok p.work }
{}

/// The text of the records of a valid workload, with its rows in key order and its items in that of their numbers, is a file
/// that gives the workload.
pub fn files_are_read_back()
    ensures { (work : Workload) → IsValid work → AreNumbers work → IsRising work.load.rows → AreByNumber work.load.items → workload_of (file_of work) ≡ Ok work }
{}

/// Some text of the grammar, of whatever length, gives each valid workload, up to the order of its load's rows and items.
pub fn valid_workloads_have_files()
    ensures { (work : Workload) → IsValid work → AreNumbers work → (bytes : List ℕ) × (workload_of bytes ≡ Ok (in_order work)) }
{}

/// The bound on the number of steps is never met: one that is no less than the number of fields gives the same steps, or the
/// same fault, as any other.
pub fn steps_are_all_read()
    ensures { (head : YcsbHead) (most other n : ℕ) (fields : List (List ℕ)) → length fields ≤ most → length fields ≤ other → steps_from head most n fields ≡ steps_from head other n fields }
{}
