//! The call that the program makes.
ghost use Rattle.std.specs.Prelude.{◌^◌, ◌-◌, ◌≡◌, ◌≢◌, ◌≤◌, ◌<◌, ◌⊎◌, ℕ, List, ◌++◌, length, take, map, string_bytes, codes, true, false, Option, Some, None, Ok, Err, IfOk};
ghost use Rattle.deneva_io.specs.Streams.{IsOver, Rose, Grew, WriteTook, WriteCause};
ghost use Rattle.txn_program.specs.Serial.{all_ids};
ghost use Rattle.txn_program.specs.Valid.{IsValid};
ghost use Rattle.txn_program.specs.declared.programs.Workload.{Workload};
ghost use Rattle.workload_text.specs.declared.faults.InputFault.{InputFault};
ghost use Rattle.deneva_top.specs.declared.words.Command.{Command};
ghost use Rattle.deneva_top.specs.Words.{command_of};
ghost use Rattle.deneva_top.specs.Calls.{Answers, IsAsked, Reports, fault_line, report_of};
ghost use Rattle.replay.specs.declared.runs.Ran.{Ran};
ghost use Rattle.workload_text.specs.Sources.{InputIs, WorkIs, FaultIs, IsReadUnless};

use crate::fault_text::write_fault;
use crate::serial_model::run_serial;
use crate::words::{Command, command_of};
use deneva_base::{ByteList, IdList, NoMemory, TxnId};
use deneva_io::{Put, Sink, Source};
use replay::{Ran, replay};
use report::write_report;
use run_outcomes::{serial_outcome, serial_outcomes_are_serial};
use std::alloc::Global;
use txn_program::{ProgramList, Workload};
use workload_text::{ReadError, read_workload};

/// The most bytes that are written at once.
const PIECE: usize = 4_096;

/// The ids of a workload's transactions, in file order.
fn ids_of(alloc: Global, work: &Workload) -> Result<IdList, NoMemory>
    requires { IsValid work.now }
    ensures { IfOk result (λ ids. ids ≡ all_ids work.now) }
{
    let mut ids = IdList::new(alloc);
    for place in 0..work.programs.len() {
        ids.push(TxnId(place as u32 + 1))?;
    }
    Ok(ids)
}

/// The report of the serial execution of a workload.
fn serial_report(alloc: Global, work: &Workload) -> Result<ByteList, NoMemory>
    requires { IsValid work.now }
    ensures { IfOk result (λ text. text ≡ report_of work.now) }
{
    let order = ids_of(alloc, work)?;
    let run = run_serial(alloc, work, &order)?;
    let outcome = serial_outcome(alloc, run)?;
    serial_outcomes_are_serial();
    write_report(alloc, &outcome)
}

/// What a call answers: the status that it ends with, what was run, and the text that it writes.
#[derive(Drop)]
struct Answer {
    status: u8,
    run: Option<Ran>,
    text: ByteList,
}

impl Answer {
    /// One with nothing but a text.
    fn of(alloc: Global, status: u8, text: &[u8]) -> Result<Answer, NoMemory>
        ensures { IfOk result (λ a. a ≡ record { status = status; run = None; text = text.now }) }
    {
        Ok(Answer {
            status,
            run: None,
            text: ByteList::from_bytes(alloc, text)?,
        })
    }
}

/// Does on a workload what is asked.
fn carry_out(alloc: Global, job: &Command, work: &Workload) -> Result<Answer, NoMemory>
    requires valid { IsValid work.now }
    requires asked { (words : List (List ℕ)) × (command_of words ≡ Some job.now) }
    ensures status { IfOk result (λ a. a.status ≡ 0) }
    ensures reports { IfOk result (λ a. Reports job.now work.now a.run a.text) }
{
    match job {
        Command::Serial => Ok(Answer {
            status: 0,
            run: None,
            text: serial_report(alloc, work)?,
        }),
        Command::Replay(config, schedule) => {
            let run = replay(alloc, *config, work, schedule)?;
            let text = write_report(alloc, &run.outcome)?;
            Ok(Answer {
                status: 0,
                run: Some(run),
                text,
            })
        }
    }
}

/// What the words and the input ask for. Out of memory is an answer of its own.
fn answer_of<S: Source>(alloc: Global, words: &[String], source: &mut S) -> Result<Answer, NoMemory>
    ensures answer { IfOk result (λ a. Answers (map string_bytes words.now) (S.left source.old) (S.left source.new) (S.faults source.old) (S.faults source.new) a.status a.run a.text) }
    ensures unread { command_of (map string_bytes words.now) ≡ None → (S.left source.new ≡ S.left source.old) × (S.faults source.new ≡ S.faults source.old) }
{
    let Some(job) = command_of(alloc, words)? else {
        return Answer::of(alloc, 2, b"fault,words\n");
    };
    match read_workload(alloc, source) {
        Ok(work) => carry_out(alloc, &job, &work),
        Err(ReadError::NoMemory) => Err(NoMemory),
        Err(ReadError::Fault(fault)) => Ok(Answer {
            status: 3,
            run: None,
            text: write_fault(alloc, fault)?,
        }),
        Err(ReadError::ReadFault) => Answer::of(alloc, 4, b"fault,read\n"),
    }
}

/// Writes the next piece of what is left of a text.
fn write_piece<K: Sink>(sink: &mut K, left: &[u8]) -> Put
    requires { 0 < length left.now }
    ensures took { WriteTook (K.taken sink.old) (K.taken sink.new) result left.now }
    ensures cause { WriteCause (K.faults sink.old) (K.faults sink.new) result }
{
    sink.write(&left[..left.len().min(PIECE)])
}

/// Writes a text, and says whether the sink took all of it.
fn write_all<K: Sink>(sink: &mut K, text: &[u8]) -> bool
    ensures whole { result ≡ true → Grew (K.taken sink.old) (K.taken sink.new) text.now }
    ensures kept { result ≡ true → K.faults sink.new ≡ K.faults sink.old }
    ensures failed { result ≡ false → Rose (K.faults sink.old) (K.faults sink.new) × ((at : ℕ) × (at < length text.now) × Grew (K.taken sink.old) (K.taken sink.new) (take at text.now)) }
{
    let mut at = 0;
    while at < text.len() {
        match write_piece(sink, &text[at..]) {
            Put::Took(count) => at += count,
            Put::Failed => return false,
        }
    }
    true
}

/// How a call ended.
#[derive(Debug, Drop)]
pub struct Ended {
    /// 0 for the answer that was asked for, 1 for out of memory, 2 for words that give no command, 3 for an input that
    /// is no workload file, 4 where the source failed, and 5 where the sink failed.
    pub status: u8,
    /// What was run: at status 0 of `replay`, and never else.
    pub run: Option<Ran>,
}

/// Writes the text of an answer, and ends with its status.
fn send<K: Sink>(sink: &mut K, answer: Answer) -> Ended
    ensures whole { result.status ≢ 5 → (result.status ≡ answer.status) × (result.run ≡ answer.run) × Grew (K.taken sink.old) (K.taken sink.new) answer.text }
    ensures kept { result.status ≢ 5 → K.faults sink.new ≡ K.faults sink.old }
    ensures failed { result.status ≡ 5 → (answer.status ≡ 5) ⊎ ((result.run ≡ None) × Rose (K.faults sink.old) (K.faults sink.new) × ((at : ℕ) × (at < length answer.text) × Grew (K.taken sink.old) (K.taken sink.new) (take at answer.text))) }
{
    if write_all(sink, answer.text.as_slice()) {
        Ended {
            status: answer.status,
            run: answer.run,
        }
    } else {
        Ended {
            status: 5,
            run: None,
        }
    }
}

/// Says that there was not enough memory.
fn send_no_memory<K: Sink>(sink: &mut K) -> Ended
    ensures run { result.run ≡ None }
    ensures whole { result.status ≢ 5 → (result.status ≡ 1) × Grew (K.taken sink.old) (K.taken sink.new) (codes "fault,memory\n") }
    ensures kept { result.status ≢ 5 → K.faults sink.new ≡ K.faults sink.old }
    ensures failed { result.status ≡ 5 → Rose (K.faults sink.old) (K.faults sink.new) × ((at : ℕ) × (at < length (codes "fault,memory\n")) × Grew (K.taken sink.old) (K.taken sink.new) (take at (codes "fault,memory\n"))) }
{
    let status = if write_all(sink, b"fault,memory\n") {
        1
    } else {
        5
    };
    Ended { status, run: None }
}

/// Runs the command that the words give, over the bytes of a source, and writes its answer to a sink in pieces of at
/// most 4,096 bytes: the whole text is in memory before its first byte is written. `words` are the arguments without
/// the program's name. The source has a workload file of at most 67,108,864 bytes. For `serial` the answer is the report
/// of its transactions, executed one at a time in file order; for `replay` that of the run that the words pick.
pub fn deneva<S: Source, K: Sink>(
    alloc: Global,
    words: &[String],
    source: &mut S,
    sink: &mut K,
) -> Ended
    // What each status says, and what was written.
    ensures known { result.status ≤ 5 }
    ensures report { result.status ≡ 0 → IsOver (S.left source.new) × (S.faults source.new ≡ S.faults source.old) × ((job : Command) × (work : Workload) × (text : List ℕ) × (command_of (map string_bytes words.now) ≡ Some job)
        × InputIs (S.left source.old) (Ok work) × IsValid work × Reports job work result.run text × Grew (K.taken sink.old) (K.taken sink.new) text) }
    ensures no_run { result.status ≢ 0 → result.run ≡ None }
    ensures memory { result.status ≡ 1 → Grew (K.taken sink.old) (K.taken sink.new) (codes "fault,memory\n") }
    ensures words { result.status ≡ 2 → (command_of (map string_bytes words.now) ≡ None)
        × Grew (K.taken sink.old) (K.taken sink.new) (codes "fault,words\n") }
    ensures input { result.status ≡ 3 → IsAsked (map string_bytes words.now)
        × ((f : InputFault) × InputIs (S.left source.old) (Err f) × IsReadUnless f (S.left source.new) × (S.faults source.new ≡ S.faults source.old) × Grew (K.taken sink.old) (K.taken sink.new) (fault_line f)) }
    ensures read { result.status ≡ 4 → IsAsked (map string_bytes words.now)
        × Rose (S.faults source.old) (S.faults source.new) × Grew (K.taken sink.old) (K.taken sink.new) (codes "fault,read\n") }
    ensures write { result.status ≡ 5 → Rose (K.faults sink.old) (K.faults sink.new)
        × ((status : ℕ) × (at : ℕ) × (run : Option Ran) × (text : List ℕ) × Answers (map string_bytes words.now) (S.left source.old) (S.left source.new) (S.faults source.old) (S.faults source.new) status run text
        × (at < length text) × Grew (K.taken sink.old) (K.taken sink.new) (take at text)) }
    ensures wrote { result.status ≢ 5 → K.faults sink.new ≡ K.faults sink.old }

    // A source whose count of faults stays gives no status 4, and a sink whose count stays no status 5.
    ensures sure_source { S.faults source.old < 2 ^ 64 - 1 → S.faults source.new ≡ S.faults source.old → result.status ≢ 4 }
    ensures sure_sink { K.faults sink.old < 2 ^ 64 - 1 → K.faults sink.new ≡ K.faults sink.old → result.status ≢ 5 }

    // When each comes, unless memory runs out.
    ensures refused { command_of (map string_bytes words.now) ≡ None → (result.status ≡ 2) ⊎ (result.status ≡ 1) ⊎ (result.status ≡ 5) }
    ensures unread { command_of (map string_bytes words.now) ≡ None → (S.left source.new ≡ S.left source.old) × (S.faults source.new ≡ S.faults source.old) }
    ensures faulty { IsAsked (map string_bytes words.now)
        → (f : InputFault) → FaultIs (S.left source.old) f
        → (result.status ≡ 3) ⊎ (result.status ≡ 1) ⊎ (result.status ≡ 4) ⊎ (result.status ≡ 5) }
    ensures complete { IsAsked (map string_bytes words.now) → (work : Workload) → WorkIs (S.left source.old) work
        → (Rose (S.faults source.old) (S.faults source.new) → ⊥) → (Rose (K.faults sink.old) (K.faults sink.new) → ⊥)
        → (result.status ≡ 0) ⊎ (result.status ≡ 1) }
{
    match answer_of(alloc, words, source) {
        Ok(answer) => send(sink, answer),
        Err(_) => send_no_memory(sink),
    }
}
