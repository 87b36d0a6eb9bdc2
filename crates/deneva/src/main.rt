//! The program `deneva`: its words are its arguments, its input is standard input, and its answer goes to standard output.
#![tactic(auto)]

ghost use Rattle.std.specs.Prelude.{◌≤◌};

use deneva_base::NoMemory;
use deneva_io::{ReadSource, WriteSink};
use deneva_top::deneva;
use std::io::ErrorKind;
use std::process::ExitCode;
use std::{env, mem};

/// The statuses of a call that found no memory: its line was written, or it was not.
const NO_MEMORY: u8 = 1;

const SINK_FAULT: u8 = 5;

/// The arguments behind the program's name. Arguments that are no UTF-8 text give no words, and so no command.
fn words_of(rt: &HostRuntime) -> Result<Vec<String>, NoMemory> {
    match env::args(rt) {
        Ok(args) => {
            let words = args.skip(1).collect(rt.alloc())?;
            Ok(words)
        }
        Err(error) if error.kind() == ErrorKind::InvalidData => Ok(Vec::new(rt.alloc())),
        Err(_) => Err(NoMemory),
    }
}

/// The status of the call, 0 to 5.
fn run(rt: &HostRuntime) -> u8
    ensures { result ≤ 5 }
{
    let Ok(words) = words_of(rt) else {
        return match rt.print("fault,memory\n") {
            Ok(()) => NO_MEMORY,
            Err(_) => SINK_FAULT,
        };
    };
    let mut source = ReadSource::new(rt.stdin());
    let mut sink = WriteSink::new(rt.stdout());
    let ended = deneva(rt.alloc(), &words, &mut source, &mut sink);
    let status = ended.status;
    // The process ends: to give back a large run piece by piece would take longer than to leave it to the system.
    mem::forget(ended);
    status
}

fn main(rt: HostRuntime) -> ExitCode {
    ExitCode::from(run(&rt))
}
