//! The words that a call is given.
ghost use Rattle.std.specs.Prelude.{◌≡◌, map, string_bytes, option_and_then, IfOk};
ghost use Rattle.server_core.specs.declared.schedules.Schedule.TheVariants.{Fifo};
ghost use Rattle.deneva_top.specs.Options.{options_of, read_or, value_at};
ghost use Rattle.deneva_top.specs.Words as spelled;

use crate::options::Options;
use crate::values::{count_of, schedule_of};
use deneva_base::{Config, NoMemory, Protocol};
use server_core::Schedule;
use std::alloc::Global;

/// What the words ask for.
#[derive(Debug, Drop, PartialEq, Eq)]
pub enum Command {
    /// Runs a workload's transactions one at a time in file order.
    Serial,
    /// Runs them under a protocol, and delivers by a schedule.
    Replay(Config, Schedule),
}

const PROTOCOL: &str = "--protocol";

const PARTITIONS: &str = "--partitions";

const ATTEMPTS: &str = "--attempts";

const LIMIT: &str = "--limit";

const ORDER: &str = "--order";

/// The options of `replay`.
const REPLAY_OPTIONS: [&str; 5] = [PROTOCOL, PARTITIONS, ATTEMPTS, LIMIT, ORDER];

/// The number of an option, which is at least 1, or its default.
fn count_or(options: &Options, name: &str, most: u8, default: u8) -> Option<u8>
    ensures { result ≡ read_or default (spelled.number 1 most) (value_at name.now options.now) }
{
    match options.value(name) {
        Some(word) => count_of(word, most),
        None => Some(default),
    }
}

fn config_of(options: &Options) -> Option<Config>
    ensures { result ≡ spelled.config_of options.now }
{
    let protocol = Protocol::of_word(options.value(PROTOCOL)?)?;
    let parts = count_or(options, PARTITIONS, 16, 1)?;
    let attempts = count_or(options, ATTEMPTS, 8, 8)?;
    let limit = count_or(options, LIMIT, 64, 16)?;
    Some(Config {
        protocol,
        parts,
        attempts,
        limit,
    })
}

/// The schedule that the options give, or the default.
fn order_of(alloc: Global, options: &Options) -> Result<Option<Schedule>, NoMemory>
    ensures { IfOk result (λ schedule. schedule ≡ read_or Fifo spelled.schedule_of (value_at ORDER.now options.now)) }
{
    match options.value(ORDER) {
        Some(word) => schedule_of(alloc, word),
        None => Ok(Some(Schedule::Fifo)),
    }
}

fn replay_of(alloc: Global, words: &[String]) -> Result<Option<Command>, NoMemory>
    ensures { IfOk result (λ c. c ≡ option_and_then spelled.replay_of (options_of spelled.replay_options (map string_bytes words.now))) }
{
    let Some(options) = Options::of(words, &REPLAY_OPTIONS) else {
        return Ok(None);
    };
    let Some(config) = config_of(&options) else {
        return Ok(None);
    };
    let schedule = order_of(alloc, &options)?;
    Ok(schedule.map(|schedule| Command::Replay(config, schedule)))
}

/// The command that the words give.
pub fn command_of(alloc: Global, words: &[String]) -> Result<Option<Command>, NoMemory>
    ensures { IfOk result (λ c. c ≡ spelled.command_of (map string_bytes words.now)) }
{
    let Some((word, options)) = words.split_first() else {
        return Ok(None);
    };
    match word.as_str() {
        "serial" => Ok(Options::of(options, &[]).map(|_| Command::Serial)),
        "replay" => replay_of(alloc, options),
        _ => Ok(None),
    }
}
