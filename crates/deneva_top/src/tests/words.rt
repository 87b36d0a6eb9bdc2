//! Words, and the commands that they give.
use crate::words::{Command, command_of};
use deneva_base::{Config, CountList, NoMemory, Protocol};
use server_core::Schedule;
use std::alloc::Global;
use std::test::Fail;

/// The command of a line, whose words one space parts.
fn command(alloc: Global, line: &str) -> Result<Option<Command>, NoMemory> {
    let mut words = Vec::new(alloc);
    for word in line.split(' ') {
        words.push(String::from_str(alloc, word)?)?;
    }
    command_of(alloc, &words)
}

/// A run under NO_WAIT: its words, partitions, attempts and limit.
type Case<'t> = (&'t str, u8, u8, u8);

/// The first of the runs that has another configuration.
fn first_other_config(alloc: Global, cases: &[Case]) -> Result<Option<usize>, NoMemory> {
    for index in 0..cases.len() {
        let (line, parts, attempts, limit) = cases[index];
        let config = Config {
            protocol: Protocol::NoWait,
            parts,
            attempts,
            limit,
        };
        if command(alloc, line)? != Some(Command::Replay(config, Schedule::Fifo)) {
            return Ok(Some(index));
        }
    }
    Ok(None)
}

#[test]
fn the_options_are_in_any_order(rt: HostRuntime) -> Result<(), Fail> {
    let cases = [
        ("replay --protocol nowait", 1, 8, 16),
        ("replay --protocol nowait --partitions 1", 1, 8, 16),
        ("replay --partitions 16 --protocol nowait", 16, 8, 16),
        ("replay --protocol nowait --attempts 1", 1, 1, 16),
        ("replay --attempts 8 --protocol nowait", 1, 8, 16),
        ("replay --protocol nowait --limit 1", 1, 8, 1),
        ("replay --limit 64 --protocol nowait", 1, 8, 64),
        (
            "replay --limit 2 --attempts 3 --order fifo --partitions 10 --protocol nowait",
            10,
            3,
            2,
        ),
    ];
    assert_eq!(rt; first_other_config(rt.alloc(), &cases)?, None);
    Ok(())
}

/// A run with the defaults.
fn default_run(protocol: Protocol, schedule: Schedule) -> Option<Command> {
    let config = Config {
        protocol,
        parts: 1,
        attempts: 8,
        limit: 16,
    };
    Some(Command::Replay(config, schedule))
}

#[test]
fn each_protocol_has_its_word(rt: HostRuntime) -> Result<(), Fail> {
    let cases = [
        ("replay --protocol nowait", Protocol::NoWait),
        ("replay --protocol waitdie", Protocol::WaitDie),
        ("replay --protocol timestamp", Protocol::Timestamp),
        ("replay --protocol mvcc", Protocol::Mvcc),
        ("replay --protocol maat", Protocol::Maat),
        ("replay --protocol calvin", Protocol::Calvin),
    ];
    for (line, protocol) in &cases {
        assert_eq!(rt;
            command(rt.alloc(), line)?,
            default_run(*protocol, Schedule::Fifo)
        );
    }
    Ok(())
}

#[test]
fn an_order_is_a_schedule(rt: HostRuntime) -> Result<(), Fail> {
    let fifo = command(rt.alloc(), "replay --order fifo --protocol mvcc")?;
    assert_eq!(rt; fifo, default_run(Protocol::Mvcc, Schedule::Fifo));
    let lifo = command(rt.alloc(), "replay --order lifo --protocol mvcc")?;
    assert_eq!(rt; lifo, default_run(Protocol::Mvcc, Schedule::Lifo));
    let seeds = [
        ("replay --order seed:0 --protocol mvcc", 0),
        (
            "replay --order seed:4294967296 --protocol mvcc",
            4_294_967_296,
        ),
        (
            "replay --order seed:18446744073709551615 --protocol mvcc",
            u64::MAX,
        ),
    ];
    for (line, seed) in &seeds {
        assert_eq!(rt;
            command(rt.alloc(), line)?,
            default_run(Protocol::Mvcc, Schedule::Seed(*seed))
        );
    }
    Ok(())
}

fn listed_schedule(alloc: Global, numbers: &[u32]) -> Result<Schedule, NoMemory> {
    let mut list = CountList::new(alloc);
    for number in numbers {
        list.push(*number)?;
    }
    Ok(Schedule::Listed(list))
}

/// A line with an order of so many numbers 7.
fn sevens(alloc: Global, count: usize) -> Result<String, NoMemory> {
    let mut line = String::from_str(alloc, "replay --protocol maat --order list:7")?;
    for _ in 1..count {
        line.push_str(".7")?;
    }
    Ok(line)
}

#[test]
fn an_order_lists_numbers(rt: HostRuntime) -> Result<(), Fail> {
    let one = command(rt.alloc(), "replay --protocol maat --order list:0")?;
    assert_eq!(rt;
        one,
        default_run(Protocol::Maat, listed_schedule(rt.alloc(), &[0])?)
    );
    let three = command(
        rt.alloc(),
        "replay --protocol maat --order list:2.4294967295.1",
    )?;
    assert_eq!(rt;
        three,
        default_run(
            Protocol::Maat,
            listed_schedule(rt.alloc(), &[2, u32::MAX, 1])?
        )
    );
    let most = command(rt.alloc(), sevens(rt.alloc(), 1_000)?.as_str())?;
    assert_eq!(rt;
        most,
        default_run(Protocol::Maat, listed_schedule(rt.alloc(), &[7; 1_000])?)
    );
    let too_many = command(rt.alloc(), sevens(rt.alloc(), 1_001)?.as_str())?;
    assert_eq!(rt; too_many, None);
    Ok(())
}

#[test]
fn other_words_give_no_command(rt: HostRuntime) -> Result<(), Fail> {
    // The last two end with a word of no letter.
    let lines = [
        "",
        "serial serial",
        "replay",
        "replay --protocol nowait --partitions ",
        "replay --protocol ",
    ];
    for line in &lines {
        assert_eq!(rt; command(rt.alloc(), line)?, None);
    }
    assert_eq!(rt; command_of(rt.alloc(), &[])?, None);
    assert_eq!(rt; command(rt.alloc(), "serial")?, Some(Command::Serial));
    Ok(())
}
