//! Worlds: the nodes of a run with its history and what is in flight.
ghost use Rattle.std.specs.Prelude.{◌≡◌, ◌<◌, ℕ, List, [], Some, slice_get, IfSome, IfNone, length, reverse, true, IfOk, OnOk, OnErr};
ghost use Rattle.deneva_base.specs.Partitions.{partition_of};
ghost use Rattle.deneva_base.specs.Rising.{keys_rise};
ghost use Rattle.deneva_base.specs.Rows.{row_of};
ghost use Rattle.deneva_base.specs.declared.keys.Key.{Key};
ghost use Rattle.txn_program.specs.Valid.{IsValid};
ghost use Rattle.server_core.specs.Configs.{IsConfig};
ghost use Rattle.server_core.specs.NodeRows.{rows_of_node};
ghost use Rattle.server_core.specs.Picks.{begun, deliver, deliveries, most_entries, picked, position};
ghost use Rattle.server_core.specs.Runs.{heard};
ghost use Rattle.server_core.specs.Says.{IsQuiet, IsRun, says};
ghost use Rattle.server_core.specs.declared.messages.Mail.{Mail};
ghost use Rattle.world.specs.Matches.{Gives, IsFirst};
ghost use Rattle.world.specs.Worlds.{HasNodes, IsRunning, seen};

use crate::finishing::{gather, in_key_order};
use crate::flight::Flight;
use crate::opening::first_flight;
use crate::picker::Picker;
use crate::settling::settle;
use deneva_base::{Config, Items, NoMemory, RowList};
use server_core::{Entry, History, Mail, Outbox, Schedule, Server};
use std::alloc::Global;
use std::marker::Model;
use txn_program::Workload;

/// What came of a run.
#[derive(Debug, Drop)]
pub struct Finished {
    pub history: History,
    /// The rows of all nodes, in key order.
    pub rows: RowList,
}

/// The nodes of a run that was stopped, in the order of their parts, and its history.
#[derive(Drop)]
pub struct Stopped<S> {
    pub nodes: Items<S>,
    pub history: History,
}

/// The nodes of a run, its history, and what is in flight after it.
#[derive(Drop)]
pub struct World<'w, S: Server<'w>> {
    alloc: Global,
    config: Config,
    work: &'w Workload,
    nodes: Vec<S>,
    history: Vec<Entry>,
    flight: Flight<Mail>,
    /// A mail that found no room in the flight: it is the next one there.
    held: Option<Mail>,
    said: Outbox,
}

impl<'w, S: Server<'w>> Model for World<'w, S> {
    ghost use Rattle.world.specs.Worlds.{Seen, IsRunning, HasNodes, seen, in_line};

    ghost Value = { Seen };

    ghost view = { λ w. seen w.config w.work.now w.history.items (in_line w.flight w.held w.said.mails) };

    ghost invariant = { λ w. IsRunning S.protocol (seen w.config w.work.now w.history.items (in_line w.flight w.held w.said.mails)) × HasNodes S.role S.stands w.nodes.items (seen w.config w.work.now w.history.items (in_line w.flight w.held w.said.mails)) };
}

/// Nodes that have handled nothing, one for each part.
fn fresh_nodes<'w, S: Server<'w>>(
    alloc: Global,
    config: Config,
    work: &'w Workload,
) -> Result<Vec<S>, NoMemory>
    requires config { IsConfig config }
    requires valid { IsValid work.now }
    requires protocol { config.protocol ≡ S.protocol }
    ensures { IfOk result (λ nodes. HasNodes S.role S.stands nodes.items (record { config = config; work = work.now; progress = begun config work.now })) }
{
    let mut nodes = Vec::with_capacity(alloc, usize::from(config.parts))?;
    for part in 0..config.parts {
        nodes.push(S::begin(alloc, config, part, work)?)?;
    }
    Ok(nodes)
}

impl<'w, S: Server<'w>> World<'w, S> {
    /// Nodes that have handled nothing, and the first mails in flight.
    pub fn begin(
        alloc: Global,
        config: Config,
        work: &'w Workload,
    ) -> Result<World<'w, S>, NoMemory>
        requires config { IsConfig config }
        requires valid { IsValid work.now }
        requires protocol { config.protocol ≡ S.protocol }
        ensures config { IfOk result (λ w. w.config ≡ config) }
        ensures work { IfOk result (λ w. w.work ≡ work.now) }
        ensures progress { IfOk result (λ w. w.progress ≡ begun config work.now) }
    {
        let flight = first_flight(alloc, config, work)?;
        let nodes = fresh_nodes(alloc, config, work)?;
        Ok(World {
            alloc,
            config,
            work,
            nodes,
            history: Vec::new(alloc),
            flight,
            held: None,
            said: Outbox::new(alloc),
        })
    }

    /// How many mails are in flight.
    pub fn in_flight(&self) -> usize
        ensures count { result ≡ length self.now.progress.flight }
        ensures run { IsRunning S.protocol self.now }
    {
        let held = if self.held.is_some() { 1 } else { 0 };
        self.flight.len() + held + self.said.len()
    }

    /// The entries so far, in the order of their places.
    pub fn history(&self) -> &[Entry]
        ensures entries { result.now ≡ reverse self.now.progress.entries }
        ensures run { IsRun self.now.config self.now.work self.now.progress.entries self.now.progress.flight }
    {
        &self.history
    }

    /// Delivers the mail at position `k` of those in flight, in the order in which they were said.
    pub fn deliver(&mut self, k: usize) -> Result<(), NoMemory>
        requires { k < length self.old.progress.flight }
        ensures config { self.new.config ≡ self.old.config }
        ensures work { self.new.work ≡ self.old.work }
        ensures ok { OnOk result (self.new.progress ≡ deliver (says self.old.config self.old.work) k self.old.progress) }
        ensures err { OnErr result (self.new.progress ≡ self.old.progress) }
    {
        settle(&mut self.flight, &mut self.held, &mut self.said)?;
        self.history.try_reserve(1)?;
        let mail = self.flight.get(k);
        let node = &mut self.nodes[usize::from(mail.to)];
        node.handle(mail.from, &mail.msg, &mut self.said)?;
        let mail = self.flight.take(k);
        let place = self.history.len() as u64;
        drop(
            self.history.push(Entry {
                place,
                from: mail.from,
                node: mail.to,
                msg: mail.msg,
            }),
        );
        Ok(())
    }

    /// Delivers the mail that the schedule picks, until nothing is in flight. Where there is no memory, the deliveries so
    /// far stand.
    pub fn run(&mut self, schedule: &Schedule) -> Result<(), NoMemory>
        ensures config { self.new.config ≡ self.old.config }
        ensures work { self.new.work ≡ self.old.work }
        ensures ok { OnOk result (self.new.progress ≡ deliveries (says self.old.config self.old.work) (position schedule.now) 0 (most_entries self.old.config self.old.work) self.old.progress) }
        ensures quiet { OnOk result (self.new.progress.flight ≡ []) }
        ensures err { OnErr result ((n : ℕ) × (self.new.progress ≡ deliveries (says self.old.config self.old.work) (position schedule.now) 0 n self.old.progress)) }
    {
        let mut picker = Picker::new(schedule);
        loop {
            let count = self.in_flight();
            if count == 0 {
                return Ok(());
            }
            let k = picker.next(count);
            self.deliver(k)?;
        }
    }

    /// Its history, and the rows of its nodes.
    pub fn finish(self) -> Result<Finished, NoMemory>
        ensures history { IfOk result (λ f. f.history ≡ reverse self.entry.progress.entries) }
        ensures order { IfOk result (λ f. keys_rise f.rows ≡ true) }
        ensures rows { IfOk result (λ f. (key : Key) → row_of f.rows key ≡ rows_of_node self.entry.config self.entry.work (partition_of key self.entry.config.parts) (heard (partition_of key self.entry.config.parts) self.entry.progress.entries) key) }
        ensures run { IsRunning S.protocol self.entry }
        ensures quiet { self.entry.progress.flight ≡ [] → IsQuiet self.entry.config self.entry.work self.entry.progress.entries }
    {
        let rows = in_key_order(gather(self.alloc, &self.nodes)?)?;
        Ok(Finished {
            history: History::of(self.history),
            rows,
        })
    }

    /// Its nodes and its history, from which it can be resumed. What is in flight is dropped: the history tells it.
    pub fn stop(self) -> Stopped<S>
        ensures history { result.history ≡ reverse self.entry.progress.entries }
        ensures nodes { HasNodes S.role S.stands result.nodes (seen self.entry.config self.entry.work result.history []) }
        ensures run { IsRunning S.protocol self.entry }
    {
        Stopped {
            nodes: Items::of(self.nodes),
            history: History::of(self.history),
        }
    }

    /// Nodes as they stand after a history that is a run of theirs. What is in flight after it is found by delivering its
    /// mails to other nodes, from the start.
    pub fn resume(
        alloc: Global,
        config: Config,
        work: &'w Workload,
        nodes: Items<S>,
        history: History,
    ) -> Result<World<'w, S>, NoMemory>
        requires config { IsConfig config }
        requires valid { IsValid work.now }
        requires protocol { config.protocol ≡ S.protocol }
        requires run { (flight : List Mail) × IsRun config work.now (reverse history) flight }
        requires nodes { HasNodes S.role S.stands nodes (seen config work.now history []) }
        ensures config { IfOk result (λ w. w.config ≡ config) }
        ensures work { IfOk result (λ w. w.work ≡ work.now) }
        ensures entries { IfOk result (λ w. w.progress.entries ≡ reverse history) }
    {
        let mut world: World<'w, S> = World::begin(alloc, config, work)?;
        world.replay(history.as_slice())?;
        world.nodes = nodes.into_vec();
        Ok(world)
    }

    /// Delivers the mails of a history, from the start.
    fn replay(&mut self, history: &[Entry]) -> Result<(), NoMemory>
        requires start { self.old.progress.entries ≡ [] }
        requires run { (flight : List Mail) × IsRun self.old.config self.old.work (reverse history.now) flight }
        ensures config { self.new.config ≡ self.old.config }
        ensures work { self.new.work ≡ self.old.work }
        ensures entries { OnOk result (self.new.progress.entries ≡ reverse history.now) }
    {
        for entry in history {
            match self.find(entry)? {
                Some(k) => self.deliver(k)?,
                None => unreachable!(),
            }
        }
        Ok(())
    }

    /// The position of the first mail in flight that gives this entry.
    fn find(&mut self, entry: &Entry) -> Result<Option<usize>, NoMemory>
        ensures same { self.new ≡ self.old }
        ensures run { IsRunning S.protocol self.old }
        ensures some { IfOk result (λ found. IfSome found (λ k. IsFirst self.old.progress.flight entry.now k)) }
        ensures none { IfOk result (λ found. IfNone found ((k : ℕ) (m : Mail) → slice_get self.old.progress.flight k ≡ Some m → Gives m entry.now → ⊥)) }
    {
        settle(&mut self.flight, &mut self.held, &mut self.said)?;
        Ok(self.flight.position(entry))
    }
}

/// The run that a schedule picks, from the start until nothing is in flight.
pub fn run_all<'w, S: Server<'w>>(
    alloc: Global,
    config: Config,
    work: &'w Workload,
    schedule: &Schedule,
) -> Result<World<'w, S>, NoMemory>
    requires config { IsConfig config }
    requires valid { IsValid work.now }
    requires protocol { config.protocol ≡ S.protocol }
    ensures config { IfOk result (λ w. w.config ≡ config) }
    ensures work { IfOk result (λ w. w.work ≡ work.now) }
    ensures entries { IfOk result (λ w. w.progress.entries ≡ picked config work.now schedule.now) }
    ensures quiet { IfOk result (λ w. w.progress.flight ≡ []) }
{
    let mut world: World<'w, S> = World::begin(alloc, config, work)?;
    world.run(schedule)?;
    Ok(world)
}
