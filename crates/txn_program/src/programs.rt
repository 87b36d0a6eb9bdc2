//! Workloads: what is loaded, and the transactions that run over it.
ghost use Rattle.std.specs.Prelude.{◌≡◌, IfOk};
ghost use Rattle.deneva_base.specs.Lists.{IsIn};
ghost use Rattle.txn_program.specs.Serial.{all_ids, program_of};

use crate::{ProgramList, StepList};
use deneva_base::{ByteList, Copied, NoMemory, Row, RowList, TxnId};
use std::alloc::Global;
use tpcc_rules::{ItemList, NewOrder, Payment};

/// A new text for one field of a row.
#[derive(Debug, Drop)]
pub struct YcsbPut {
    /// The field's place in the row, counted from 0.
    pub field: u8,
    pub text: ByteList,
}

impl Copied for YcsbPut {
    fn copied(&self, alloc: Global) -> Result<YcsbPut, NoMemory> {
        let text = self.text.copy(alloc)?;
        Ok(YcsbPut {
            field: self.field,
            text,
        })
    }
}

/// What a step does with its row.
#[derive(Debug, Drop)]
pub enum YcsbAct {
    Read,
    /// Replaces one field and keeps the others.
    Update(YcsbPut),
    /// Replaces the whole row, which is not read.
    Put(Row),
}

impl Copied for YcsbAct {
    fn copied(&self, alloc: Global) -> Result<YcsbAct, NoMemory> {
        match self {
            YcsbAct::Read => Ok(YcsbAct::Read),
            YcsbAct::Update(put) => {
                let put = put.copied(alloc)?;
                Ok(YcsbAct::Update(put))
            }
            YcsbAct::Put(row) => {
                let row = row.share()?;
                Ok(YcsbAct::Put(row))
            }
        }
    }
}

/// One step of a YCSB transaction.
#[derive(Debug, Drop)]
pub struct YcsbStep {
    pub key: u32,
    pub act: YcsbAct,
}

impl Copied for YcsbStep {
    fn copied(&self, alloc: Global) -> Result<YcsbStep, NoMemory> {
        let act = self.act.copied(alloc)?;
        Ok(YcsbStep { key: self.key, act })
    }
}

/// One transaction.
#[derive(Debug, Drop)]
pub enum Program {
    Ycsb(StepList),
    /// Payment of TPC-C (2.5).
    Payment(Payment),
    /// NewOrder of TPC-C (2.4).
    NewOrder(NewOrder),
}

impl Copied for Program {
    fn copied(&self, alloc: Global) -> Result<Program, NoMemory> {
        match self {
            Program::Ycsb(steps) => {
                let steps = steps.copy(alloc)?;
                Ok(Program::Ycsb(steps))
            }
            Program::Payment(payment) => Ok(Program::Payment(*payment)),
            Program::NewOrder(order) => {
                let order = order.copied(alloc)?;
                Ok(Program::NewOrder(order))
            }
        }
    }
}

/// The kind of a workload.
#[derive(Clone, Copy, Debug, PartialEq, Eq)]
pub enum WorkKind {
    Ycsb,
    Tpcc,
}

/// What stands in the store before the first transaction.
#[derive(Debug, Drop)]
pub struct Load {
    pub kind: WorkKind,
    /// The number of fields of each YCSB row, 1 to 10, and 0 in a load of TPC-C.
    pub fields: u8,
    pub rows: RowList,
    /// The items of TPC-C, which every partition knows; none in a load of YCSB.
    pub items: ItemList,
}

/// A load and the transactions that run over it: transaction 1 is the first of `programs`.
#[derive(Debug, Drop)]
pub struct Workload {
    pub load: Load,
    pub programs: ProgramList,
}

impl Workload {
    /// The transaction of an id.
    pub fn program(&self, id: TxnId) -> &Program
        requires { IsIn id (all_ids self.now) }
        ensures { result.now ≡ program_of self.now id }
    {
        self.programs.get(id.0 as usize - 1)
    }
}
