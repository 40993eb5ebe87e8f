//! What a run is asked to do: operations of clients, asks of the manager, and turns.
ghost use Rattle.std.specs.Prelude.{◌≡◌, [], ◌∷◌, ◌++◌, OnOk, OnErr};

use std::alloc::{AllocError, Global};
use std::marker::Model;
use units::{DiskNo, VolNo};

/// What a client asks for. A write names the volume, the sector and eight bytes as one number, the first byte the
/// highest; the sector written is these bytes 64 times over. A read names the volume and the sector. `Whole` waits
/// until the volume has all its members again, or until nothing can bring one back.
#[derive(Clone, Copy, Debug, PartialEq, Eq)]
pub enum OpKind {
    Write(VolNo, u64, u64),
    Read(VolNo, u64),
    Whole(VolNo),
}

/// One operation of a client. Its number is its place in the script, from 0.
#[derive(Clone, Copy, Debug, PartialEq, Eq)]
pub struct Op {
    pub client: u8,
    pub kind: OpKind,
}

/// An update that an operator asks for: to make a disk a spare, to rename a volume, to remove a failed disk's record.
#[derive(Clone, Copy, Debug, PartialEq, Eq)]
pub enum Ask {
    Add(u8),
    Rename(u8, [u8; 16]),
    Remove(u8),
}

/// Who takes a turn, or what befalls the run in it.
#[derive(Clone, Copy, Debug, PartialEq, Eq)]
pub enum Turn {
    Monitor,
    Manager,
    Sync(VolNo),
    Client(u8),
    Quiet(VolNo),
    Fail(DiskNo),
    Kill,
    Takeover,
}

/// What a run is asked to do: the clients' operations and the asks, each numbered from 0, and the turns in their order.
#[derive(Drop)]
pub struct Script {
    ops: Vec<Op>,
    asks: Vec<Ask>,
    turns: Vec<Turn>,
}

impl Model for Script {
    ghost use Rattle.array_model.specs.Kept.{ScriptState};

    ghost Value = { ScriptState };

    ghost view = { λ s. record { ops = s.ops.items; asks = s.asks.items; turns = s.turns.items } };
}

impl Script {
    /// A script that asks for nothing. It takes no memory.
    pub fn new(alloc: Global) -> Script
        ensures { result ≡ record { ops = []; asks = []; turns = [] } }
    {
        Script {
            ops: Vec::new(alloc),
            asks: Vec::new(alloc),
            turns: Vec::new(alloc),
        }
    }

    /// The operations, in the order of their numbers.
    pub fn ops(&self) -> &[Op]
        ensures { result.now ≡ self.now.ops }
    {
        &self.ops
    }

    /// The asks, in the order of their numbers.
    pub fn asks(&self) -> &[Ask]
        ensures { result.now ≡ self.now.asks }
    {
        &self.asks
    }

    /// The turns, the first one first.
    pub fn turns(&self) -> &[Turn]
        ensures { result.now ≡ self.now.turns }
    {
        &self.turns
    }

    /// One more operation. Where memory ends nothing changes.
    pub fn push_op(&mut self, op: Op) -> Result<(), AllocError>
        ensures ok { OnOk result (self.new ≡ record self.old { ops = self.old.ops ++ op ∷ [] }) }
        ensures err { OnErr result (self.new ≡ self.old) }
    {
        self.ops.push(op)?;
        Ok(())
    }

    /// One more ask. Where memory ends nothing changes.
    pub fn push_ask(&mut self, ask: Ask) -> Result<(), AllocError>
        ensures ok { OnOk result (self.new ≡ record self.old { asks = self.old.asks ++ ask ∷ [] }) }
        ensures err { OnErr result (self.new ≡ self.old) }
    {
        self.asks.push(ask)?;
        Ok(())
    }

    /// One more turn. Where memory ends nothing changes.
    pub fn push_turn(&mut self, turn: Turn) -> Result<(), AllocError>
        ensures ok { OnOk result (self.new ≡ record self.old { turns = self.old.turns ++ turn ∷ [] }) }
        ensures err { OnErr result (self.new ≡ self.old) }
    {
        self.turns.push(turn)?;
        Ok(())
    }
}
