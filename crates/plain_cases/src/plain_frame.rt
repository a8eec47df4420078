//! A frame of a plain walk.
use act_kinds::{Control, Params, VlanOp};
use std::alloc::{AllocError, Global};

/// A frame and what it carries, written anew by each action that changes it.
#[derive(Drop)]
pub(crate) struct PlainFrame {
    pub(crate) bytes: Vec<u8>,
    pub(crate) priority: u32,
    pub(crate) mark: u32,
    pub(crate) queue: u16,
    // How long it may grow. The 262,144 bytes that no frame may pass are out of reach here.
    most: usize,
}

impl PlainFrame {
    /// A frame as it comes in.
    pub(crate) fn new(alloc: Global, bytes: &[u8]) -> Result<PlainFrame, AllocError> {
        Ok(PlainFrame {
            bytes: bytes.to_vec(alloc)?,
            priority: 0,
            mark: 0,
            queue: 0,
            most: bytes.len().saturating_add(64),
        })
    }

    /// The EtherType behind the addresses, or 0 below 14 bytes.
    pub(crate) fn ether_type(&self) -> u16 {
        match (self.bytes.get(12), self.bytes.get(13)) {
            (Some(high), Some(low)) => u16::from_be_bytes([*high, *low]),
            _ => 0,
        }
    }

    fn is_tagged(&self) -> bool {
        let ether = self.ether_type();
        self.bytes.len() >= 18 && (ether == 0x8100 || ether == 0x88a8)
    }

    /// Does what an action does, and gives its control.
    pub(crate) fn act(&mut self, params: Params) -> Result<Control, AllocError> {
        match params {
            Params::Gact(control) => Ok(control),
            Params::Vlan(op, control) => self.retag(op, control),
            Params::Skbedit {
                priority,
                mark,
                queue,
                control,
            } => {
                self.priority = priority.unwrap_or(self.priority);
                self.mark = mark.unwrap_or(self.mark);
                self.queue = queue.unwrap_or(self.queue);
                Ok(control)
            }
        }
    }

    fn retag(&mut self, op: VlanOp, control: Control) -> Result<Control, AllocError> {
        match op {
            VlanOp::Push { tpid, id, priority } => {
                return self.push(tag(tpid, priority, 0, id), control);
            }
            VlanOp::Pop => self.pop()?,
            VlanOp::Modify { tpid, id, priority } => self.modify(tpid, id, priority)?,
        }
        Ok(control)
    }

    // A push that finds no room drops.
    fn push(&mut self, tag: [u8; 4], control: Control) -> Result<Control, AllocError> {
        let length = self.bytes.len();
        if length < 14 {
            return Ok(control);
        }
        if length.saturating_add(4) > self.most {
            return Ok(Control::Shot);
        }
        self.replace(&tag, 12)?;
        Ok(control)
    }

    fn pop(&mut self) -> Result<(), AllocError> {
        if self.is_tagged() {
            self.replace(&[], 16)?;
        }
        Ok(())
    }

    // The tag keeps its drop eligible bit, and its priority where none is given.
    fn modify(&mut self, tpid: u16, id: u16, priority: Option<u8>) -> Result<(), AllocError> {
        if !self.is_tagged() {
            return Ok(());
        }
        let old = self.bytes.get(14).copied().unwrap_or(0);
        let priority = priority.unwrap_or(old >> 5);
        self.replace(&tag(tpid, priority, old & 0x10, id), 16)
    }

    // Other bytes in place of those from the addresses up to a place.
    fn replace(&mut self, tag: &[u8], rest: usize) -> Result<(), AllocError> {
        let mut bytes = Vec::new(*self.bytes.allocator());
        for (place, byte) in self.bytes.iter().enumerate() {
            if place == 12 {
                bytes.extend_from_slice(tag)?;
            }
            if place < 12 || place >= rest {
                bytes.push(*byte)?;
            }
        }
        self.bytes = bytes;
        Ok(())
    }
}

// A tag: its EtherType; three bits of priority, the drop eligible bit and the upper bits of its id; the other
// bits of the id.
fn tag(tpid: u16, priority: u8, eligible: u8, id: u16) -> [u8; 4] {
    let [high, low] = tpid.to_be_bytes();
    let [above, below] = id.to_be_bytes();
    [
        high,
        low,
        priority.wrapping_mul(32) | eligible | above,
        below,
    ]
}
