//! What a walk hands on from table to table.
ghost use Rattle.std.specs.Prelude.{◌≡◌};
ghost use Rattle.frame_edit.specs.Tags.{ether_type_of};

use act_kinds::{Control, Params, act};
use byteorder::{BigEndian, ByteOrder};
use flow_dissect::{dissect, put_key};
use flow_fields::Key;
use frame_edit::{Frame, Meta};
use std::alloc::Global;
use tc_base::NoMemory;
use walk_rules::VISITS_MAX;
use walk_steps::ExecutionRoom;

/// The frame as it is, how it is looked up, what ran on it, and the visits that are left.
#[derive(Drop)]
pub(crate) struct Course {
    // Its bytes count once it is edited, and its metadata always.
    pub(crate) frame: Frame,
    /// Whether an action came that changes bytes. Until then they are those that came.
    pub(crate) is_edited: bool,
    /// The fields of the bytes as they are.
    pub(crate) key: Key<14>,
    /// Their EtherType.
    pub(crate) ether: u16,
    pub(crate) executed: ExecutionRoom,
    pub(crate) left: usize,
}

impl Course {
    ghost use Rattle.std.specs.Prelude.{◌≡◌, ◌<◌, ◌≤◌, ◌+◌, ◌-◌, [], true, false, length, IfOk};
    ghost use Rattle.frame_edit.specs.declared.limits.TheConstants.{FRAME_MAX};
    ghost use Rattle.frame_edit.specs.Metadata.{no_meta};
    ghost use Rattle.act_kinds.specs.Acts.{FitsFrames, acted_on, control_given};
    ghost use Rattle.walk_rules.specs.declared.limits.TheConstants.{VISITS_MAX};
    ghost use Rattle.walk_rules.specs.Plain.{carried_on};
    ghost use Rattle.plain_walk.specs.Courses.{begun, bytes_from, frame_from, carried_from, IsCourse};

    /// Room for a frame and for what a walk executes.
    pub(crate) fn with_room(alloc: Global) -> Result<Course, NoMemory>
        ensures edited { IfOk result (λ course. course.is_edited ≡ false) }
        ensures meta { IfOk result (λ course. course.frame.meta ≡ no_meta) }
        ensures executed { IfOk result (λ course. course.executed ≡ []) }
    {
        Ok(Course {
            frame: Frame::with_room(alloc)?,
            is_edited: false,
            key: Key::new(),
            ether: 0,
            executed: ExecutionRoom::with_room(alloc)?,
            left: 0,
        })
    }

    /// Begins with these bytes, of which nothing is copied. The first visit is taken: it is that of the
    /// hook's tables.
    pub(crate) fn begin(&mut self, came: &[u8])
        requires { length came.now ≤ FRAME_MAX }
        ensures carried { carried_from came.now self.new ≡ begun came.now }
        ensures course { IsCourse came.now self.new }
        ensures left { self.new.left ≡ VISITS_MAX - 1 }
    {
        self.frame.set_meta(Meta::default());
        self.is_edited = false;
        put_key(&mut self.key, came);
        self.ether = ether_type(came);
        self.executed.clear();
        self.left = VISITS_MAX - 1;
    }

    /// Runs an action on the frame, and records that. It takes one visit.
    pub(crate) fn execute(&mut self, came: &[u8], serial: u32, params: &Params) -> Control
        requires fits { FitsFrames params.now }
        requires course { IsCourse came.now self.old }
        requires some { 0 < self.old.left }
        ensures control { result ≡ control_given params.now (frame_from came.now self.old) }
        ensures ran { carried_from came.now self.new
            ≡ carried_on (carried_from came.now self.old) serial params.now }
        ensures course { IsCourse came.now self.new }
        ensures left { self.new.left + 1 ≡ self.old.left }
    {
        let length = self.byte_count(came);
        self.left -= 1;
        self.executed.push(serial, length as u32);
        match params {
            Params::Vlan(..) => self.edit(came, params),
            _ => act(params, &mut self.frame),
        }
    }

    // The bytes of the frame as it is.
    fn byte_count(&self, came: &[u8]) -> usize
        requires { length came.now ≤ FRAME_MAX }
        ensures count { result ≡ length (bytes_from came.now self.now) }
        ensures short { result ≤ FRAME_MAX }
    {
        if self.is_edited {
            self.frame.bytes().len()
        } else {
            came.len()
        }
    }

    // Runs an action that may change the bytes.
    fn edit(&mut self, came: &[u8], params: &Params) -> Control
        requires fits { FitsFrames params.now }
        requires course { IsCourse came.now self.old }
        ensures control { result ≡ control_given params.now (frame_from came.now self.old) }
        ensures frame { frame_from came.now self.new ≡ acted_on params.now (frame_from came.now self.old) }
        ensures rest { (self.new.executed ≡ self.old.executed) × (self.new.left ≡ self.old.left) }
        ensures course { IsCourse came.now self.new }
    {
        self.copy(came);
        let control = act(params, &mut self.frame);
        self.key = dissect(&self.frame);
        self.ether = self.frame.ether_type();
        control
    }

    // Copies the bytes that came, unless they were copied before.
    fn copy(&mut self, came: &[u8])
        requires { IsCourse came.now self.old }
        ensures frame { self.new.frame ≡ frame_from came.now self.old }
        ensures edited { self.new.is_edited ≡ true }
        ensures rest { (self.new.executed ≡ self.old.executed) × (self.new.left ≡ self.old.left) }
    {
        if self.is_edited {
            return;
        }
        let meta = self.frame.meta();
        self.frame.load(came);
        self.frame.set_meta(meta);
        self.is_edited = true;
    }
}

// The EtherType behind the two addresses, or 0 below 14 bytes.
fn ether_type(bytes: &[u8]) -> u16
    ensures { result ≡ ether_type_of bytes.now }
{
    if bytes.len() < 14 {
        0
    } else {
        BigEndian::read_u16(&bytes[12..])
    }
}
