ghost use Rattle.frame_edit.specs.declared.limits.TheConstants.{FRAME_MAX};
ghost use Rattle.std.specs.Prelude.{◌≡◌, ◌+◌, ◌≤◌, ◌<◌, length, IfOk, OnOk, OnErr, []};
ghost use Rattle.std.specs.Option.{ForSome};
ghost use Rattle.std.specs.Result.{is_err};
ghost use Rattle.frame_edit.specs.Tags.{ether_type_of, pushed, popped, modified};
ghost use Rattle.frame_edit.specs.EditedFrame.{loaded_frame, with_bytes, lacks_room};

use crate::Meta;
use crate::limits::FRAME_MAX;
use crate::tag::{self, ADDRESSES, HEADER, TAG};
use std::alloc::Global;
use std::marker::Model;
use tc_base::NoMemory;

/// The most bytes by which a frame may grow past its loaded length, and so the head room.
const GROWTH: usize = 64;

/// A push found no room: the frame would be longer than 262,144 bytes, or than it was loaded with
/// and 64 bytes more.
#[derive(Clone, Copy, Debug, PartialEq, Eq)]
pub struct NoRoom;

/// One frame that is edited in place.
///
/// In a clause it is a record: `bytes`, `loaded` (the length of the bytes that were loaded last) and
/// `meta`.
// The bytes lie from `start` to `end`. Only `start` moves, and a load puts it behind the head room: so
// the loaded length is what `end` is past the head room, and the frame has grown by 64 bytes at 0.
#[derive(Drop)]
pub struct Frame {
    buffer: Vec<u8>,
    start: usize,
    end: usize,
    meta: Meta,
}

impl Model for Frame {
    ghost use Rattle.std.specs.Prelude.{◌-◌, slice_range};
    ghost use Rattle.frame_edit.specs.EditedFrame.{EditedFrame, IsPlaced};

    ghost Value = { EditedFrame };

    ghost view = { λ f. record {
      bytes = slice_range f.buffer.items f.start f.end;
      loaded = f.end - 64;
      meta = f.meta;
    } };

    ghost invariant = { λ f. IsPlaced f.buffer.items f.start f.end };
}

impl Frame {
    /// An empty frame, with room for 262,144 bytes and the head room. No other call takes memory.
    pub fn with_room(alloc: Global) -> Result<Frame, NoMemory>
        ensures { IfOk result (λ frame. frame ≡ loaded_frame []) }
    {
        let buffer = vec![in alloc; 0u8; GROWTH + FRAME_MAX]?;
        Ok(Frame {
            buffer,
            start: GROWTH,
            end: GROWTH,
            meta: Meta::default(),
        })
    }

    /// A copy of these bytes in place of the frame, with no metadata set.
    pub fn load(&mut self, bytes: &[u8])
        requires { length bytes.now ≤ FRAME_MAX }
        ensures { self.new ≡ loaded_frame bytes.now }
    {
        self.start = GROWTH;
        self.end = GROWTH + bytes.len();
        self.meta = Meta::default();
        self.buffer[self.start..self.end].copy_from_slice(bytes);
    }

    /// The bytes of the frame as it is now.
    #[inline]
    pub fn bytes(&self) -> &[u8]
        ensures bytes { result.now ≡ self.now.bytes }
        ensures within { length result.now ≤ FRAME_MAX }
        ensures growth { length result.now ≤ self.now.loaded + 64 }
    {
        &self.buffer[self.start..self.end]
    }

    /// The metadata.
    #[inline]
    pub fn meta(&self) -> Meta
        ensures { result ≡ self.now.meta }
    {
        self.meta
    }

    /// Sets the metadata. The bytes stay as they are.
    #[inline]
    pub fn set_meta(&mut self, meta: Meta)
        ensures { self.new ≡ record self.old { meta = meta } }
    {
        self.meta = meta;
    }

    /// The EtherType behind the two addresses, which is the TPID where the frame is tagged, or 0 below
    /// 14 bytes.
    #[inline]
    pub fn ether_type(&self) -> u16
        ensures { result ≡ ether_type_of self.now.bytes }
    {
        let frame = self.bytes();
        if frame.len() < HEADER {
            0
        } else {
            tag::u16_at(frame, ADDRESSES)
        }
    }

    /// Puts a tag behind the two addresses. A frame below 14 bytes stays as it is, with no error.
    pub fn push(&mut self, tpid: u16, tci: u16) -> Result<(), NoRoom>
        ensures no_room { is_err result ≡ lacks_room self.old }
        ensures ok { OnOk result (self.new ≡ with_bytes self.old (pushed self.old.bytes tpid tci)) }
        ensures err { OnErr result (self.new ≡ self.old) }
    {
        let length = self.end - self.start;
        if length < HEADER {
            return Ok(());
        }
        if self.start < TAG || length + TAG > FRAME_MAX {
            return Err(NoRoom);
        }
        self.start -= TAG;
        tag::insert_tag(&mut self.buffer[self.start..self.end], tpid, tci);
        Ok(())
    }

    /// Removes the outermost tag. A frame that has none stays as it is.
    pub fn pop(&mut self)
        ensures { self.new ≡ with_bytes self.old (popped self.old.bytes) }
    {
        let frame = &mut self.buffer[self.start..self.end];
        if tag::has_tag(frame) {
            tag::remove_tag(frame);
            self.start += TAG;
        }
    }

    /// Writes the TPID of the outermost tag, its id and, where one is given, its priority. A frame that
    /// has no tag stays as it is.
    pub fn modify(&mut self, id: u16, priority: Option<u8>, tpid: u16)
        requires id { id < 4096 }
        requires priority { ForSome priority (λ p. p < 8) }
        ensures { self.new ≡ with_bytes self.old (modified self.old.bytes id priority tpid) }
    {
        tag::modify_tag(&mut self.buffer[self.start..self.end], id, priority, tpid);
    }
}
