//! Room for two answers that are compared.

use act_kinds::{Control, Params};
use std::alloc::Global;
use tc_base::NoMemory;
use visit_room::{HeadRoom, Hit};

/// Room for an answer that is held, and for the tables or the actions of another one.
#[derive(Drop)]
pub(crate) struct AnswerRooms {
    pub(crate) heads: HeadRoom,
    pub(crate) other_heads: HeadRoom,
    pub(crate) is_hit: bool,
    pub(crate) hit: Hit,
    pub(crate) other_hit: Hit,
    pub(crate) params: Params,
}

impl AnswerRooms {
    /// Takes the room.
    pub(crate) fn with_room(alloc: Global) -> Result<AnswerRooms, NoMemory> {
        Ok(AnswerRooms {
            heads: HeadRoom::with_room(alloc)?,
            other_heads: HeadRoom::with_room(alloc)?,
            is_hit: false,
            hit: Hit::new(),
            other_hit: Hit::new(),
            params: Params::Gact(Control::Accept),
        })
    }
}
