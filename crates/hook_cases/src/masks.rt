//! The room of a writer of masks, where memory is enough.
use crate::readers::SHAPE;
use crate::same::same;
use mask_writer::MaskWriter;
use tc_base::NoMemory;

#[test]
fn there_is_room_for_all_masks(rt: HostRuntime) -> Result<(), NoMemory> {
    let made = MaskWriter::with_room(rt.alloc(), SHAPE)?;
    let left = (made.left_blocks().len(), made.left_rows().len());
    same(&rt, left, (0, 0));
    Ok(())
}
