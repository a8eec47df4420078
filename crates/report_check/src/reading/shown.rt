//! Whether a line shows a packet, its worker and its points.
ghost use Rattle.std.specs.Prelude.{◌≡◌, ◌<◌, ◌^◌, ◌++◌, true, false, codes, Ok, OnOk};
ghost use Rattle.std.specs.List.{flat_map};
ghost use Rattle.filter_state.specs.Sound.{Each};
ghost use Rattle.walk_texts.specs.Texts.{counted};
ghost use Rattle.run_report.specs.PacketTexts.{packet_name, points_text};
ghost use Rattle.report_check.specs.OfReading.Packets.{ShowsPoints};

use std::alloc::AllocError;
use tc_base::{NoMemory, Point};
use walk_texts::{push_count, push_text};

// Puts `packet N worker W` and a blank in place of what is there.
#[tactic(auto, unfolding(run_report::specs::PacketTexts::packet_name))]
fn put_front(text: &mut Vec<u8>, number: u64, worker: u32) -> Result<(), AllocError>
    ensures { OnOk result (text.new.items ≡ packet_name number worker ++ codes " ") }
{
    text.clear();
    push_count(text, "packet ", number)?;
    push_count(text, " worker ", u64::from(worker))?;
    push_text(text, " ")
}

// Puts each point behind a blank.
fn push_points(text: &mut Vec<u8>, points: &[Point]) -> Result<(), AllocError>
    ensures { OnOk result (text.new.items
        ≡ text.old.items ++ flat_map (λ point. counted (codes " ") point) points.now) }
{
    for point in points {
        push_count(text, " ", u64::from(*point))?;
    }
    Ok(())
}

// Puts ` points`, the points and the end of the line in place of what is there.
#[tactic(auto, unfolding(run_report::specs::PacketTexts::points_text))]
fn put_back(text: &mut Vec<u8>, points: &[Point]) -> Result<(), AllocError>
    ensures { OnOk result (text.new.items ≡ points_text points.now ++ codes "\n") }
{
    text.clear();
    push_text(text, " points")?;
    push_points(text, points)?;
    push_text(text, "\n")
}

/// Whether a line shows this packet, worker and points. `NoMemory`: the text couldn't grow.
pub(crate) fn shows(
    line: &[u8],
    number: u64,
    worker: u32,
    points: &[Point],
    text: &mut Vec<u8>,
) -> Result<bool, NoMemory>
    requires { Each (λ point. point < 2 ^ 32) points.now }
    ensures yes { result ≡ Ok true → ShowsPoints line.now number worker points.now }
    ensures no { result ≡ Ok false → ShowsPoints line.now number worker points.now → ⊥ }
{
    put_front(text, number, worker)?;
    let Some(rest) = line.strip_prefix(text.as_slice()) else {
        return Ok(false);
    };
    put_back(text, points)?;
    Ok(rest.ends_with(text.as_slice()))
}
