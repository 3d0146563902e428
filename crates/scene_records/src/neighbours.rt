// The neighbours' lines, as point and direction, with their numbers.
ghost use Rattle.std.specs.Prelude.{◌≡◌, ◌*◌, ◌≤◌, length};
ghost use Rattle.scene_records.specs.Steps.{read_of, told};
ghost use Rattle.scene_records.specs.Parts.{neighbour};
ghost use Rattle.scene_records.specs.Versions.{line_number, numbered_line, numbered_lines, rows, stored_rows};

use crate::steps::{self, Rule};
use crate::{Read, Version};
use admission::Refusal;
use lines::Line;

// A line's point and direction, then the direction's band.
#[tactic(auto, using(crate::proofs::Chains::chain), unfolding(crate::specs::Parts::neighbour))]
fn line_at(bytes: &[u8], at: usize) -> Read<Line>
    ensures { read_of result ≡ neighbour bytes.now at }
{
    let (point, at) = steps::vector_at(bytes, at, Rule::Within(Line::REACH))?;
    let (direction, at) = steps::vector_at(bytes, at, Rule::Finite)?;
    let squared = direction.length_squared();
    let in_band = admission::is_inside(Line::BAND_LOW, Line::BAND_HIGH, squared);
    Refusal::OutOfBand.unless(in_band)?;
    Ok((Line::new(point, direction), at))
}

// A neighbour's number, which is 0 under version 1.
#[tactic(auto, using(crate::proofs::Chains::chain), unfolding(crate::specs::Versions::line_number))]
fn line_number_at(bytes: &[u8], at: usize, version: Version) -> Read<u32>
    ensures { read_of result ≡ line_number version bytes.now at }
{
    match version {
        Version::One => Ok((0, at)),
        Version::Two => steps::word_at(bytes, at),
    }
}

// Stores as many lines as `count`, and their numbers.
pub(crate) fn store_lines(
    bytes: &[u8],
    at: usize,
    version: Version,
    count: usize,
    lines: &mut [f32],
    numbers: &mut [u32],
) -> Result<usize, Refusal>
    requires { (4 * count ≤ length lines.old) × (count ≤ length numbers.old) }
    ensures { told result (rows lines.new numbers.new)
        ≡ stored_rows (rows lines.old numbers.old) 0 (numbered_lines version bytes.now count at) }
{
    let mut next = at;
    for i in 0..count {
        let (number, behind) = line_number_at(bytes, next, version)?;
        let (line, behind) = line_at(bytes, behind)?;
        lines::put_line(lines, i, line);
        numbers[i] = number;
        next = behind;
    }
    Ok(next)
}
