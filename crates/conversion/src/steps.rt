// One record of a stream moved.
ghost use Rattle.std.specs.Prelude.{◌≡◌, ◌-◌, ◌*◌, ◌≤◌, length};
ghost use Rattle.scene_writer.specs.Writing.{written_of};
ghost use Rattle.scene_moves.specs.Moves.{moved_into};
ghost use Rattle.conversion.specs.Streams.{other_of};
ghost use Rattle.conversion.specs.Steps.{stepped_of, step_over};

use crate::Place;
use admission::Refusal;
use records::Part;
use scene_records::Version;

// Moves the record at a place behind those that stand: the place behind it; or none, where no whole record is there. There
// are two bytes of room for each that is left.
pub(crate) fn step(
    input: &[u8],
    output: &mut [u8],
    at: Place,
    to: Version,
) -> Result<Option<Place>, Refusal>
    requires { (at.used ≤ length input.now) × (at.put ≤ length output.old)
        × (2 * (length input.now - at.used) ≤ length output.old - at.put) }
    ensures { stepped_of result output.new ≡ step_over to input.now output.old at }
{
    let Some(part) = records::next_part(&input[at.used..], 0) else {
        return Ok(None);
    };
    match part {
        Part::Skipped(_) => Ok(None),
        Part::Overlong(_) => Err(Refusal::TooMany),
        Part::Whole(count) => {
            let end = at.used + count;
            match move_record(&input[at.used..end], &mut output[at.put..], to) {
                Ok(length) => {
                    let next = at.place.wrapping_add(1);
                    Ok(Some(Place {
                        used: end,
                        put: at.put + length,
                        place: next,
                    }))
                }
                // kept: must-fail refused_record_skipped plants its mistake in this arm
                Err(refusal) => Err(refusal),
            }
        }
    }
}

// Moves one record to the version from the other one.
fn move_record(source: &[u8], buffer: &mut [u8], to: Version) -> Result<usize, Refusal>
    ensures { written_of result buffer.new ≡ moved_into (other_of to) to source.now buffer.old }
{
    match to {
        Version::One => scene_moves::to_version_1(source, buffer),
        Version::Two => scene_moves::to_version_2(source, buffer),
    }
}
