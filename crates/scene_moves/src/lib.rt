// Moves of a scene record between its versions (02, T-07): from 1 to 2, and from 2 back to 1 where every number is 0.
#![tactic(auto)]

ghost use Rattle.std.specs.Prelude.{◌≡◌, ◌==◌, take};
ghost use Rattle.std.specs.List.{list_all};
ghost use Rattle.scene_records.specs.declared.Version.TheVariants.{One, Two};
ghost use Rattle.scene_writer.specs.Writing.{written_of};
ghost use Rattle.scene_moves.specs.Moves.{keeps_all, moved_into};

use admission::Refusal;
use scene_records::Version;

mod put;

// Moves a record of version 1 to version 2, every neighbour's number being 0: the new record stands at the buffer's
// start, and bytes behind it keep their contents. Refused, in this order, and then nothing is written: what
// `scene_records::read_scene_of_version` refuses, version 2 with 1; a buffer shorter than the new record (10).
pub fn to_version_2(source: &[u8], buffer: &mut [u8]) -> Result<usize, Refusal>
    ensures { written_of result buffer.new ≡ moved_into One Two source.now buffer.old }
{
    move_record(source, buffer, Version::One, Version::Two)
}

// Moves a record of version 2 back to version 1, where every neighbour's number is 0: the new record stands at the
// buffer's start, and bytes behind it keep their contents. Refused, in this order, and then nothing is written: what
// `scene_records::read_scene_of_version` refuses, version 1 with 1; a number that is not 0 (11); a buffer shorter than
// the new record (10).
pub fn to_version_1(source: &[u8], buffer: &mut [u8]) -> Result<usize, Refusal>
    ensures { written_of result buffer.new ≡ moved_into Two One source.now buffer.old }
{
    move_record(source, buffer, Version::Two, Version::One)
}

// Moves a record to the other version.
fn move_record(
    source: &[u8],
    buffer: &mut [u8],
    from: Version,
    to: Version,
) -> Result<usize, Refusal>
    ensures { written_of result buffer.new ≡ moved_into from to source.now buffer.old }
{
    // What was read is looked at where it stands: a `?` would copy its three kilobytes.
    let read = scene_records::read_scene_of_version(source, from);
    let read = match &read {
        Ok(read) => read,
        Err(refusal) => return Err(*refusal),
    };
    let count = read.scene.neighbours;
    let kept = keeps(to, &read.numbers, count);
    let old_line = put::line_size(from);
    let new_line = put::line_size(to);
    let start = source.len() - old_line * count;
    let length = start + new_line * count;
    let fits = length <= buffer.len();
    Refusal::LosesNumbers.unless(kept)?;
    Refusal::NoRoom.unless(fits)?;
    put::put_start(buffer, source, start, length, to);
    put::put_lines(buffer, source, start, count, from, to);
    Ok(length)
}

// Whether none of the first `count` numbers is lost on the way to the version.
fn keeps(to: Version, numbers: &[u32], count: usize) -> bool
    ensures { result ≡ keeps_all to (take count numbers.now) }
{
    match to {
        Version::One => is_zero(numbers, count),
        Version::Two => true,
    }
}

// Whether the first `count` numbers are all 0.
fn is_zero(numbers: &[u32], count: usize) -> bool
    ensures { result ≡ list_all (λ n. n == 0) (take count numbers.now) }
{
    numbers.iter().take(count).all(|number| *number == 0)
}
