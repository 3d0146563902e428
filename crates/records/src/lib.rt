// Records answered (01, "Records (ours)"): one scene record to its answer, and the program's work on a stream of records.
#![tactic(auto)]

ghost use Rattle.std.specs.Prelude.{◌≡◌};
ghost use Rattle.dodgy_2d.specs.Read.{outcome_of};
ghost use Rattle.answer_records.specs.Answers.{written_of};
ghost use Rattle.records.specs.Answered.{answer_to, solved, scene_answer_to, record_outcome};
ghost use Rattle.records.specs.Parts.{part_of, part_in};
ghost use Rattle.records.specs.Turns.{lent, turn_over};

use admission::{Judged, Refusal};
use answer_records::Answer;
use dodgy_2d::SceneAnswer;
use scene_records::NumberedScene;

mod flow;
mod outcome;
mod parts;
mod steps;

// Where a stream of records stands after a turn: how many bytes of answers are at the output's start, to be written;
// how many bytes wait at the input's start for the next read; how many bytes of an overlong record are still to be
// skipped; and whether there may be more to read.
#[derive(Clone, Copy, Debug, PartialEq, Eq)]
pub struct Stream {
    pub put: usize,
    pub kept: usize,
    pub skip: usize,
    pub more: bool,
}

impl Stream {
    // Before the first read.
    pub const START: Stream = Stream {
        put: 0,
        kept: 0,
        skip: 0,
        more: true,
    };

    // Nothing to write, and no more to read.
    pub const CLOSED: Stream = Stream {
        put: 0,
        kept: 0,
        skip: 0,
        more: false,
    };

    // A buffer for the input: each read may bring 64 KiB behind a record cut short.
    pub const INPUT: usize = 65536 + 1 + NumberedScene::LONGEST_REST;

    // A buffer for the answers: two bytes for each of the input and the longest answer are room enough.
    pub const OUTPUT: usize = 2 * Stream::INPUT + Answer::BYTES;
}

// How far the work on a stream got: the bytes of the input that are used, the bytes of answers that stand at the output's start,
// and how many bytes of an overlong record are still to be skipped.
#[derive(Clone, Copy)]
pub(crate) struct Place {
    pub(crate) used: usize,
    pub(crate) put: usize,
    pub(crate) skip: usize,
}

// What stands next in a stream: bytes of an overlong record to be skipped; the length that an overlong record names; or a
// whole record, by the count of its bytes.
#[derive(Clone, Copy, Debug, PartialEq, Eq)]
pub enum Part {
    Skipped(usize),
    Overlong(usize),
    Whole(usize),
}

// Answers one scene record: the 18 bytes of its outcome at the buffer's start; bytes behind them keep their contents.
// Refused, with the buffer as it was: a buffer of fewer than 18 bytes (10), then the record (1 to 7, 14), then an edge
// line that is not admitted (9).
pub fn answer_record(bytes: &[u8], buffer: &mut [u8]) -> Judged
    ensures { written_of result buffer.new ≡ answer_to bytes.now buffer.old }
{
    match answer_scene(bytes, buffer) {
        Ok(_) => Ok(()),
        // kept: must-fail refusal_told_as_9 plants its mistake in this arm
        Err(refusal) => Err(refusal),
    }
}

// `answer_record`, and what its bytes do not say: why the failed line failed, and where that line comes from.
pub fn answer_scene(bytes: &[u8], buffer: &mut [u8]) -> Result<SceneAnswer, Refusal>
    ensures answer { solved result buffer.new ≡ scene_answer_to bytes.now buffer.old }
    ensures told { outcome_of result ≡ record_outcome bytes.now buffer.old }
{
    if buffer.len() < Answer::BYTES {
        return Err(Refusal::NoRoom);
    }
    // What was read is looked at where it stands: a `?` would copy its three kilobytes.
    let read = scene_records::read_scene(bytes);
    let scene = match &read {
        Ok(read) => &read.scene,
        // kept: must-fail another_refusal_told plants its mistake in this arm
        Err(refusal) => return Err(*refusal),
    };
    let bare = scene.bare();
    let kinds = scene.kinds;
    let counts = scene.counts;
    let answer = dodgy_2d::solve_admitted_scene(
        bare,
        kinds,
        counts,
        &scene.vertices,
        &scene.lines,
    )?;
    outcome::write_outcome(answer, buffer);
    Ok(answer)
}

// The next part of what is left of a stream, with so many bytes still to be skipped; none where nothing whole is left. A
// record is overlong by its length field, as soon as that is there; whole where all its bytes are.
pub fn next_part(rest: &[u8], skip: usize) -> Option<Part>
    ensures { part_of result ≡ part_in skip rest.now }
{
    if skip > 0 {
        return parts::skipped(rest.len(), skip);
    }
    if rest.len() < 2 {
        return None;
    }
    let length = words::pair_at(rest, 0) as usize;
    if length > NumberedScene::LONGEST_REST {
        return Some(Part::Overlong(length));
    }
    if rest.len() < 2 + length {
        return None;
    }
    Some(Part::Whole(2 + length))
}

// One turn of a program that reads scene records and writes answers. At the input's start wait the bytes that the turn
// before kept, and behind them stand those that were read now: then the answers to all that is whole stand at the
// output's start, what is left is kept at the input's start, and bytes behind both keep their contents. A read that
// brought nothing has met the end: bytes that were kept are a record cut short. Where the input does not hold so many
// bytes, or the output has not two for each of the input's and 18 more, nothing is done and the stream is closed.
pub fn turn(input: &mut [u8], output: &mut [u8], before: Stream, read: usize) -> Stream
    ensures { lent result input.new output.new
        ≡ turn_over input.old output.old before read }
{
    let kept = before.kept;
    if !flow::is_room(input.len(), output.len(), kept, read) {
        return Stream::CLOSED;
    }
    if read == 0 {
        let put = flow::finish(kept, output);
        return Stream {
            put,
            ..Stream::CLOSED
        };
    }
    let there = kept + read;
    let place = flow::work(&input[0..there], output, before.skip);
    let left = kept::keep(input, place.used, there);
    Stream {
        put: place.put,
        kept: left,
        skip: place.skip,
        more: true,
    }
}
