// A stream of scene records moved to the other version record by record (02, T-07), in turns as the stream is read.
#![tactic(auto)]

ghost use Rattle.std.specs.Prelude.{◌≡◌};
ghost use Rattle.conversion.specs.Turns.{lent, beginning, closed_at, has_room, turn_over};

use admission::Refusal;
use scene_records::{NumberedScene, Version};

mod flow;
mod steps;

// Whether there may be more to read; or the stream has ended behind a whole record; or the record at the place is
// refused; or the buffers of a turn were too short for it. A turn tells a refusal by `Refusal`, and takes a stream before it
// whatever tells one there.
// kept: no plainer: beside a refusal stand the bytes that were moved before it, which a `Result` would not hold.
#[derive(Clone, Copy, Debug, PartialEq, Eq)]
pub enum Stage<E = Refusal> {
    Open,
    Whole,
    Refused(E),
    NoRoom,
}

// Where a stream stands after a turn: how many bytes of moved records are at the output's start, to be written; how
// many bytes wait at the input's start for the next read; the place of the next record, counted from 0, or of the one
// that is refused; and the stage.
#[derive(Clone, Copy, Debug, PartialEq, Eq)]
pub struct Stream<E = Refusal> {
    pub put: usize,
    pub kept: usize,
    pub place: u64,
    pub stage: Stage<E>,
}

impl Stream {
    // A buffer for the input: each read may bring 64 KiB behind a record cut short.
    pub const INPUT: usize = 65536 + 1 + NumberedScene::LONGEST_REST;

    // A buffer for the moved records: none has twice the bytes of its own record.
    pub const OUTPUT: usize = 2 * Stream::INPUT;
}

// How far the work on what was read got: the bytes of it that are used, the bytes that stand at the output's start,
// and the place of the next record.
#[derive(Clone, Copy, Debug, PartialEq, Eq)]
pub(crate) struct Place {
    pub(crate) used: usize,
    pub(crate) put: usize,
    pub(crate) place: u64,
}

// Where the work stopped, and the stage that the stream is in.
#[derive(Clone, Copy, Debug, PartialEq, Eq)]
pub(crate) struct Walk {
    pub(crate) place: Place,
    pub(crate) stage: Stage,
}

// Before the first read.
pub fn start() -> Stream
    ensures { result ≡ beginning }
{
    Stream {
        put: 0,
        kept: 0,
        place: 0,
        stage: Stage::Open,
    }
}

// One turn of a program that moves a stream of records to the version `to`. At the input's start wait the bytes that
// the turn before kept, and behind them stand those that were read now: then the moved records stand at the output's
// start, what is left is kept at the input's start, and bytes behind both keep their contents. The first record that
// `scene_moves` refuses, or whose length is over 2,887 (4), ends the stream: those before it are moved, nothing is
// kept. A read that brought nothing has met the end: bytes that were kept are a record cut short (2). Where the input
// does not hold so many bytes, or the output has not two for each of the input's, nothing is done.
pub fn turn<E: Copy>(
    input: &mut [u8],
    output: &mut [u8],
    before: Stream<E>,
    read: usize,
    to: Version,
) -> Stream
    ensures { lent result input.new output.new ≡ turn_over to input.old output.old before read }
{
    let kept = before.kept;
    let place = before.place;
    if !is_room(input.len(), output.len(), kept, read) {
        return closed(0, place, Stage::NoRoom);
    }
    if read == 0 {
        return closed(0, place, flow::last_stage(kept));
    }
    let there = kept + read;
    let walk = flow::walk(&input[0..there], output, place, to);
    let at = walk.place;
    let stage = walk.stage;
    let Stage::Open = stage else {
        return closed(at.put, at.place, stage);
    };
    Stream {
        put: at.put,
        kept: kept::keep(input, at.used, there),
        place: at.place,
        stage: Stage::Open,
    }
}

// A stream that has ended: nothing is kept.
fn closed(put: usize, place: u64, stage: Stage) -> Stream
    ensures { result ≡ closed_at put place stage }
{
    Stream {
        put,
        kept: 0,
        place,
        stage,
    }
}

// Whether the bytes kept and read lie in the input, and the output has two bytes for each of the input's. No sum is
// made that could overflow.
#[tactic(auto, unfolding(crate::specs::Turns::has_room))]
fn is_room(input: usize, output: usize, kept: usize, read: usize) -> bool
    ensures { result ≡ has_room input output kept read }
{
    output / 2 >= input && admission::fits_behind(input, kept, read)
}
