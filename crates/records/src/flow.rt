// The work on what a stream brings: the parts that are whole, and the end.
ghost use Rattle.std.specs.Prelude.{◌≡◌, ◌≤◌, length};
ghost use Rattle.answer_records.specs.Answers.{longest_answer};
ghost use Rattle.records.specs.Steps.{put, put_at};
ghost use Rattle.records.specs.Streams.{standing, worked_over, last_answer};
ghost use Rattle.records.specs.Turns.{has_room_for};

use crate::Place;
use crate::steps::step;
use admission::Refusal;
use answer_records::Answer;

// Whether the bytes kept and read lie in the input, and the output has two bytes for each of the input's and 18 more. No sum is
// made that could overflow.
#[tactic(auto, unfolding(crate::specs::Turns::has_room_for))]
pub(crate) fn is_room(input: usize, output: usize, kept: usize, read: usize) -> bool
    ensures { result ≡ has_room_for input output kept read }
{
    if output < Answer::BYTES {
        return false;
    }
    (output - Answer::BYTES) / 2 >= input && admission::fits_behind(input, kept, read)
}

// Works the parts of a stream that the input holds from its start on: what is still to be skipped, then record behind
// record, each answered behind the other at the output's start. It stops where the input holds no whole part more, or
// where the output has room for fewer than 18 bytes.
pub(crate) fn work(input: &[u8], output: &mut [u8], skip: usize) -> Place
    ensures { standing result output.new ≡ worked_over input.now output.old skip }
{
    let mut place = Place {
        used: 0,
        put: 0,
        skip,
    };
    // kept: no plainer: the next place is what a step says, not a count
    while let Some(next) = step(input, output, place) {
        place = next;
    }
    place
}

// The end of the input, with so many bytes left over: they are a record cut short, which gets 2 at the output's start. How many
// bytes were written.
pub(crate) fn finish(left: usize, output: &mut [u8]) -> usize
    requires { longest_answer ≤ length output.old }
    ensures { put result output.new ≡ put_at 0 (last_answer left) output.old }
{
    if left == 0 {
        return 0;
    }
    let _ = answer_records::write_refusal(output, Refusal::MissingOrLeftOver.number());
    Answer::REFUSAL_BYTES
}
