// One part of a stream worked.
ghost use Rattle.std.specs.Prelude.{◌≡◌, ◌≤◌, length};
ghost use Rattle.answer_records.specs.Answers.{longest_answer};
ghost use Rattle.records.specs.Answered.{reply_to};
ghost use Rattle.records.specs.Steps.{put, put_at, stepped_of, step_over};

use crate::{Part, Place, answer_record, next_part};
use admission::Refusal;
use answer_records::Answer;

// Works the part at a place: its answer goes behind those that stand. The place behind it; or none, where there is no part,
// or no room for its answer.
pub(crate) fn step(input: &[u8], output: &mut [u8], place: Place) -> Option<Place>
    requires { (place.used ≤ length input.now) × (place.put ≤ length output.old) }
    ensures { stepped_of result output.new ≡ step_over input.now output.old place }
{
    let Place { used, put, skip } = place;
    if output.len() - put < Answer::BYTES {
        return None;
    }
    let part = next_part(&input[used..], skip)?;
    match part {
        Part::Skipped(count) => Some(Place {
            used: used + count,
            put,
            skip: skip - count,
        }),
        Part::Overlong(length) => {
            let _ = answer_records::write_refusal(&mut output[put..], Refusal::TooMany.number());
            Some(Place {
                used: used + 2,
                put: put + Answer::REFUSAL_BYTES,
                skip: length,
            })
        }
        Part::Whole(count) => {
            let end = used + count;
            let answered = reply(&input[used..end], &mut output[put..]);
            Some(Place {
                used: end,
                put: put + answered,
                skip: 0,
            })
        }
    }
}

// The answer to a whole record at the output's start, and how many bytes it has: 18 for an outcome, 4 for a refusal.
fn reply(bytes: &[u8], output: &mut [u8]) -> usize
    requires { longest_answer ≤ length output.old }
    ensures { put result output.new ≡ put_at 0 (reply_to bytes.now) output.old }
{
    match answer_record(bytes, output) {
        Ok(()) => Answer::BYTES,
        Err(refusal) => {
            let _ = answer_records::write_refusal(output, refusal.number());
            Answer::REFUSAL_BYTES
        }
    }
}
