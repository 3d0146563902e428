// A scene's outcome as an answer record.
ghost use Rattle.std.specs.Prelude.{◌≡◌, Ok};
ghost use Rattle.linear_programming.specs.Read.{failed_of};
ghost use Rattle.dodgy_2d.specs.Read.{outcome_of};
ghost use Rattle.records.specs.Answered.{place_in, of_outcome, laid_answer};

use answer_records::Answer;
use dodgy_2d::SceneAnswer;
use pass_2d::Failure;

// The outcome's record at the buffer's start; where there is no room for it, the buffer is as it was.
pub(crate) fn write_outcome(outcome: SceneAnswer, buffer: &mut [u8])
    ensures { buffer.new ≡ (laid_answer (of_outcome (outcome_of (Ok outcome))) buffer.old).contents }
{
    let answer = Answer {
        code: outcome.outcome.number(),
        x: words::pattern(outcome.velocity.x),
        y: words::pattern(outcome.velocity.y),
        failed: failed_place(outcome.failed),
        probes: outcome.probes,
    };
    let _ = answer_records::write_answer(buffer, answer);
}

// The failed line's two bytes. A list has at most 256 lines, so that an index is itself.
fn failed_place(failed: Option<Failure>) -> u16
    ensures { result ≡ place_in (failed_of failed) }
{
    match failed {
        None => Answer::NO_LINE,
        Some(failure) => (failure.index % 0x1_0000) as u16,
    }
}
