// The work on what a stream brings: the records that are whole, and the end.
ghost use Rattle.std.specs.Prelude.{◌≡◌, ◌*◌, ◌≤◌, length};
ghost use Rattle.conversion.specs.Stages.{stage_of};
ghost use Rattle.conversion.specs.Streams.{last_stage};
ghost use Rattle.conversion.specs.Steps.{standing, walked_over};

use crate::steps::step;
use crate::{Place, Stage, Walk};
use admission::Refusal;
use scene_records::Version;

// Moves record behind record from the input's start on, each behind the other at the output's start. It stops where
// the input holds no whole record more, and at one that is refused.
pub(crate) fn walk(input: &[u8], output: &mut [u8], place: u64, to: Version) -> Walk
    requires { 2 * length input.now ≤ length output.old }
    ensures { standing result output.new ≡ walked_over to input.now output.old place }
{
    let mut at = Place {
        used: 0,
        put: 0,
        place,
    };
    loop {
        match step(input, output, at, to) {
            Ok(Some(behind)) => at = behind,
            Ok(None) => {
                return Walk {
                    place: at,
                    stage: Stage::Open,
                };
            }
            Err(refusal) => {
                return Walk {
                    place: at,
                    stage: Stage::Refused(refusal),
                };
            }
        }
    }
}

// The stage at the end of the input, with so many bytes left over: they are a record cut short, which gets 2.
pub(crate) fn last_stage(left: usize) -> Stage
    ensures { stage_of result ≡ last_stage left }
{
    if left == 0 {
        return Stage::Whole;
    }
    Stage::Refused(Refusal::MissingOrLeftOver)
}
