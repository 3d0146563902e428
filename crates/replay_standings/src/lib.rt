// How lines stand against an answer, seven words from a place on: kind (0 solving, 1 relaxing, 2 rigid failure, 100 +
// the number of a refusal), point (2), penetration, failed line, its cause, probes.
#![tactic(auto)]

ghost use Rattle.std.specs.Prelude.{◌≡◌};
ghost use Rattle.one_line.specs.Read.{cause_of};
ghost use Rattle.linear_programming.specs.Read.{phase_of, failed_of};
ghost use Rattle.replay_standings.specs.Standings.{is_cause, is_failed, is_told, is_standing};

use common::Vec2;
use linear_programming::Phase;
use one_line::Cause;
use pass_2d::Failure;
use replay_records::agrees;

// Whether phase, failed line and probes are those of the answer at the place. A rigid failure's own index is the failed
// line, too.
pub fn is_standing(
    bytes: &[u8],
    at: u16,
    phase: Phase,
    failed: Option<Failure>,
    probes: u32,
) -> bool
    ensures { result ≡ is_standing bytes.now at (phase_of phase) (failed_of failed) probes }
{
    match phase {
        Phase::Solving(point) => is_told(bytes, at, 0, point, 0.0, failed, probes),
        Phase::Relaxing(point, penetration) => {
            is_told(bytes, at, 1, point, penetration, failed, probes)
        }
        Phase::RigidFailure(k, point) => {
            is_told(bytes, at, 2, point, 0.0, failed, probes)
                & (words::word_at(bytes, at as usize + 16) as usize == k)
        }
    }
}

// Whether these are the seven words of the answer at the place.
pub fn is_told(
    bytes: &[u8],
    at: u16,
    kind: u32,
    point: Vec2,
    penetration: f32,
    failed: Option<Failure>,
    probes: u32,
) -> bool
    ensures { result ≡ is_told bytes.now at kind point penetration (failed_of failed) probes }
{
    (words::word_at(bytes, at as usize) == kind)
        & agrees(point.x, words::word_at(bytes, at as usize + 4))
        & agrees(point.y, words::word_at(bytes, at as usize + 8))
        & agrees(penetration, words::word_at(bytes, at as usize + 12))
        & is_failed(
            words::word_at(bytes, at as usize + 16),
            words::word_at(bytes, at as usize + 20),
            failed,
        )
        & (words::word_at(bytes, at as usize + 24) == probes)
}

// Whether the failed line and its cause are those of the two words, where FFFFFFFF stands for no line and 0 for no cause.
pub fn is_failed(line: u32, word: u32, failed: Option<Failure>) -> bool
    ensures { result ≡ is_failed line word (failed_of failed) }
{
    match failed {
        None => (line == 0xffff_ffff) & (word == 0),
        Some(failure) => (line as usize == failure.index) & is_cause(word, failure.cause),
    }
}

// Whether the cause is the one of the word: 1 the circle, 2 a parallel line, 3 ends that crossed, times 65,536, and the
// earlier line's index.
fn is_cause(word: u32, cause: Cause) -> bool
    ensures { result ≡ is_cause word (cause_of cause) }
{
    match cause {
        Cause::Circle => word == 65536,
        Cause::Parallel(index) => (word / 65536 == 2) & ((word % 65536) as usize == index),
        Cause::Crossing(index) => (word / 65536 == 3) & ((word % 65536) as usize == index),
    }
}
