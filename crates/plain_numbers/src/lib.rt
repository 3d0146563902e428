// Phases, causes and failed lines as plain numbers, for a caller that has no enums; and back.
// kept: C interface: kinds and indices are numbers there
#![tactic(auto)]

ghost use Rattle.std.specs.Prelude.{◌≡◌};
ghost use Rattle.plain_numbers.specs.Kinds.{phase_kind, phase_index, phase_in, cause_kind, cause_line, cause_in, failed_kind, failed_index, failed_cause, failed_in};

use common::Vec2;
use linear_programming::Phase;
use one_line::Cause;
use pass_2d::Failure;

// The phase as a number: 0 solving, 1 relaxing, 2 a rigid failure.
pub fn phase_kind(phase: Phase) -> u8
    ensures { result ≡ phase_kind phase }
{
    match phase {
        Phase::Solving(_) => 0,
        Phase::Relaxing(_, _) => 1,
        Phase::RigidFailure(_, _) => 2,
    }
}

pub fn phase_index(phase: Phase) -> usize
    ensures { result ≡ phase_index phase }
{
    match phase {
        Phase::Solving(_) | Phase::Relaxing(_, _) => 0,
        Phase::RigidFailure(k, _) => k,
    }
}

fn cause_kind(cause: Cause) -> u8
    ensures { result ≡ cause_kind cause }
{
    match cause {
        Cause::Circle => 1,
        Cause::Parallel(_) => 2,
        Cause::Crossing(_) => 3,
    }
}

fn cause_line(cause: Cause) -> usize
    ensures { result ≡ cause_line cause }
{
    match cause {
        Cause::Circle => 0,
        Cause::Parallel(k) => k,
        Cause::Crossing(k) => k,
    }
}

// The cause of the failed line as a number: 0 where none failed, 1 the circle, 2 a parallel line, 3 crossing ends.
pub fn failed_kind(failed: Option<Failure>) -> u8
    ensures { result ≡ failed_kind failed }
{
    failed.map_or(0, |failure| cause_kind(failure.cause))
}

// The index of the failed line, 0 where none failed.
pub fn failed_index(failed: Option<Failure>) -> usize
    ensures { result ≡ failed_index failed }
{
    failed.map_or(0, |failure| failure.index)
}

// The earlier line that the cause of the failed line names, 0 where it names none.
pub fn failed_cause(failed: Option<Failure>) -> usize
    ensures { result ≡ failed_cause failed }
{
    failed.map_or(0, |failure| cause_line(failure.cause))
}

// kept: C interface: a point comes as two numbers
pub fn phase_in(kind: usize, k: usize, x: f32, y: f32, penetration: f32) -> Phase
    ensures { result ≡ phase_in kind k x y penetration }
{
    let point = Vec2 { x, y };
    match kind {
        0 => Phase::Solving(point),
        1 => Phase::Relaxing(point, penetration),
        _ => Phase::RigidFailure(k, point),
    }
}

fn cause_in(kind: usize, k: usize) -> Cause
    ensures { result ≡ cause_in kind k }
{
    match kind {
        1 => Cause::Circle,
        2 => Cause::Parallel(k),
        _ => Cause::Crossing(k),
    }
}

pub fn failed_in(kind: usize, index: usize, k: usize) -> Option<Failure>
    ensures { result ≡ failed_in kind index k }
{
    if kind == 0 {
        return None;
    }
    let cause = cause_in(kind, k);
    Some(Failure { index, cause })
}
