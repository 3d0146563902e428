// The 2D pass (01, "Start" and "A line is met .."; the Rust's linear_programming.rs): the value nearest to a point, or
// farthest along a direction, that meets the lines one by one, or the line that it fails at.
#![tactic(auto)]

ghost use Rattle.std.specs.Prelude.{◌≡◌, take};
ghost use Rattle.lines.specs.Lines.{lines_of};
ghost use Rattle.one_line.specs.Read.{objective_of};
ghost use Rattle.pass_2d.specs.Pass.{finite_point};
ghost use Rattle.pass_2d.specs.Calls.{pass_call, resumed_pass};
ghost use Rattle.pass_2d.specs.Read.{pass_of};

use admission::Refusal;
use common::Vec2;
use lines::Line;
use one_line::{Cause, OptimalValue};

mod solve_2d;

// The line that a 2D pass failed at, and what left nothing of it.
#[derive(Clone, Copy, Debug, PartialEq, Eq)]
pub struct Failure {
    pub index: usize,
    pub cause: Cause,
}

// The 2D pass so far, with its probes: the point now; or the line it failed at and the point before it.
#[derive(Clone, Copy, Debug, PartialEq)]
pub enum LinearProgram2D {
    Feasible(Vec2, u32),
    Infeasible(Failure, Vec2, u32),
}

pub fn is_finite_point(p: Vec2) -> bool
    ensures { result ≡ finite_point p }
{
    arithmetic::is_finite(p.x) && arithmetic::is_finite(p.y)
}

// The pass over the first `count` lines, which are lent as numbers, four a line. Refused, in this order: more than 256
// lines (4), a starting point toward a wish that is not finite (9), the solve of a line (8, 9).
pub fn solve_linear_program_2d(
    lines: &[f32],
    count: usize,
    radius: f32,
    optimal_value: OptimalValue,
) -> Result<LinearProgram2D, Refusal>
    ensures { pass_of result ≡ pass_call (objective_of optimal_value) radius (take count (lines_of lines.now)) }
{
    let given = &lines[..4 * lines::count_given(lines, count)];
    Refusal::TooMany.unless(given.len() / 4 <= Line::MOST)?;
    let point = solve_2d::start_value(radius, optimal_value);
    solve_2d::judge_point(optimal_value, point)?;
    solve_2d::pass_from(given, 0, radius, optimal_value, point)
}

// The pass taken up again at the line `from`, where the lines before it left `point`: how it stands after the first
// `count` lines, with the probes of those from `from` on. Refused: more than 256 lines (4), the solve of a line (8, 9).
pub fn resume_linear_program_2d(
    lines: &[f32],
    from: usize,
    count: usize,
    radius: f32,
    optimal_value: OptimalValue,
    point: Vec2,
) -> Result<LinearProgram2D, Refusal>
    ensures { pass_of result ≡ resumed_pass (objective_of optimal_value) radius
        (take count (lines_of lines.now)) from point }
{
    let lines = &lines[..4 * lines::count_given(lines, count)];
    Refusal::TooMany.unless(lines.len() / 4 <= Line::MOST)?;
    solve_2d::pass_from(lines, from, radius, optimal_value, point)
}
