// The 2D pass: each line is met by the point now, or solved again against the lines before it.
ghost use Rattle.std.specs.Prelude.{ℕ, ◌≡◌, ◌+◌, ◌*◌, ◌/◌, ◌≤◌, ◌<◌, get_or, length, take, drop};
ghost use Rattle.admission.specs.Faults.{unless_fault, fault_of};
ghost use Rattle.lines.specs.Lines.{most_lines, lines_of, off_line};
ghost use Rattle.one_line.specs.Read.{objective_of};
ghost use Rattle.pass_2d.specs.Walk.{walk};
ghost use Rattle.pass_2d.specs.Pass.{feasible, refused, start, judged, pass_line};
ghost use Rattle.pass_2d.specs.Read.{pass_of};

use crate::{Failure, LinearProgram2D, is_finite_point};
use admission::{Judged, Refusal};
use common::Vec2;
use one_line::{AlongLine, OptimalValue};

// The best value with no line looked at.
pub(crate) fn start_value(radius: f32, optimal_value: OptimalValue) -> Vec2
    ensures { result ≡ start (objective_of optimal_value) radius }
{
    match optimal_value {
        OptimalValue::Direction(direction) => direction.mul(radius),
        OptimalValue::Point(point) => {
            if point.length_squared() > radius * radius {
                return point.normalize().mul(radius);
            }
            point
        }
    }
}

// A point of the pass toward a wish has to be finite; an inner solve is judged by what it hands on.
pub(crate) fn judge_point(optimal_value: OptimalValue, point: Vec2) -> Judged
    ensures { (n : ℕ) → unless_fault refused (fault_of result) (feasible point n)
        ≡ judged (objective_of optimal_value) point n }
{
    match optimal_value {
        OptimalValue::Direction(_) => Ok(()),
        OptimalValue::Point(_) => Refusal::NotAdmitted.unless(is_finite_point(point)),
    }
}

// The line at an index, after the lines before it left `point`: met by it, or solved against the lines before it. Where
// that fails, the pass ends with the index and the point before it.
fn pass_line(
    lines: &[f32],
    index: usize,
    radius: f32,
    optimal_value: OptimalValue,
    point: Vec2,
    probes: u32,
) -> Result<LinearProgram2D, Refusal>
    requires { (4 * index + 4 ≤ length lines.now) × (index < most_lines) × (probes < 65536) }
    ensures { pass_of result ≡ pass_line (objective_of optimal_value) radius
        (take index (lines_of lines.now)) (get_or (lines_of lines.now) index off_line)
        (feasible point probes) }
{
    let line = lines::line_at(lines, index);
    if common::determinant(line.direction, point.sub(line.point)) > 0.0 {
        return Ok(LinearProgram2D::Feasible(point, probes + 1));
    }
    let along = one_line::solve_linear_program_along_line(
        line,
        radius,
        lines,
        index,
        optimal_value,
    )?;
    match along {
        AlongLine::At(best_value, looked) => {
            judge_point(optimal_value, best_value)?;
            Ok(LinearProgram2D::Feasible(best_value, probes + 1 + looked as u32))
        }
        AlongLine::Fails(looked, cause) => {
            let failure = Failure { index, cause };
            Ok(LinearProgram2D::Infeasible(failure, point, probes + 1 + looked as u32))
        }
    }
}

// The lines from `from` on, after those before them left `point`.
pub(crate) fn pass_from(
    lines: &[f32],
    from: usize,
    radius: f32,
    optimal_value: OptimalValue,
    point: Vec2,
) -> Result<LinearProgram2D, Refusal>
    requires { length lines.now / 4 ≤ most_lines }
    ensures { pass_of result ≡ walk (pass_line (objective_of optimal_value) radius) (take from (lines_of lines.now))
        (drop from (lines_of lines.now)) (feasible point 0) }
{
    let mut best_value = point;
    let mut probes = 0;
    for i in from..lines.len() / 4 {
        match pass_line(lines, i, radius, optimal_value, best_value, probes)? {
            LinearProgram2D::Feasible(value, counted) => {
                best_value = value;
                probes = counted;
            }
            failed => return Ok(failed),
        }
    }
    Ok(LinearProgram2D::Feasible(best_value, probes))
}
