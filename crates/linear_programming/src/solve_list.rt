// The whole-list rules, from the start or taken up again at a line: the 2D pass, then relaxation from the line that it failed at.
ghost use Rattle.std.specs.Prelude.{◌≡◌, ◌/◌, ◌≤◌, length, take, Ok};
ghost use Rattle.lines.specs.Lines.{most_lines, lines_of};
ghost use Rattle.linear_programming.specs.Whole.{relaxed_outcome, after_pass, whole_list};
ghost use Rattle.linear_programming.specs.Resume.{resumed, add_probes};
ghost use Rattle.pass_2d.specs.Read.{pass_of, probes_of};
ghost use Rattle.relaxation.specs.Read.{relaxed_of, counted_of};
ghost use Rattle.linear_programming.specs.Read.{phase_of, failed_of, outcome_of};

use crate::{Phase, Standing};
use admission::Refusal;
use common::Vec2;
use lines::Line;
use one_line::OptimalValue;
use pass_2d::{Failure, LinearProgram2D};
use relaxation::LinearProgram3D;

// What relaxation leaves, behind the probes that the pass before it took.
fn relaxed_standing(failed: Option<Failure>, probes: u32, relaxed: LinearProgram3D) -> Standing
    requires { (probes ≤ 65536) × (counted_of (Ok relaxed) ≤ 8421376) }
    ensures { outcome_of (Ok result) ≡ add_probes probes (relaxed_outcome (failed_of failed) (relaxed_of (Ok relaxed))) }
{
    Standing {
        phase: Phase::Relaxing(relaxed.point, relaxed.penetration),
        failed,
        probes: probes + relaxed.probes,
    }
}

// What follows the 2D pass: a failure among the rigid lines ends it, another one is relaxed from its line on.
fn after_pass(
    lines: &[f32],
    rigid: usize,
    radius: f32,
    pass: LinearProgram2D,
) -> Result<Standing, Refusal>
    requires { (length lines.now / 4 ≤ most_lines) × (probes_of (Ok pass) ≤ 65536) }
    ensures { outcome_of result ≡ after_pass rigid radius (lines_of lines.now) (pass_of (Ok pass)) }
{
    match pass {
        LinearProgram2D::Feasible(point, probes) => Ok(Standing {
            phase: Phase::Solving(point),
            failed: None,
            probes,
        }),
        LinearProgram2D::Infeasible(failure, point, probes) => {
            let k = failure.index;
            let failed = Some(failure);
            if k < rigid {
                let phase = Phase::RigidFailure(k, point);
                return Ok(Standing {
                    phase,
                    failed,
                    probes,
                });
            }
            let count = lines.len() / 4;
            let relaxed = relaxation::solve_linear_program_3d(
                lines, rigid, k, count, radius, point, 0.0,
            )?;
            Ok(relaxed_standing(failed, probes, relaxed))
        }
    }
}

// The lines from `from` on, after those before them left the phase and the failed line.
pub(crate) fn resume(
    lines: &[f32],
    from: usize,
    rigid: usize,
    limit: f32,
    wish: Vec2,
    phase: Phase,
    failed: Option<Failure>,
) -> Result<Standing, Refusal>
    requires { length lines.now / 4 ≤ most_lines }
    ensures { outcome_of result ≡ resumed rigid wish limit (lines_of lines.now) from
        (phase_of phase) (failed_of failed) }
{
    let count = lines.len() / 4;
    match phase {
        Phase::Solving(point) => {
            let optimal_value = OptimalValue::Point(wish);
            let pass = pass_2d::resume_linear_program_2d(
                lines,
                from,
                count,
                limit,
                optimal_value,
                point,
            )?;
            after_pass(lines, rigid, limit, pass)
        }
        Phase::Relaxing(point, depth) => {
            let relaxed = relaxation::solve_linear_program_3d(
                lines, rigid, from, count, limit, point, depth,
            )?;
            Ok(relaxed_standing(failed, 0, relaxed))
        }
        Phase::RigidFailure(_, _) => Ok(Standing {
            phase,
            failed,
            probes: 0,
        }),
    }
}

// The rules over lines, from the starting point on, which has to be finite.
pub(crate) fn solve_from_start(
    lines: &[f32],
    rigid: usize,
    limit: f32,
    wish: Vec2,
) -> Result<Standing, Refusal>
    requires { length lines.now / 4 ≤ most_lines }
    ensures { outcome_of result ≡ whole_list rigid wish limit (lines_of lines.now) }
{
    let optimal_value = OptimalValue::Point(wish);
    let pass = pass_2d::solve_linear_program_2d(lines, lines.len() / 4, limit, optimal_value)?;
    after_pass(lines, rigid, limit, pass)
}

// The lines laid out as numbers.
pub(crate) fn lay(lines: &[Line], numbers: &mut [f32])
    requires { (length lines.now ≤ most_lines) × (length numbers.old ≡ 1024) }
    ensures { (length numbers.new ≡ 1024) × (take (length lines.now) (lines_of numbers.new) ≡ lines.now) }
{
    for (n, line) in lines.iter().enumerate() {
        lines::put_line(numbers, n, *line);
    }
}
