// Relaxation: the lines that are not rigid move back at the same speed, until the value that violates them least is found.
ghost use Rattle.std.specs.Prelude.{◌&&◌, ◌≡◌, ◌+◌, ◌*◌, ◌/◌, ◌≤◌, ◌<◌, get_or, length, take, drop, Ok};
ghost use Rattle.arithmetic.specs.Binary32.{finite};
ghost use Rattle.pass_2d.specs.Walk.{walk};
ghost use Rattle.lines.specs.Lines.{most_lines, lines_of, off_line};
ghost use Rattle.pass_2d.specs.Pass.{finite_point};
ghost use Rattle.relaxation.specs.Relax.{midpoint, intersection, tighten as tightenedBy, tightened, relaxed, depth_in, replaced, relax_line};
ghost use Rattle.pass_2d.specs.Read.{pass_of, probes_of};
ghost use Rattle.relaxation.specs.Read.{tight_of, relaxed_of};

use crate::LinearProgram3D;
use admission::Refusal;
use common::Vec2;
use lines::Line;
use one_line::OptimalValue;
use pass_2d::LinearProgram2D;

fn middle_point(constraint: Line, previous: Line) -> Vec2
    ensures { result ≡ midpoint constraint previous }
{
    constraint.point.add(previous.point).mul(0.5)
}

fn intersection_point(constraint: Line, previous: Line) -> Vec2
    ensures { result ≡ intersection constraint previous }
{
    let intersection_determinant = common::determinant(constraint.direction, previous.direction);
    let apart = constraint.point.sub(previous.point);
    let intersection_t = common::determinant(previous.direction, apart) / intersection_determinant;
    constraint
        .point
        .add(constraint.direction.mul(intersection_t))
}

// The constraint that a previous line becomes, through a point where both are violated alike: none where it points the
// same way, since then it is satisfied just as well.
fn tighten(constraint: Line, previous: Line) -> Option<Line>
    ensures { tight_of result ≡ tightenedBy constraint previous }
{
    let intersection_determinant = common::determinant(constraint.direction, previous.direction);
    let point = if admission::is_within(Line::EPSILON, intersection_determinant) {
        if constraint.direction.dot(previous.direction) > 0.0 {
            return None;
        }
        middle_point(constraint, previous)
    } else {
        intersection_point(constraint, previous)
    };
    let direction = previous.direction.sub(constraint.direction).normalize();
    Some(Line::new(point, direction))
}

// Fills the tightened list for a line: the rigid lines, unchanged, then the other earlier ones, tightened. Its count.
fn tighten_into(earlier: &[f32], rigid: usize, constraint: Line, tight: &mut [f32]) -> usize
    requires { (rigid ≤ length earlier.now / 4) × (length earlier.now ≤ 1020) × (length tight.old ≡ 1020) }
    ensures { (result ≤ length earlier.now / 4) × (length tight.new ≡ 1020)
        × (take result (lines_of tight.new) ≡ tightened rigid constraint (lines_of earlier.now)) }
{
    tight[..4 * rigid].copy_from_slice(&earlier[..4 * rigid]);
    let mut n = rigid;
    for i in rigid..earlier.len() / 4 {
        if let Some(line) = tighten(constraint, lines::line_at(earlier, i)) {
            lines::put_line(tight, n, line);
            n += 1;
        }
    }
    n
}

// How deep a value lies on the wrong side of a line.
fn depth_in(constraint: Line, value: Vec2) -> f32
    ensures { result ≡ depth_in constraint value }
{
    common::determinant(constraint.direction, constraint.point.sub(value))
}

fn are_finite(value: Vec2, penetration: f32) -> bool
    ensures { result ≡ (finite_point value && finite penetration) }
{
    pass_2d::is_finite_point(value) && arithmetic::is_finite(penetration)
}

// What the inner solve leaves of relaxation: its value and how deep that lies, or both as they were where it failed.
fn after_inner(
    constraint: Line,
    relaxed: LinearProgram3D,
    inner: LinearProgram2D,
) -> Result<LinearProgram3D, Refusal>
    requires { (relaxed.probes ≤ 16777471) × (probes_of (Ok inner) ≤ 32640) }
    ensures { relaxed_of result ≡ replaced constraint relaxed.point relaxed.penetration relaxed.probes (pass_of (Ok inner)) }
{
    match inner {
        LinearProgram2D::Feasible(point, n) => {
            let depth = depth_in(constraint, point);
            Refusal::NotAdmitted.unless(are_finite(point, depth))?;
            Ok(LinearProgram3D {
                point,
                penetration: depth,
                probes: relaxed.probes + n,
            })
        }
        LinearProgram2D::Infeasible(_, _, n) => Ok(LinearProgram3D {
            probes: relaxed.probes + n,
            ..relaxed
        }),
    }
}

// The line at an index, after the lines before it left relaxation as it is.
fn relax_line(
    lines: &[f32],
    rigid: usize,
    index: usize,
    radius: f32,
    relaxed: LinearProgram3D,
) -> Result<LinearProgram3D, Refusal>
    requires { (4 * index + 4 ≤ length lines.now) × (index < most_lines) × (relaxed.probes < 16777216) }
    ensures { relaxed_of result ≡ relax_line rigid radius (take index (lines_of lines.now))
        (get_or (lines_of lines.now) index off_line) (relaxed_of (Ok relaxed)) }
{
    let constraint = lines::line_at(lines, index);
    let probes = relaxed.probes + 1;
    if depth_in(constraint, relaxed.point) <= relaxed.penetration {
        return Ok(LinearProgram3D { probes, ..relaxed });
    }
    let copied = rigid.min(index);
    // kept: no heap: a list of fixed size, its count beside it
    let mut tight = [0.0f32; 4 * (Line::MOST - 1)];
    let count = tighten_into(&lines[..4 * index], copied, constraint, &mut tight);
    let optimal_value = OptimalValue::Direction(constraint.direction.perp());
    let inner = pass_2d::solve_linear_program_2d(&tight, count, radius, optimal_value)?;
    // every line behind the copied ones was examined
    let probes = probes + (index - copied) as u32;
    after_inner(constraint, LinearProgram3D { probes, ..relaxed }, inner)
}

// The lines from `from` on, after those before them left `value` and `penetration`.
pub(crate) fn relax_from(
    lines: &[f32],
    rigid: usize,
    from: usize,
    radius: f32,
    value: Vec2,
    penetration: f32,
) -> Result<LinearProgram3D, Refusal>
    requires { length lines.now / 4 ≤ most_lines }
    ensures { relaxed_of result ≡ walk (relax_line rigid radius) (take from (lines_of lines.now))
        (drop from (lines_of lines.now)) (relaxed value penetration 0) }
{
    let mut relaxed = LinearProgram3D {
        point: value,
        penetration,
        probes: 0,
    };
    for i in from..lines.len() / 4 {
        relaxed = relax_line(lines, rigid, i, radius, relaxed)?;
    }
    Ok(relaxed)
}
