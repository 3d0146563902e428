// The interval of a line that the circle and the earlier lines leave, and the best value in it.
ghost use Rattle.std.specs.Prelude.{◌≡◌, ◌+◌, ◌/◌, length};
ghost use mathlib.Core.List.{foldl};
ghost use Rattle.lines.specs.Lines.{lines_of};
ghost use Rattle.one_line.specs.OneLine.{between, chord, cut, narrow, point_on, choose};
ghost use Rattle.one_line.specs.Read.{objective_of, interval_of, left_of, found_of};

use crate::{AlongLine, Cause, Empty, Ends, EndsCrossed, OptimalValue};
use common::Vec2;
use lines::Line;

// Where the line lies within the circle.
pub(crate) fn circle_interval(line: Line, radius: f32) -> Result<Ends, Cause>
    ensures { interval_of 0 result ≡ chord radius line }
{
    let line_dot_product = line.point.dot(line.direction);
    let discriminant = line_dot_product * line_dot_product + radius * radius
        - line.point.dot(line.point);
    if discriminant < 0.0 {
        return Err(Cause::Circle);
    }
    let root = arithmetic::sqrt(discriminant);
    Ok(Ends {
        left: -line_dot_product - root,
        right: -line_dot_product + root,
    })
}

// The crossing with the earlier line `i`, at `t`, caps the right end or raises the left one, by the side that this line
// leaves.
fn cut_at(ends: Ends, i: usize, direction_determinant: f32, t: f32) -> Result<Ends, Cause>
    ensures { interval_of (i + 1) result ≡ cut ends.left ends.right i direction_determinant t }
{
    let cut = if direction_determinant >= 0.0 {
        Ends {
            right: arithmetic::min(ends.right, t),
            ..ends
        }
    } else {
        Ends {
            left: arithmetic::max(ends.left, t),
            ..ends
        }
    };
    if cut.left > cut.right {
        return Err(Cause::Crossing(i));
    }
    Ok(cut)
}

// The earlier line `i` narrows the interval; one that is nearly parallel leaves it as it is, or fails where `line` lies
// on its wrong side.
fn narrow_by(line: Line, ends: Ends, i: usize, constraint: Line) -> Result<Ends, Cause>
    ensures { interval_of (i + 1) result ≡ narrow line (between ends.left ends.right i) constraint }
{
    let direction_determinant = common::determinant(line.direction, constraint.direction);
    let numerator = common::determinant(constraint.direction, line.point.sub(constraint.point));
    if admission::is_within(Line::EPSILON, direction_determinant) {
        if numerator < 0.0 {
            return Err(Cause::Parallel(i));
        }
        return Ok(ends);
    }
    cut_at(
        ends,
        i,
        direction_determinant,
        numerator / direction_determinant,
    )
}

// The earlier lines narrow the interval, one by one.
pub(crate) fn narrow_all(line: Line, chord: Ends, lines: &[f32]) -> Result<Ends, Empty>
    ensures { left_of (length lines.now / 4) result ≡ foldl (narrow line) (between chord.left chord.right 0)
        (lines_of lines.now) }
{
    let mut ends = chord;
    for i in 0..lines.len() / 4 {
        match narrow_by(line, ends, i, lines::line_at(lines, i)) {
            Ok(narrowed) => ends = narrowed,
            Err(cause) => return Err(Empty {
                looked: i + 1,
                cause,
            }),
        }
    }
    Ok(ends)
}

fn point_on(line: Line, t: f32) -> Vec2
    ensures { result ≡ point_on line t }
{
    line.point.add(line.direction.mul(t))
}

// The best value of an interval that is left: refused where its ends are not in order at the clamp to a point.
pub(crate) fn best_on(
    line: Line,
    ends: Ends,
    looked: usize,
    optimal_value: OptimalValue,
) -> Result<AlongLine, EndsCrossed>
    ensures { found_of result ≡ choose (objective_of optimal_value) line (between ends.left ends.right looked) }
{
    let t = match optimal_value {
        OptimalValue::Direction(direction) => {
            if direction.dot(line.direction) > 0.0 {
                ends.right
            } else {
                ends.left
            }
        }
        OptimalValue::Point(point) => {
            if ends.left <= ends.right {
                arithmetic::clamp(
                    line.direction.dot(point.sub(line.point)),
                    ends.left,
                    ends.right,
                )
            } else {
                return Err(EndsCrossed);
            }
        }
    };
    Ok(AlongLine::At(point_on(line, t), looked))
}
