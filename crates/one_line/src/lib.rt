// The one-line solve (01, "One-line solve"; the Rust's linear_programming.rs): the best value on a line within the
// circle and the earlier lines.
#![tactic(auto)]

ghost use Rattle.std.specs.Prelude.{◌≡◌, take};
ghost use Rattle.admission.specs.declared.refusal.Refusal.TheVariants as refusals;
ghost use Rattle.lines.specs.Lines.{lines_of};
ghost use Rattle.one_line.specs.OneLine.{one_line};
ghost use Rattle.one_line.specs.Read.{objective_of, found_of};

use admission::Refusal;
use common::Vec2;
use lines::Line;

mod along_line;

// What the best value is nearest to, or farthest along.
#[derive(Clone, Copy, Debug, PartialEq)]
pub enum OptimalValue {
    Point(Vec2),
    Direction(Vec2),
}

// What left nothing of a line: the circle, or the earlier line at an index, by its wrong side where it is parallel or
// by the ends that crossed there.
#[derive(Clone, Copy, Debug, PartialEq, Eq)]
pub enum Cause {
    Circle,
    Parallel(usize),
    Crossing(usize),
}

// The ends of the interval left on a line.
#[derive(Clone, Copy)]
pub(crate) struct Ends {
    pub(crate) left: f32,
    pub(crate) right: f32,
}

// Nothing is left of a line: how many earlier lines were looked at, and what closed the interval.
#[derive(Clone, Copy)]
pub(crate) struct Empty {
    pub(crate) looked: usize,
    pub(crate) cause: Cause,
}

// What a one-line solve finds, with its probes.
#[derive(Clone, Copy, Debug, PartialEq)]
pub enum AlongLine {
    At(Vec2, usize),
    Fails(usize, Cause),
}

// The ends of what is left are not in order at the clamp to a point.
#[derive(Clone, Copy, Debug, PartialEq, Eq)]
pub struct EndsCrossed;

impl From<EndsCrossed> for Refusal {
    ghost from_gives = { λ _ refusal. refusal ≡ refusals.EndsCrossed };

    fn from(_crossed: EndsCrossed) -> Refusal {
        Refusal::EndsCrossed
    }
}

// The best value on `line` within the circle and the first `count` lines, which are lent as numbers, four a line; or
// what left nothing of it. Refused where the ends of what is left are not in order at the clamp to a point.
pub fn solve_linear_program_along_line(
    line: Line,
    radius: f32,
    lines: &[f32],
    count: usize,
    optimal_value: OptimalValue,
) -> Result<AlongLine, EndsCrossed>
    ensures { found_of result ≡ one_line (objective_of optimal_value) radius line (take count (lines_of lines.now)) }
{
    let given = &lines[..4 * lines::count_given(lines, count)];
    let chord = match along_line::circle_interval(line, radius) {
        Ok(chord) => chord,
        Err(cause) => return Ok(AlongLine::Fails(0, cause)),
    };
    match along_line::narrow_all(line, chord, given) {
        Ok(ends) => along_line::best_on(line, ends, given.len() / 4, optimal_value),
        Err(Empty { looked, cause }) => Ok(AlongLine::Fails(looked, cause)),
    }
}
