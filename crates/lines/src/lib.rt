// A line, its origin, and lists of lines that are lent as numbers, four a line, or three an origin: the one place that
// reads a line or an origin, the one that stores it, and what is admitted of a line.
#![tactic(auto)]

ghost use Rattle.std.specs.Prelude.{◌≡◌, get_or, length, take};
ghost use Rattle.admission.specs.Faults.{fault_of};
ghost use Rattle.lines.specs.Lines.{line as line_of, lines_of, off_line, line_stored};
ghost use Rattle.lines.specs.LineFaults.{line_fault, lines_fault};
ghost use Rattle.lines.specs.Origins.{unknown, origins_of, origin_stored};

use admission::{Judged, Refusal, is_inside, is_within};
use common::Vec2;

// A half-plane to the left of `direction` through `point`.
#[derive(Clone, Copy, Debug, PartialEq)]
pub struct Line {
    pub point: Vec2,
    pub direction: Vec2,
}

impl Line {
    // Two directions are parallel where the magnitude of their determinant is at most this.
    pub const EPSILON: f32 = 0.00001;

    // The greatest magnitude of a point's component.
    pub const REACH: f32 = 268435456.0;

    // The band of a direction's squared length: 1023/1024 to 1025/1024.
    pub const BAND_LOW: f32 = 0.9990234375;

    pub const BAND_HIGH: f32 = 1.0009765625;

    // The most lines of a list or a session.
    pub const MOST: usize = 256;

    pub fn new(point: Vec2, direction: Vec2) -> Line
        ensures { result ≡ line_of point direction }
    {
        Line { point, direction }
    }
}

// Where a line comes from (02, T-06), in three whole numbers: its kind, then places counted from 0, an edge's obstacle
// and left vertex, or a neighbour's own and 0. Nothing is judged of them: they are kept as they stand.
#[derive(Clone, Copy, Debug, PartialEq, Eq)]
pub struct Origin {
    pub kind: u32,
    pub place: u32,
    pub vertex: u32,
}

impl Origin {
    pub const UNKNOWN: Origin = Origin {
        kind: 0,
        place: 0,
        vertex: 0,
    };

    // The kinds of an origin that is known.
    pub const EDGE: u32 = 1;

    pub const NEIGHBOUR: u32 = 2;
}

// The line at an index of a list that is lent as numbers, four a line; past its end a line of NaNs.
pub fn line_at(numbers: &[f32], i: usize) -> Line
    ensures { result ≡ get_or (lines_of numbers.now) i off_line }
{
    if i < numbers.len() / 4 {
        let k = 4 * i;
        return Line {
            point: Vec2 {
                x: numbers[k],
                y: numbers[k + 1],
            },
            direction: Vec2 {
                x: numbers[k + 2],
                y: numbers[k + 3],
            },
        };
    }
    let nan = 0.0 / 0.0;
    Line {
        point: Vec2 { x: nan, y: nan },
        direction: Vec2 { x: nan, y: nan },
    }
}

// How many of the first `count` lines of a list there are, that is lent as numbers, four a line.
pub fn count_given(numbers: &[f32], count: usize) -> usize
    ensures { result ≡ length (take count (lines_of numbers.now)) }
{
    let given = numbers.len() / 4;
    if count < given {
        return count;
    }
    given
}

// The origin at an index of a list that is lent as numbers, three an origin; past its end it is unknown.
pub fn origin_at(numbers: &[u32], i: usize) -> Origin
    ensures { result ≡ get_or (origins_of numbers.now) i unknown }
{
    if i < numbers.len() / 3 {
        let k = 3 * i;
        return Origin {
            kind: numbers[k],
            place: numbers[k + 1],
            vertex: numbers[k + 2],
        };
    }
    Origin::UNKNOWN
}

// Stores a line at an index of a list that is lent as numbers, four a line; numbers without room for it stay as they are.
pub fn put_line(numbers: &mut [f32], i: usize, line: Line)
    ensures { numbers.new ≡ line_stored numbers.old i line }
{
    if i >= numbers.len() / 4 {
        return;
    }
    let k = 4 * i;
    numbers[k] = line.point.x;
    numbers[k + 1] = line.point.y;
    numbers[k + 2] = line.direction.x;
    numbers[k + 3] = line.direction.y;
}

// Stores an origin at an index of a list that is lent as numbers, three an origin; numbers without room for it stay as
// they are.
pub fn put_origin(numbers: &mut [u32], i: usize, origin: Origin)
    ensures { numbers.new ≡ origin_stored numbers.old i origin }
{
    if i >= numbers.len() / 3 {
        return;
    }
    let k = 3 * i;
    numbers[k] = origin.kind;
    numbers[k + 1] = origin.place;
    numbers[k + 2] = origin.vertex;
}

// The first fault of a line: 6 for a number that is not finite or out of range, then 7 for a direction out of its band.
pub fn judge_line(line: Line) -> Judged
    ensures { fault_of result ≡ line_fault line }
{
    let point_x = Refusal::OutOfRange.unless(is_within(Line::REACH, line.point.x));
    let point_y = Refusal::OutOfRange.unless(is_within(Line::REACH, line.point.y));
    let x = Refusal::OutOfRange.unless(arithmetic::is_finite(line.direction.x));
    let y = Refusal::OutOfRange.unless(arithmetic::is_finite(line.direction.y));
    let squared = line.direction.length_squared();
    let band = Refusal::OutOfBand.unless(is_inside(Line::BAND_LOW, Line::BAND_HIGH, squared));
    point_x.and(point_y).and(x).and(y).and(band)
}

// The first fault of a list of lines that is lent as numbers, four a line; numbers that make no whole line are passed over.
pub fn judge_lines(numbers: &[f32]) -> Judged
    ensures { fault_of result ≡ lines_fault (lines_of numbers.now) }
{
    for i in 0..numbers.len() / 4 {
        judge_line(line_at(numbers, i))?;
    }
    Ok(())
}
