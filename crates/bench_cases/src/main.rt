// Runs 01's bench cases, P1 to P12 and the limits of its last row, with three more causes of a failure, the probes of
// two relaxed lines, a horizon out of range and a number left over, through the code: the cases that `bench_table`
// claims of the definitions. A case that is wrong is told by its number.
#![tactic(auto)]

use admission::Refusal;
use common::Vec2;
use edges::Agent;
use linear_programming::{Phase, Standing};
use lines::Line;
use obstacles::ObstacleLines;
use one_line::Cause;
use pass_2d::Failure;
use verdict::Tally;

// ---- the answers that cases name; zeros of either sign are equal

fn met(x: f32, y: f32, probes: u32) -> Result<Standing, Refusal> {
    Ok(Standing {
        phase: Phase::Solving(Vec2::new(x, y)),
        failed: None,
        probes,
    })
}

fn relaxed(
    x: f32,
    y: f32,
    depth: f32,
    index: usize,
    cause: Cause,
    probes: u32,
) -> Result<Standing, Refusal> {
    Ok(Standing {
        phase: Phase::Relaxing(Vec2::new(x, y), depth),
        failed: Some(Failure { index, cause }),
        probes,
    })
}

fn rigid(index: usize, cause: Cause, x: f32, y: f32, probes: u32) -> Result<Standing, Refusal> {
    Ok(Standing {
        phase: Phase::RigidFailure(index, Vec2::new(x, y)),
        failed: Some(Failure { index, cause }),
        probes,
    })
}

// ---- lists

// A list solved with limit 2 and wish (0, 0), as 01 has them unless said.
fn solved(numbers: &[f32], rigid: usize) -> Result<Standing, Refusal> {
    linear_programming::solve_linear_program(numbers, rigid, 2.0, Vec2::ZERO)
}

fn without_lines(wish: Vec2, limit: f32) -> Result<Standing, Refusal> {
    linear_programming::solve_linear_program(&[], 0, limit, wish)
}

fn starts(t: Tally) -> Tally {
    let p1 = without_lines(Vec2::new(3.0, 4.0), 5.0);
    let p2 = without_lines(Vec2::new(4.0, 0.0), 2.0);
    t.with(p1 == met(3.0, 4.0, 0), 1)
        .with(p2 == met(2.0, 0.0, 0), 2)
}

fn single_lines(t: Tally) -> Tally {
    let a = [0.0, 1.0, 1.0, 0.0];
    let through = [0.0, 0.0, 1.0, 0.0];
    let far = [0.0, 3.0, 1.0, 0.0];
    let right = Vec2::new(1.0, 0.0);
    let p4 = linear_programming::solve_linear_program(&through, 0, 2.0, right);
    let cause = Cause::Circle;
    t.with(solved(&a, 0) == met(0.0, 1.0, 1), 3)
        .with(p4 == met(1.0, 0.0, 1), 4)
        .with(solved(&far, 1) == rigid(0, cause, 0.0, 0.0, 1), 5)
        .with(solved(&far, 0) == relaxed(0.0, 2.0, 1.0, 0, cause, 2), 6)
}

fn two_lines(t: Tally) -> Tally {
    let both = [0.0, 1.0, 1.0, 0.0, 0.0, -1.0, -1.0, 0.0];
    let minus_root_3 = words::number(0xbfdd_b3d7);
    let cause = Cause::Parallel(0);
    t.with(solved(&both, 0) == relaxed(-2.0, 0.0, 1.0, 1, cause, 6), 7)
        .with(
            solved(&both, 1) == relaxed(minus_root_3, 1.0, 2.0, 1, cause, 5),
            8,
        )
        .with(solved(&both, 2) == rigid(1, cause, 0.0, 1.0, 3), 9)
}

// The causes beyond P5 to P9, told as 901 to 903: the circle before a parallel line, the index in the whole list, ends
// that cross.
fn causes(t: Tally) -> Tally {
    let missed = [0.0, 1.0, 1.0, 0.0, 0.0, -3.0, -1.0, 0.0];
    let three = [
        0.0, -2.0, 1.0, 0.0, 0.0, 1.0, 1.0, 0.0, 0.0, -1.0, -1.0, 0.0,
    ];
    let crossed = [0.0, 1.5, 1.0, 0.0, 1.5, 0.0, 0.0, -1.0];
    let second = Cause::Parallel(1);
    let first = Cause::Crossing(0);
    t.with(
        solved(&missed, 2) == rigid(1, Cause::Circle, 0.0, 1.0, 2),
        901,
    )
    .with(solved(&three, 3) == rigid(2, second, 0.0, 1.0, 6), 902)
    .with(solved(&crossed, 2) == rigid(1, first, 0.0, 1.5, 3), 903)
}

// Two relaxed lines, told as 904: the second one examines the two before it, one skipped and one kept.
fn examined(t: Tally) -> Tally {
    let list = [
        0.0, 1.0, 1.0, 0.0, 0.0, -1.0, -1.0, 0.0, 0.0, -1.5, -1.0, 0.0,
    ];
    let x = words::number(0xbffd_fdfc);
    let cause = Cause::Parallel(0);
    t.with(
        solved(&list, 0) == relaxed(x, -0.25, 1.25, 1, cause, 10),
        904,
    )
}

// Stores one line more than a list may have: each goes through (0, -1) in the direction (1, 0), and the origin meets it.
fn fill(numbers: &mut [f32]) {
    let met = Line::new(Vec2::new(0.0, -1.0), Vec2::new(1.0, 0.0));
    for i in 0..=Line::MOST {
        lines::put_line(numbers, i, met);
    }
}

// 01's last row, told as 256, 257, 1024 and, for the next f32 above it, 1025.
fn limits(t: Tally) -> Tally {
    let mut numbers = [0.0f32; 1028];
    fill(&mut numbers);
    let fast = words::number(0x4480_0001);
    let most = without_lines(Vec2::ZERO, 1024.0);
    let over = without_lines(Vec2::ZERO, fast);
    t.with(solved(&numbers[0..1024], 0) == met(0.0, 0.0, 256), 256)
        .with(solved(&numbers, 0) == Err(Refusal::TooMany), 257)
        .with(most == met(0.0, 0.0, 0), 1024)
        .with(over == Err(Refusal::OutOfRange), 1025)
}

// ---- roots

// A root is compared bit for bit: P10 has a -0.
fn is_root(pattern: u32, root: u32) -> bool {
    words::has_pattern(arithmetic::sqrt(words::number(pattern)), root)
}

fn roots(t: Tally) -> Tally {
    t.with(is_root(0x0000_0002, 0x1a80_0000), 10)
        .with(is_root(0x8000_0000, 0x8000_0000), 10)
        .with(is_root(0x4080_0000, 0x4000_0000), 10)
}

// ---- obstacles

fn asked(
    kind: u8,
    vertices: &[f32],
    count: usize,
    margin: f32,
    horizon: f32,
) -> Result<ObstacleLines, Refusal> {
    let agent = Agent {
        position: Vec2::ZERO,
        velocity: Vec2::ZERO,
    };
    obstacles::get_lines_for_agent_to_obstacle(agent, kind, vertices, count, margin, horizon)
}

// With horizon 1, as 01 has it.
fn made(kind: u8, vertices: &[f32], count: usize, margin: f32) -> Result<ObstacleLines, Refusal> {
    asked(kind, vertices, count, margin, 1.0)
}

fn is_no_line(found: Result<ObstacleLines, Refusal>) -> bool {
    let Ok(found) = found else {
        return false;
    };
    found.count == 0
}

// One line with the point, in the direction (-1, 0).
fn is_line(found: Result<ObstacleLines, Refusal>, x: f32, y: f32) -> bool {
    let Ok(found) = found else {
        return false;
    };
    let lines = found.lines;
    found.count == 1 && lines[..4] == [x, y, -1.0, 0.0]
}

fn walls(t: Tally) -> Tally {
    let wall = [-1.0, 1.0, 1.0, 1.0];
    let turned = [1.0, 1.0, -1.0, 1.0];
    let far = asked(2, &wall, 2, 2.0, 2048.0);
    t.with(is_line(made(2, &wall, 2, 2.0), 0.0, 0.0), 11)
        .with(is_line(made(2, &wall, 2, 0.5), -1.0, 0.5), 11)
        .with(is_no_line(made(2, &turned, 2, 2.0)), 11)
        .with(is_no_line(made(2, &turned, 2, 0.5)), 11)
        .with(far == Err(Refusal::OutOfRange), 11)
}

fn points(t: Tally) -> Tally {
    let aside = [5.0, 0.0];
    let near = [0.5, 0.0];
    let closed = [0.0, 5.0, 1.0, 5.0, -0.0, 5.0];
    let signed = [0.0, 5.0, -0.0, 5.0];
    let left_over = made(1, &near[..1], 0, 1.0);
    let doubled = Refusal::DoubledVertex;
    t.with(made(1, &aside, 1, 1.0) == Err(doubled), 12)
        .with(made(1, &near, 1, 1.0) == Err(doubled), 12)
        .with(made(1, &closed, 3, 1.0) == Err(doubled), 12)
        .with(made(2, &signed, 2, 1.0) == Err(doubled), 12)
        .with(left_over == Err(Refusal::MissingOrLeftOver), 12)
}

fn main(rt: HostRuntime) {
    let lists = limits(examined(causes(two_lines(single_lines(starts(Tally::NONE))))));
    points(walls(roots(lists))).tell(&rt, b"bench cases");
}
