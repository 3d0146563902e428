// Relaxation (01, "Relaxation"; the Rust's linear_programming.rs): where the lines cannot all be met, those that are
// not rigid move back at the same speed, until the value that violates them least is found.
#![tactic(auto)]

ghost use Rattle.std.specs.Prelude.{◌≡◌, take};
ghost use Rattle.lines.specs.Lines.{lines_of};
ghost use Rattle.relaxation.specs.Calls.{resumed_relaxation};
ghost use Rattle.relaxation.specs.Read.{relaxed_of};

use admission::Refusal;
use common::Vec2;
use lines::Line;

mod solve_3d;

// Relaxation so far, with its probes.
#[derive(Clone, Copy, Debug, PartialEq)]
pub struct LinearProgram3D {
    pub point: Vec2,
    pub penetration: f32,
    pub probes: u32,
}

// Relaxation from the line `from` on, where the lines before it left `value` and `penetration`: how it stands after the
// first `count` lines, which are lent as numbers, four a line, with the probes of those from `from` on. Refused: more
// than 256 lines (4), a value or a penetration that is not finite (9), an inner solve (8, 9).
pub fn solve_linear_program_3d(
    lines: &[f32],
    rigid: usize,
    from: usize,
    count: usize,
    radius: f32,
    value: Vec2,
    penetration: f32,
) -> Result<LinearProgram3D, Refusal>
    ensures { relaxed_of result ≡ resumed_relaxation rigid radius (take count (lines_of lines.now)) from value
        penetration }
{
    let lines = &lines[..4 * lines::count_given(lines, count)];
    Refusal::TooMany.unless(lines.len() / 4 <= Line::MOST)?;
    solve_3d::relax_from(lines, rigid, from, radius, value, penetration)
}
