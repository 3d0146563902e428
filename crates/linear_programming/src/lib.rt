// The linear program of a cart's velocity (the Rust's linear_programming.rs): the whole-list rules, as the single call
// over a list of lines, and taken up again at a line.
#![tactic(auto)]

ghost use Rattle.std.specs.Prelude.{◌≡◌};
ghost use Rattle.linear_programming.specs.Admit.{list_call, admitted_call};
ghost use Rattle.linear_programming.specs.Resume.{resumed_call};
ghost use Rattle.linear_programming.specs.Read.{phase_of, failed_of, outcome_of};

use admission::Refusal;
use common::Vec2;
use lines::Line;
use pass_2d::Failure;

mod judge;
mod solve_list;

// The phase that a list ends in: its point, with the penetration where it is relaxed and the failed line's index where
// that is rigid.
#[derive(Clone, Copy, Debug, PartialEq)]
pub enum Phase {
    Solving(Vec2),
    Relaxing(Vec2, f32),
    RigidFailure(usize, Vec2),
}

// How a list of lines stands: its phase, the line that failed, if any, and its probes.
#[derive(Clone, Copy, Debug, PartialEq)]
pub struct Standing {
    pub phase: Phase,
    pub failed: Option<Failure>,
    pub probes: u32,
}

// Solves a list of lines that is lent as numbers, four a line: the value nearest to the wish within the limit and the
// lines, the ones behind the first `rigid` relaxed where they cannot all be met. Refused, in this order: numbers that
// are no whole lines (2), too many lines (4), a wish or limit out of range (6), a line (6, 7), a starting point that is
// not finite (9), the solve itself (8, 9). The last two stand in 01's order, but no admitted list meets them
// (proofs/Bounds/Told).
pub fn solve_linear_program(
    numbers: &[f32],
    rigid: usize,
    limit: f32,
    wish: Vec2,
) -> Result<Standing, Refusal>
    ensures { outcome_of result ≡ list_call rigid wish limit numbers.now }
{
    judge::judge_count(numbers)?;
    judge::judge_wish(wish, limit)?;
    lines::judge_lines(numbers)?;
    solve_list::solve_from_start(numbers, rigid, limit, wish)
}

// Solves lines, lent as numbers, that were judged before, as were the wish and the limit: nothing is judged again but
// how many numbers there are, refused as by `solve_linear_program` (2, 4). Of what is not admitted 01 promises only an
// answer, which may be one that no list has.
pub fn solve_admitted_lines(
    lines: &[f32],
    rigid: usize,
    limit: f32,
    wish: Vec2,
) -> Result<Standing, Refusal>
    ensures { outcome_of result ≡ admitted_call rigid wish limit lines.now }
{
    judge::judge_count(lines)?;
    solve_list::solve_from_start(lines, rigid, limit, wish)
}

// Takes the rules up again at the line `from`, where the lines before it left `phase` and `failed`: how all of the
// first `count` lines stand then, with the probes of the lines from `from` on. Refused: more than 256 lines (4), the
// solve itself (8, 9). The arguments are a session's fields, which a start and its batches have judged: nothing is
// judged again, and of any others 01 promises only an answer, which may be one that no list has.
// kept: promised: a count over 256 is refused (4), where no slice of a session's lines could be made
pub fn resume_linear_program(
    lines: [Line; Line::MOST],
    count: usize,
    from: usize,
    rigid: usize,
    limit: f32,
    wish: Vec2,
    phase: Phase,
    failed: Option<Failure>,
) -> Result<Standing, Refusal>
    ensures { outcome_of result ≡ resumed_call rigid wish limit lines count from (phase_of phase) (failed_of failed) }
{
    Refusal::TooMany.unless(count <= Line::MOST)?;
    let mut numbers = [0.0f32; 4 * Line::MOST];
    solve_list::lay(&lines[..count], &mut numbers);
    let given = &numbers[..4 * count];
    solve_list::resume(given, from, rigid, limit, wish, phase, failed)
}
