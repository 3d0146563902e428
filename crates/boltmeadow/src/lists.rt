// A list of lines solved in one call.
ghost use Rattle.std.specs.Prelude.{◌≡◌};
ghost use Rattle.common.specs.Vectors.{vec};
ghost use Rattle.admission.specs.Refusals.{number_of};
ghost use Rattle.linear_programming.specs.Admit.{list_call};
ghost use Rattle.boltmeadow.specs.Lists.{refused_list, standing_with, standing_by, standing_told};

use admission::Refusal;
use common::Vec2;
use linear_programming::{Phase, Standing};
use pass_2d::Failure;

// How a list stands: the phase, its point and penetration (0 where it is not relaxing), the cause of the failed line (0
// where none failed), its index and the earlier line that the cause names, and the probes. Beside a refusal all else is
// 0.
#[repr(C)]
#[derive(Clone, Copy)]
pub struct BmStanding {
    pub refusal: u32,
    pub phase: u32,
    pub x: f32,
    pub y: f32,
    pub penetration: f32,
    pub cause: u32,
    pub failed_line: usize,
    pub cause_line: usize,
    pub probes: u32,
}

// How a list of lines, four numbers each, stands, the first `rigid` of them never relaxed; or the number of its refusal, as
// `linear_programming::solve_linear_program` refuses.
#[tactic(auto, unfolding(crate::specs::Lists::standing_by))]
#[unsafe(no_mangle)]
pub extern "C" fn bm_solve_list(
    lines: &[f32],
    rigid: usize,
    wish_x: f32,
    wish_y: f32,
    limit: f32,
) -> BmStanding
    ensures { result ≡ standing_told (list_call rigid (vec wish_x wish_y) limit lines.now) }
{
    let wish = Vec2 {
        x: wish_x,
        y: wish_y,
    };
    match linear_programming::solve_linear_program(lines, rigid, limit, wish) {
        Ok(stands) => standing(stands),
        Err(refusal) => refused(refusal),
    }
}

#[tactic(auto, unfolding(crate::specs::Lists::standing_by))]
fn standing(stands: Standing) -> BmStanding
    ensures { result ≡ standing_by stands.phase stands.failed stands.probes }
{
    let failed = stands.failed;
    let probes = stands.probes;
    match stands.phase {
        Phase::Solving(p) => standing_with(0, p, 0.0, failed, probes),
        Phase::Relaxing(p, depth) => standing_with(1, p, depth, failed, probes),
        Phase::RigidFailure(_, p) => standing_with(2, p, 0.0, failed, probes),
    }
}

#[tactic(auto, unfolding(crate::specs::Lists::standing_with))]
fn standing_with(
    phase: u32,
    point: Vec2,
    penetration: f32,
    failed: Option<Failure>,
    probes: u32,
) -> BmStanding
    ensures { result ≡ standing_with phase point.x point.y penetration failed probes }
{
    let cause = plain_numbers::failed_kind(failed) as u32;
    let failed_line = plain_numbers::failed_index(failed);
    let cause_line = plain_numbers::failed_cause(failed);
    BmStanding {
        refusal: 0,
        phase,
        x: point.x,
        y: point.y,
        penetration,
        cause,
        failed_line,
        cause_line,
        probes,
    }
}

#[tactic(auto, unfolding(crate::specs::Lists::refused_list))]
fn refused(refusal: Refusal) -> BmStanding
    ensures { result ≡ refused_list (number_of refusal) }
{
    BmStanding {
        refusal: u32::from(refusal.number()),
        phase: 0,
        x: 0.0,
        y: 0.0,
        penetration: 0.0,
        cause: 0,
        failed_line: 0,
        cause_line: 0,
        probes: 0,
    }
}
