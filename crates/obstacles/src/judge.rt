// What is admitted of an obstacle whose vertices are lent as numbers, two a vertex.
ghost use Rattle.std.specs.Prelude.{◌≡◌, ◌*◌, ◌≤◌, length, drop};
ghost use Rattle.admission.specs.Faults.{fault_of, within};
ghost use Rattle.common.specs.Vectors.{reach};
ghost use Rattle.edges.specs.Read.{outer_of};
ghost use Rattle.obstacles.specs.Doubled.{none_before};
ghost use Rattle.obstacles.specs.ObstacleFaults.{number_fault, components_fault, vertex_fault, vertices_fault, obstacle_fault};

use crate::vertices::vertex_at;
use crate::{judge_head, judge_outline, may_follow};
use admission::{Head, Judged, Refusal, is_within};
use common::Vec2;

// A vertex's component: missing (2), not finite or out of range (6).
fn judge_number(numbers: &[f32], at: usize) -> Judged
    ensures { fault_of result ≡ number_fault (within reach) (drop at numbers.now) }
{
    if at < numbers.len() {
        return Refusal::OutOfRange.unless(is_within(Vec2::REACH, numbers[at]));
    }
    Err(Refusal::MissingOrLeftOver)
}

// The components of the vertex at an index, behind as many vertices that are there.
#[tactic(auto, unfolding(crate::specs::ObstacleFaults::components_fault))]
fn judge_components(vertices: &[f32], i: usize) -> Judged
    requires { 2 * i ≤ length vertices.now }
    ensures { fault_of result ≡ components_fault (drop (2 * i) vertices.now) }
{
    let k = 2 * i;
    judge_number(vertices, k)?;
    judge_number(vertices, k + 1)
}

// The vertex at an index: its components, then whether it is the one before it again (14).
#[tactic(auto, unfolding(crate::specs::ObstacleFaults::vertex_fault))]
fn judge_vertex(previous: Option<Vec2>, vertices: &[f32], i: usize) -> Judged
    requires { 2 * i ≤ length vertices.now }
    ensures { fault_of result ≡ vertex_fault (outer_of previous) (drop (2 * i) vertices.now) }
{
    judge_components(vertices, i)?;
    Refusal::DoubledVertex.unless(may_follow(previous, vertex_at(vertices, i)))
}

// The first `count` vertices, each behind the one before it.
pub(crate) fn judge_vertices(vertices: &[f32], count: usize) -> Judged
    ensures { fault_of result ≡ vertices_fault none_before count vertices.now }
{
    let mut previous = None;
    for i in 0..count {
        judge_vertex(previous, vertices, i)?;
        previous = Some(vertex_at(vertices, i));
    }
    Ok(())
}

// The first fault of an obstacle that is lent alone: its head, its vertices (2, 6, 14), numbers left over (2).
#[tactic(auto, unfolding(crate::specs::ObstacleFaults::obstacle_fault))]
pub(crate) fn judge_obstacle(head: Head, vertices: &[f32]) -> Judged
    ensures { fault_of result ≡ obstacle_fault head vertices.now }
{
    judge_head(0, head)?;
    judge_outline(head, vertices)?;
    Refusal::MissingOrLeftOver.unless(vertices.len() <= 2 * head.count)
}
