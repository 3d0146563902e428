// The lines that an obstacle's edges ask an agent to keep to (the Rust's obstacles.rs), and what is admitted of an
// agent and of an obstacle.
#![tactic(auto)]

ghost use Rattle.std.specs.Prelude.{◌≡◌};
ghost use Rattle.admission.specs.Faults.{fault_of};
ghost use Rattle.obstacles.specs.ObstacleFaults.{vector_fault, agent_fault, head_fault, outline_fault};
ghost use Rattle.edges.specs.Read.{outer_of};
ghost use Rattle.lines.specs.Lines.{lines_of};
ghost use Rattle.obstacles.specs.Vertices.{vertices_of};
ghost use Rattle.obstacles.specs.Doubled.{doubled, follows, closes};
ghost use Rattle.obstacles.specs.Obstacles.{obstacle_call, edge_count, line_alone, ends_of};
ghost use Rattle.obstacles.specs.Read.{admitted_of, answer_as, told_of, fault_in};

use admission::{Head, Judged, Refusal, is_inside, is_within};
use common::Vec2;
use edges::Agent;
use lines::Line;

mod judge;
mod obstacle;
mod vertices;

use obstacle::Asked;
use vertices::Outline;

// The lines of one obstacle, four numbers each, and how many they are: blank behind them.
#[derive(Clone, Copy, Debug, PartialEq)]
pub struct ObstacleLines {
    // kept: no heap
    pub lines: [f32; 256],
    pub count: usize,
}

// The lines that an obstacle asks an agent to keep to: its kind is 1 (closed) or 2 (open), it has `count` vertices, and
// the numbers are theirs, two a vertex. Refused in the order of a record's fields: position, velocity, margin or
// horizon not finite or out of range (6), another kind (3), more than 64 vertices (4), open with none (5), each
// vertex's component missing (2) or out of range (6), a vertex that is the one before it again, or the first again
// behind the last of a closed one (14), numbers left over (2); then an edge whose line is not admitted (9).
#[tactic(auto, using(crate::proofs::AnswerLaws::refusals), unfolding(crate::specs::Obstacles::obstacle_call))]
pub fn get_lines_for_agent_to_obstacle(
    agent: Agent,
    kind: u8,
    vertices: &[f32],
    // kept: promised: get_lines_for_agent_to_obstacle tells numbers that are missing or left over
    count: usize,
    margin: f32,
    horizon: f32,
) -> Result<ObstacleLines, Refusal>
    ensures answer { result ≡ answer_as (obstacle_call agent kind vertices.now count margin horizon) }
    ensures told { told_of result ≡ fault_in (obstacle_call agent kind vertices.now count margin horizon) }
{
    judge_agent(agent, margin, horizon)?;
    judge::judge_obstacle(Head { kind, count }, vertices)?;
    obstacle::lines_for_edges(Asked {
        agent,
        outline: Outline { kind, vertices },
        margin,
        horizon,
    })
}

// As many edges as vertices where the obstacle is closed, one less where it is open.
#[tactic(auto, unfolding(crate::specs::Obstacles::edge_count, edges::proofs::Choices::choices))]
pub fn edge_count(kind: u8, count: usize) -> usize
    ensures { result ≡ edge_count kind count }
{
    if kind != Head::OPEN {
        return count;
    }
    count.saturating_sub(1)
}

// The line of one edge alone, the one from a vertex to the next, for a caller that has judged agent and obstacle and
// asks edge by edge: every number is taken as it is, every kind but 2 as closed, and an odd number at the end is passed
// over. The existing lines are those that the obstacle's edges before it made. Nothing where there is no such edge;
// refused with 9 where the line is not admitted.
#[tactic(auto, unfolding(crate::specs::Obstacles::line_alone, edges::proofs::Choices::choices))]
pub fn get_line_alone(
    agent: Agent,
    kind: u8,
    vertices: &[f32],
    left_index: usize,
    margin: f32,
    horizon: f32,
    existing_lines: &[f32],
) -> Result<Option<Line>, Refusal>
    ensures { admitted_of result ≡ line_alone agent kind vertices.now left_index margin horizon
        (lines_of existing_lines.now) }
{
    if left_index < edge_count(kind, vertices.len() / 2) {
        let asked = Asked {
            agent,
            outline: Outline { kind, vertices },
            margin,
            horizon,
        };
        return obstacle::admitted_line(asked, left_index, existing_lines);
    }
    Ok(None)
}

// The ends of the edge from a vertex to the next, left and right, where there is such an edge; for a caller that has
// judged the obstacle: numbers and kind are taken as `get_line_alone` takes them.
#[tactic(auto, unfolding(crate::specs::Obstacles::ends_of, crate::specs::Vertices::edge_at, crate::specs::Vertices::edge_vertex_at, edges::proofs::Choices::choices))]
pub fn edge_ends(kind: u8, vertices: &[f32], left_index: usize) -> Option<(Vec2, Vec2)>
    ensures { result ≡ ends_of kind vertices.now left_index }
{
    let count = vertices.len() / 2;
    if left_index < edge_count(kind, count) {
        let right_index = vertices::next_index(count, left_index);
        let left = vertices::vertex_at(vertices, left_index);
        let right = vertices::vertex_at(vertices, right_index);
        return Some((left, right));
    }
    None
}

// A vector of a cart: each component not finite or out of range (6).
#[tactic(auto, unfolding(crate::specs::ObstacleFaults::vector_fault))]
pub fn judge_vector(v: Vec2) -> Judged
    ensures { fault_of result ≡ vector_fault v }
{
    Refusal::OutOfRange.unless(is_within(Vec2::REACH, v.x))?;
    Refusal::OutOfRange.unless(is_within(Vec2::REACH, v.y))
}

// An agent with the margin that it keeps and the horizon: position, velocity, margin, horizon, each not finite or out
// of range (6).
#[tactic(auto, unfolding(crate::specs::ObstacleFaults::agent_fault))]
pub fn judge_agent(agent: Agent, margin: f32, horizon: f32) -> Judged
    ensures { fault_of result ≡ agent_fault agent margin horizon }
{
    judge_vector(agent.position)?;
    judge_vector(agent.velocity)?;
    Refusal::OutOfRange.unless(is_inside(0.0, Vec2::LONGEST, margin))?;
    let ahead = is_inside(Agent::SHORTEST_HORIZON, Agent::LONGEST_HORIZON, horizon);
    Refusal::OutOfRange.unless(ahead)
}

// An obstacle's kind (3), its count behind the `total` vertices of the obstacles before it (4), open with no vertices (5).
#[tactic(auto, unfolding(crate::specs::ObstacleFaults::head_fault))]
pub fn judge_head(total: usize, head: Head) -> Judged
    ensures { fault_of result ≡ head_fault total head }
{
    Refusal::UnknownKind.unless(Head::is_kind(head.kind))?;
    Refusal::TooMany.unless(Head::has_room(total, head.count))?;
    Refusal::NoVertices.unless(!Head::is_empty_open(head.kind, head.count))
}

// An obstacle's vertices, the first of the numbers, two a vertex: each component missing (2), not finite or out of
// range (6), then a vertex that is the one before it again (14); behind the last, in a closed obstacle, that it is the
// first again (14). Numbers behind them are not looked at.
#[tactic(auto, unfolding(crate::specs::ObstacleFaults::outline_fault))]
pub fn judge_outline(head: Head, vertices: &[f32]) -> Judged
    ensures { fault_of result ≡ outline_fault head vertices.now }
{
    judge::judge_vertices(vertices, head.count)?;
    Refusal::DoubledVertex.unless(may_close(head.kind, &vertices[..2 * head.count]))
}

// Whether a vertex may stand behind the one before it, which it must not be again, by value: zeros of either sign are
// equal. Before the first there is none.
#[tactic(auto, unfolding(crate::specs::Doubled::follows, crate::specs::Doubled::doubled, common::specs::Vectors::eq_of))]
pub fn may_follow(previous: Option<Vec2>, vertex: Vec2) -> bool
    ensures { result ≡ follows (outer_of previous) vertex }
{
    match previous {
        None => true,
        Some(before) => before != vertex,
    }
}

// Whether an obstacle's last vertex may stand before its first, which in a closed obstacle it must not be again: so one
// of a single vertex may not. Every kind but 2 is taken as closed, and an odd number at the end is passed over.
pub fn may_close(kind: u8, vertices: &[f32]) -> bool
    ensures { result ≡ closes kind (vertices_of vertices.now) }
{
    let count = vertices.len() / 2;
    if count < 1 {
        return true;
    }
    if kind == Head::OPEN {
        return true;
    }
    let last = vertices::vertex_at(vertices, count - 1);
    let first = vertices::vertex_at(vertices, 0);
    last != first
}
