// Whether a move from one position to another crosses an edge of lent obstacles (02, T-08).
#![tactic(auto)]

ghost use Rattle.std.specs.Prelude.{◌≡◌, ◌+◌, ◌/◌, ◌≤◌, ◌<◌, length};
ghost use Rattle.admission.specs.Faults.{fine, fault_of};
ghost use Rattle.obstacles.specs.Obstacles.{ends_of};
ghost use Rattle.layouts.specs.Layouts.{lent_fault};
ghost use Rattle.wall_check.specs.Crossings.{are_within, crosses, own_walls, walls_of, crossed_in, one_more, found_in, behind, count_in, move_fault, checked_move, known_of, check_of};

use admission::{Judged, Refusal, is_inside};
use common::Vec2;
use obstacles::judge_vector;

// The first crossed edge, by its obstacle and its left vertex, and how many edges are crossed.
#[derive(Clone, Copy, Debug, PartialEq, Eq)]
pub struct Crossing {
    pub obstacle: usize,
    pub vertex: usize,
    pub count: usize,
}

// Checks a move over all edges of the obstacles, in order, whichever side of them it comes from; none may be crossed.
// An edge is crossed where the lines of move and edge meet at times that both lie from 0 to 1, ends counted; a move
// along an edge, or of no length, is parallel to it and does not cross it. Refused: a component of a position that is
// not finite or out of range (6), `from` before `to`; then the obstacles as `layouts::judge_layout` tells them (4, 2,
// 3, 5, 6, 14); then kinds, counts or vertices lent beyond the counts (2).
#[tactic(auto, unfolding(crate::specs::Crossings::checked_move))]
// kept: promised: check_move: lent obstacles are four arguments.
pub fn check_move(
    from: Vec2,
    to: Vec2,
    obstacles: usize,
    kinds: &[u8],
    counts: &[u8],
    vertices: &[f32],
) -> Result<Option<Crossing>, Refusal>
    ensures { check_of result ≡ checked_move from to obstacles kinds.now counts.now vertices.now }
{
    judge_move(from, to, obstacles, kinds, counts, vertices)?;
    let path = Move { from, to };
    Ok(check_obstacles(path, obstacles, kinds, counts, vertices))
}

// The two positions, the obstacles, then what is lent beyond the counts.
#[tactic(auto, unfolding(crate::specs::Crossings::move_fault))]
fn judge_move(
    from: Vec2,
    to: Vec2,
    obstacles: usize,
    kinds: &[u8],
    counts: &[u8],
    vertices: &[f32],
) -> Judged
    ensures { fault_of result ≡ move_fault from to obstacles kinds.now counts.now
        vertices.now }
{
    judge_vector(from)?;
    judge_vector(to)?;
    let total = layouts::judge_layout(obstacles, kinds, counts, vertices)?;
    layouts::judge_leftovers(obstacles, total, kinds, counts, vertices)
}

#[derive(Clone, Copy)]
struct Move {
    from: Vec2,
    to: Vec2,
}

// Whether there are times, and both lie from 0 to 1. A NaN does not.
#[tactic(auto, unfolding(crate::specs::Crossings::are_within))]
fn are_within(times: Option<Vec2>) -> bool
    ensures { result ≡ are_within times }
{
    times.is_some_and(|at| is_inside(0.0, 1.0, at.x) && is_inside(0.0, 1.0, at.y))
}

// Whether the move crosses the edge with these ends.
#[tactic(auto, unfolding(crate::specs::Crossings::crosses))]
fn is_crossed(path: Move, ends: Option<(Vec2, Vec2)>) -> bool
    ensures { result ≡ crosses path.from path.to ends }
{
    let Some((left, right)) = ends else {
        return false;
    };
    are_within(common::time_to_intersect_lines(path.from, path.to, left, right))
}

// What is known behind one edge more, of the obstacle and from the vertex.
#[tactic(auto, unfolding(crate::specs::Crossings::one_more))]
fn note_edge(
    known: Option<Crossing>,
    crossed: bool,
    obstacle: usize,
    vertex: usize,
) -> Option<Crossing>
    requires { count_in (known_of known) < 192 }
    ensures { (known_of result ≡ one_more (known_of known) crossed obstacle vertex)
        × (count_in (known_of result) ≤ count_in (known_of known) + 1) }
{
    if !crossed {
        return known;
    }
    match known {
        Some(first) => Some(Crossing {
            count: first.count + 1,
            ..first
        }),
        None => Some(Crossing {
            obstacle,
            vertex,
            count: 1,
        }),
    }
}

// What is known behind all edges of an obstacle, whose vertices are lent alone: from each vertex there is one edge, or none.
fn check_edges(
    path: Move,
    obstacle: usize,
    kind: u8,
    vertices: &[f32],
    before: Option<Crossing>,
) -> Option<Crossing>
    requires { count_in (known_of before) + length vertices.now / 2 ≤ 192 }
    ensures { (known_of result ≡ behind (known_of before) (crossed_in path.from path.to (own_walls obstacle kind vertices.now)))
        × (count_in (known_of result) ≤ count_in (known_of before) + length vertices.now / 2) }
{
    let mut known = before;
    for i in 0..vertices.len() / 2 {
        let ends = obstacles::edge_ends(kind, vertices, i);
        known = note_edge(known, is_crossed(path, ends), obstacle, i);
    }
    known
}

// The check over obstacles that are not at fault.
fn check_obstacles(
    path: Move,
    obstacles: usize,
    kinds: &[u8],
    counts: &[u8],
    vertices: &[f32],
) -> Option<Crossing>
    requires { lent_fault 0 obstacles kinds.now counts.now vertices.now ≡ fine }
    ensures { known_of result ≡ found_in (crossed_in path.from path.to (walls_of 0 obstacles kinds.now counts.now
        vertices.now)) }
{
    let mut known = None;
    let mut total = 0usize;
    for i in 0..obstacles {
        let end = total + usize::from(counts[i]);
        known = check_edges(path, i, kinds[i], &vertices[2 * total..2 * end], known);
        total = end;
    }
    known
}
