// The obstacles: kind, vertex count and vertices of each, none doubled, with the running total of vertices.
ghost use Rattle.std.specs.Prelude.{◌≡◌, ◌+◌, ◌*◌, ◌≤◌, length, IfOk};
ghost use Rattle.std.proofs.lemmas.List.Edits.{sets};
ghost use Rattle.edges.specs.Read.{outer_of};
ghost use Rattle.obstacles.specs.Doubled.{none_before};
ghost use Rattle.scene_records.specs.Steps.{read_of, told};
ghost use Rattle.scene_records.specs.Parts.{head, coordinates, vertex as vertexOf, vertices_at, outline, stored, obstacles, walls, stored_walls};

use crate::Read;
use crate::steps::{self, Rule};
use admission::{Head, Refusal};
use common::Vec2;

// An obstacle's kind and vertex count, behind a total of vertices.
#[tactic(auto, using(crate::proofs::Chains::heads), unfolding(crate::specs::Parts::head))]
fn head_at(bytes: &[u8], at: usize, total: usize) -> Read<Head>
    ensures reads { read_of result ≡ head bytes.now total at }
    ensures fits { IfOk result (λ read. (read.0.count ≤ 64) × (total + read.0.count ≤ 192)) }
{
    let (kind, at) = steps::byte_at(bytes, at)?;
    Refusal::UnknownKind.unless(Head::is_kind(kind))?;
    let (byte, at) = steps::byte_at(bytes, at)?;
    let count = usize::from(byte);
    Refusal::TooMany.unless(Head::has_room(total, count))?;
    Refusal::NoVertices.unless(!Head::is_empty_open(kind, count))?;
    Ok((Head { kind, count }, at))
}

// Stores a vertex at an index.
fn put(vertices: &mut [f32], i: usize, vertex: Vec2)
    requires { 2 * i + 2 ≤ length vertices.old }
    ensures { vertices.new ≡ sets vertices.old (2 * i) (coordinates vertex) }
{
    vertices[2 * i] = vertex.x;
    vertices[2 * i + 1] = vertex.y;
}

// A vertex, which must not be the one before it again (14).
#[tactic(auto, using(crate::proofs::Chains::chain), unfolding(crate::specs::Parts::vertex))]
fn vertex_at(bytes: &[u8], at: usize, previous: Option<Vec2>) -> Read<Vec2>
    ensures { read_of result ≡ vertexOf bytes.now (outer_of previous) at }
{
    let (vertex, at) = steps::vector_at(bytes, at, Rule::Within(Vec2::REACH))?;
    Refusal::DoubledVertex.unless(obstacles::may_follow(previous, vertex))?;
    Ok((vertex, at))
}

// Stores as many vertices as `count` from the vertex `start` on, each behind the one before it.
fn vertices_at(
    bytes: &[u8],
    at: usize,
    count: usize,
    start: usize,
    vertices: &mut [f32],
) -> Result<usize, Refusal>
    requires { 2 * (start + count) ≤ length vertices.old }
    ensures { told result vertices.new
        ≡ stored coordinates vertices.old (2 * start) (vertices_at bytes.now none_before count at) }
{
    let mut next = at;
    let mut previous = None;
    for i in 0..count {
        let (vertex, behind) = vertex_at(bytes, next, previous)?;
        put(vertices, start + i, vertex);
        previous = Some(vertex);
        next = behind;
    }
    Ok(next)
}

// Stores an obstacle's vertices from the vertex `start` on: the last must not be the first of a closed obstacle again (14).
fn outline_at(
    bytes: &[u8],
    at: usize,
    head: Head,
    start: usize,
    vertices: &mut [f32],
) -> Result<usize, Refusal>
    requires { 2 * (start + head.count) ≤ length vertices.old }
    ensures { told result vertices.new
        ≡ stored coordinates vertices.old (2 * start) (outline bytes.now head at) }
{
    let at = vertices_at(bytes, at, head.count, start, vertices)?;
    let outline = &vertices[2 * start..2 * (start + head.count)];
    let closes = obstacles::may_close(head.kind, outline);
    Refusal::DoubledVertex.unless(closes)?;
    Ok(at)
}

// Stores as many obstacles as `count`, one behind the other.
pub(crate) fn obstacles_at(
    bytes: &[u8],
    at: usize,
    count: usize,
    kinds: &mut [u8],
    counts: &mut [u8],
    vertices: &mut [f32],
) -> Result<usize, Refusal>
    requires { (count ≤ length kinds.old) × (count ≤ length counts.old) × (384 ≤ length vertices.old) }
    ensures { told result (walls kinds.new counts.new vertices.new)
        ≡ stored_walls (walls kinds.old counts.old vertices.old) 0 0 (obstacles bytes.now count 0 at) }
{
    let mut next = at;
    let mut total = 0;
    for i in 0..count {
        let (head, behind) = head_at(bytes, next, total)?;
        next = outline_at(bytes, behind, head, total, vertices)?;
        kinds[i] = head.kind;
        counts[i] = head.count as u8;
        total += head.count;
    }
    Ok(next)
}
