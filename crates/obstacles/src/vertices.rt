// An obstacle's vertices, lent as numbers, two a vertex: which are convex, and the edge from each to the next.
ghost use Rattle.std.specs.Prelude.{◌≡◌, ◌/◌, ◌<◌, length};
ghost use Rattle.edges.specs.Read.{outer_of, edge_of};
ghost use Rattle.obstacles.specs.Vertices.{vertices_of, vertex_at, next_of, previous_of, is_end, convex_at, edge_vertex_at, outer_at, edge_at};

use admission::Head;
use common::Vec2;
use edges::{Edge, EdgeVertex};

pub(crate) fn vertex_at(vertices: &[f32], i: usize) -> Vec2
    requires { i < length vertices.now / 2 }
    ensures { result ≡ vertex_at (vertices_of vertices.now) i }
{
    let k = 2 * i;
    Vec2 {
        x: vertices[k],
        y: vertices[k + 1],
    }
}

// The index after one of `count` that wrap, and the index before it.
// kept: no plainer: an index, and the count that it is below
#[tactic(auto, unfolding(crate::specs::Vertices::next_of, edges::proofs::Choices::choices))]
pub(crate) fn next_index(count: usize, i: usize) -> usize
    requires { i < count }
    ensures { (result ≡ next_of count i) × (result < count) }
{
    if i == count - 1 {
        return 0;
    }
    i + 1
}

#[tactic(auto, unfolding(crate::specs::Vertices::previous_of, edges::proofs::Choices::choices))]
fn previous_index(count: usize, i: usize) -> usize
    requires { i < count }
    ensures { (result ≡ previous_of count i) × (result < count) }
{
    if i == 0 {
        return count - 1;
    }
    i - 1
}

// A vertex is convex if the right edge is on the right side of the left edge.
#[tactic(auto, unfolding(crate::specs::Vertices::convex_at))]
fn is_convex(left: Vec2, center: Vec2, right: Vec2) -> bool
    ensures { result ≡ convex_at left center right }
{
    common::determinant(right.sub(center), left.sub(center)) >= 0.0
}

// Whether a vertex is one of an open obstacle's ends.
#[tactic(auto, unfolding(crate::specs::Vertices::is_end))]
fn is_end(kind: u8, count: usize, i: usize) -> bool
    requires { i < count }
    ensures { result ≡ is_end kind count i }
{
    kind == Head::OPEN && (i == 0 || i == count - 1)
}

// An obstacle's kind, and its vertices as numbers, two a vertex.
#[derive(Clone, Copy)]
pub(crate) struct Outline<'a> {
    pub(crate) kind: u8,
    pub(crate) vertices: &'a [f32],
}

impl Outline<'_> {
    // The edge from a vertex to the next.
    #[tactic(auto, unfolding(crate::specs::Vertices::edge_at))]
    pub(crate) fn edge(self, left_index: usize) -> Edge
        requires { left_index < length self.vertices.now / 2 }
        ensures { edge_of result ≡ edge_at self.entry.kind (length self.entry.vertices.now / 2)
            (vertices_of self.entry.vertices.now) left_index }
    {
        let count = self.vertices.len() / 2;
        let right_index = next_index(count, left_index);
        let left_left_index = previous_index(count, left_index);
        let right_right_index = next_index(count, right_index);
        Edge {
            left_vertex: self.edge_vertex(left_index),
            right_vertex: self.edge_vertex(right_index),
            left_left_vertex: self.outer_vertex(left_index, 0, left_left_index),
            right_right_vertex: self.outer_vertex(right_index, count - 1, right_right_index),
        }
    }

    #[tactic(auto, unfolding(crate::specs::Vertices::edge_vertex_at))]
    fn edge_vertex(self, i: usize) -> EdgeVertex
        requires { i < length self.vertices.now / 2 }
        ensures { result ≡ edge_vertex_at self.entry.kind (length self.entry.vertices.now / 2)
            (vertices_of self.entry.vertices.now) i }
    {
        let count = self.vertices.len() / 2;
        let point = vertex_at(self.vertices, i);
        if is_end(self.kind, count, i) {
            return EdgeVertex {
                point,
                convex: true,
            };
        }
        let left = vertex_at(self.vertices, previous_index(count, i));
        let right = vertex_at(self.vertices, next_index(count, i));
        EdgeVertex {
            point,
            convex: is_convex(left, point, right),
        }
    }

    // The vertex beyond an edge's vertex: none beyond an open obstacle's end.
    #[tactic(auto, unfolding(crate::specs::Vertices::outer_at, edges::proofs::Choices::choices))]
    fn outer_vertex(self, i: usize, end: usize, beyond: usize) -> Option<Vec2>
        requires { beyond < length self.vertices.now / 2 }
        ensures { outer_of result ≡ outer_at self.entry.kind (vertices_of self.entry.vertices.now) i end beyond }
    {
        if self.kind == Head::OPEN && i == end {
            return None;
        }
        Some(vertex_at(self.vertices, beyond))
    }
}
