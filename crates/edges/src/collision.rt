// An agent that is nearer to the edge than the margin: it collides, and its line cuts off every velocity that goes deeper.
ghost use Rattle.std.specs.Prelude.{◌≡◌};
ghost use Rattle.edges.specs.Collision.{shape_of, in_unit, reaches as reached, corner_line, next_handles, right_corner_line};
ghost use Rattle.edges.specs.Read.{outer_of, edge_of, edge_line_of};

use crate::{Edge, EdgeShape, EdgeVertex};
use common::Vec2;
use lines::Line;

#[tactic(auto, unfolding(crate::specs::Collision::shape_of))]
pub(crate) fn edge_shape(
    relative_left_vertex: Vec2,
    relative_right_vertex: Vec2,
    edge_vector: Vec2,
    margin: f32,
) -> EdgeShape
    ensures { result ≡ shape_of relative_left_vertex relative_right_vertex edge_vector margin }
{
    let agent_from_left_vertex = relative_left_vertex.neg();
    let edge_t = agent_from_left_vertex.dot(edge_vector) / edge_vector.length_squared();
    let dist_to_edge_line_squared = edge_vector
        .mul(edge_t)
        .distance_squared(agent_from_left_vertex);
    EdgeShape {
        relative_left_vertex,
        relative_right_vertex,
        edge_unit_vector: edge_vector.normalize(),
        dist_left_squared: relative_left_vertex.length_squared(),
        dist_right_squared: relative_right_vertex.length_squared(),
        squared_radius: margin * margin,
        edge_t,
        dist_to_edge_line_squared,
    }
}

// Whether a time lies on the edge, its ends included.
#[tactic(auto, unfolding(crate::specs::Collision::in_unit))]
pub(crate) fn in_unit(t: f32) -> bool
    ensures { result ≡ in_unit t }
{
    0.0 <= t && t <= 1.0
}

// Whether the agent is where a test says and no farther away than the margin.
#[tactic(auto, unfolding(crate::specs::Collision::reaches))]
pub(crate) fn reaches(there: bool, distance_squared: f32, squared_radius: f32) -> bool
    ensures { result ≡ reached there distance_squared squared_radius }
{
    there && distance_squared <= squared_radius
}

// The line of a collision with an edge's vertex: across the way to a convex one, else along the edge, so that no edge
// is left by going deeper into the other.
#[tactic(auto, unfolding(crate::specs::Collision::corner_line, crate::proofs::Choices::choices))]
pub(crate) fn corner_line(convex: bool, relative_vertex: Vec2, edge_unit_vector: Vec2) -> Line
    ensures { result ≡ corner_line convex relative_vertex edge_unit_vector }
{
    if convex {
        return Line::new(Vec2::ZERO, relative_vertex.perp().normalize());
    }
    Line::new(Vec2::ZERO, edge_unit_vector.neg())
}

// Whether the next edge goes to the right of a convex right vertex, and so takes the collision over.
#[tactic(auto, unfolding(crate::specs::Collision::next_handles))]
fn is_handled_by_next(
    right_vertex: EdgeVertex,
    relative_right_vertex: Vec2,
    right_right_vertex: Option<Vec2>,
) -> bool
    ensures { result ≡ next_handles right_vertex relative_right_vertex (outer_of right_right_vertex) }
{
    let Some(vertex) = right_right_vertex else {
        return false;
    };
    let next_edge = vertex.sub(right_vertex.point);
    right_vertex.convex && common::determinant(relative_right_vertex, next_edge) < 0.0
}

// The line of a collision with the right vertex, unless the next edge handles it.
#[tactic(auto, unfolding(crate::specs::Collision::right_corner_line, crate::proofs::Choices::choices))]
pub(crate) fn right_corner_line(edge: Edge, shape: EdgeShape) -> Option<Line>
    ensures { edge_line_of result ≡ right_corner_line (edge_of edge) shape }
{
    let right_vertex = edge.right_vertex;
    let right_right_vertex = edge.right_right_vertex;
    let relative = shape.relative_right_vertex;
    if is_handled_by_next(right_vertex, relative, right_right_vertex) {
        return None;
    }
    Some(corner_line(right_vertex.convex, relative, shape.edge_unit_vector))
}
