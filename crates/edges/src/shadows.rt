// The shadow of an edge in velocity space: the directions of its two sides, and whether the edges beyond cover them.
ghost use Rattle.std.specs.Prelude.{◌≡◌};
ghost use Rattle.edges.specs.Shadows.{tangent, side_direction, is_beyond, shadow_beside};
ghost use Rattle.edges.specs.Read.{outer_of, side_of};

use crate::{EdgeVertex, Shadow, Side};
use common::Vec2;

// The direction of a side's tangent to the circle of the margin around a vertex.
#[tactic(auto, unfolding(crate::specs::Shadows::tangent))]
pub(crate) fn tangent_direction(
    side: Side,
    relative_vertex: Vec2,
    dist_squared: f32,
    margin: f32,
) -> Vec2
    ensures { result ≡ tangent (side_of side) relative_vertex dist_squared margin }
{
    let tangent_triangle_leg = arithmetic::sqrt(dist_squared - margin * margin);
    let along = relative_vertex.mul(tangent_triangle_leg);
    let across = relative_vertex.perp().mul(margin);
    match side {
        Side::Left => along.add(across).div(dist_squared),
        Side::Right => along.sub(across).div(dist_squared),
    }
}

// The direction of a side of the shadow: its vertex's tangent, or where that is concave the edge itself, so that both
// its edges extend the shadow alike.
#[tactic(auto, unfolding(crate::specs::Shadows::extended, crate::specs::Shadows::side_direction, crate::proofs::Choices::choices))]
pub(crate) fn shadow_direction(
    side: Side,
    convex: bool,
    relative_vertex: Vec2,
    dist_squared: f32,
    margin: f32,
    edge_unit_vector: Vec2,
) -> Vec2
    ensures { result ≡ side_direction (side_of side) convex relative_vertex dist_squared margin edge_unit_vector }
{
    if convex {
        return tangent_direction(side, relative_vertex, dist_squared, margin);
    }
    match side {
        Side::Left => edge_unit_vector.neg(),
        Side::Right => edge_unit_vector,
    }
}

// Whether the edge beyond lies outside the shadow's side, and so covers it.
#[tactic(auto, unfolding(crate::specs::Shadows::is_beyond))]
fn is_beyond(side: Side, direction: Vec2, outer_edge: Vec2) -> bool
    ensures { result ≡ is_beyond (side_of side) direction outer_edge }
{
    match side {
        Side::Left => common::determinant(direction, outer_edge) >= 0.0,
        Side::Right => common::determinant(direction, outer_edge) <= 0.0,
    }
}

// A side of the shadow beside the edge beyond: that edge's direction where it covers the side.
#[tactic(auto, unfolding(crate::specs::Shadows::shadow_beside, crate::proofs::Choices::choices))]
pub(crate) fn shadow_beside(
    side: Side,
    vertex: EdgeVertex,
    outer_vertex: Option<Vec2>,
    direction: Vec2,
) -> Shadow
    ensures { result ≡ shadow_beside (side_of side) vertex (outer_of outer_vertex) direction }
{
    let open = Shadow {
        direction,
        covered: false,
    };
    let Some(point) = outer_vertex else {
        return open;
    };
    let outer_edge = point.sub(vertex.point);
    if vertex.convex && is_beyond(side, direction, outer_edge) {
        return Shadow {
            direction: outer_edge.normalize(),
            covered: true,
        };
    }
    open
}
