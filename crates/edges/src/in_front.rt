// The line of an edge that the agent is in front of: the collisions first, then what of the edge and its shadow the
// velocity is nearest to.
ghost use Rattle.std.specs.Prelude.{◌≡◌};
ghost use Rattle.edges.specs.EdgeLines.{is_degenerate, alone as aloneOf, line_for_shadows, line_of_vertex, line_of_edge, line_past, line_in_front};
ghost use Rattle.edges.specs.Read.{side_of, edge_of, edge_line_of};

use crate::{Edge, EdgeShape, Keeper, Side, collision, cutoffs, shadows};
use common::Vec2;
use lines::Line;

// Whether both ends of an edge are the same point.
#[tactic(auto, unfolding(crate::specs::EdgeLines::is_degenerate, common::specs::Vectors::eq_of))]
fn is_degenerate(edge: Edge) -> bool
    ensures { result ≡ is_degenerate (edge_of edge) }
{
    edge.left_vertex.point == edge.right_vertex.point
}

// The line beside the edge's shadow, whose vertices and directions are decided.
#[tactic(auto, unfolding(crate::specs::EdgeLines::line_for_shadows))]
fn line_for_shadows(
    keeper: Keeper,
    edge: Edge,
    is_degenerate_edge: bool,
    left_direction: Vec2,
    right_direction: Vec2,
) -> Option<Line>
    ensures { edge_line_of result ≡ line_for_shadows keeper.agent (edge_of edge) is_degenerate_edge left_direction
        right_direction keeper.margin keeper.horizon }
{
    let Edge {
        left_vertex,
        right_vertex,
        left_left_vertex,
        right_right_vertex,
    } = edge;
    let left = shadows::shadow_beside(Side::Left, left_vertex, left_left_vertex, left_direction);
    let right = shadows::shadow_beside(
        Side::Right,
        right_vertex,
        right_right_vertex,
        right_direction,
    );
    let cutoff = cutoffs::cut_off(
        keeper.agent,
        left_vertex.point,
        right_vertex.point,
        is_degenerate_edge,
        left.direction,
        right.direction,
        keeper.horizon,
    );
    let reach = keeper.margin / keeper.horizon;
    cutoffs::choose_line(keeper.agent.velocity, cutoff, left, right, reach)
}

// The edge as the vertex on one side shadows it: that vertex stands for both, and the other one lies beyond it.
#[tactic(auto, unfolding(crate::specs::EdgeLines::alone))]
fn alone(side: Side, edge: Edge) -> Edge
    ensures { edge_of result ≡ aloneOf (side_of side) (edge_of edge) }
{
    match side {
        Side::Left => Edge {
            right_vertex: edge.left_vertex,
            right_right_vertex: Some(edge.right_vertex.point),
            ..edge
        },
        Side::Right => Edge {
            left_vertex: edge.right_vertex,
            left_left_vertex: Some(edge.left_vertex.point),
            ..edge
        },
    }
}

// The line where the vertex on one side shadows the whole edge. None for a concave vertex: another edge is in front of this one.
#[tactic(auto, unfolding(crate::specs::EdgeLines::line_of_vertex, crate::proofs::Choices::choices))]
fn line_of_vertex(
    keeper: Keeper,
    side: Side,
    edge: Edge,
    relative_vertex: Vec2,
    dist_squared: f32,
) -> Option<Line>
    ensures { edge_line_of result ≡ line_of_vertex keeper.agent (side_of side) (edge_of edge) relative_vertex
        dist_squared keeper.margin keeper.horizon }
{
    let vertex = alone(side, edge);
    if !vertex.left_vertex.convex {
        return None;
    }
    let margin = keeper.margin;
    let left = shadows::tangent_direction(Side::Left, relative_vertex, dist_squared, margin);
    let right = shadows::tangent_direction(Side::Right, relative_vertex, dist_squared, margin);
    line_for_shadows(keeper, vertex, is_degenerate(vertex), left, right)
}

// The line where both vertices define the shadow, each its own side.
#[tactic(auto, unfolding(crate::specs::EdgeLines::line_of_edge))]
fn line_of_edge(keeper: Keeper, edge: Edge, shape: EdgeShape) -> Option<Line>
    ensures { edge_line_of result ≡ line_of_edge keeper.agent (edge_of edge) shape keeper.margin keeper.horizon }
{
    let left = shadows::shadow_direction(
        Side::Left,
        edge.left_vertex.convex,
        shape.relative_left_vertex,
        shape.dist_left_squared,
        keeper.margin,
        shape.edge_unit_vector,
    );
    let right = shadows::shadow_direction(
        Side::Right,
        edge.right_vertex.convex,
        shape.relative_right_vertex,
        shape.dist_right_squared,
        keeper.margin,
        shape.edge_unit_vector,
    );
    line_for_shadows(keeper, edge, is_degenerate(edge), left, right)
}

// The agent does not collide: the line covers what of the edge's velocity obstacle the velocity is nearest to.
#[tactic(auto, unfolding(crate::specs::EdgeLines::line_past, crate::proofs::Choices::choices))]
fn line_past(keeper: Keeper, edge: Edge, shape: EdgeShape) -> Option<Line>
    ensures { edge_line_of result ≡ line_past keeper.agent (edge_of edge) shape keeper.margin keeper.horizon }
{
    let dist_line = shape.dist_to_edge_line_squared;
    if collision::reaches(shape.edge_t < 0.0, dist_line, shape.squared_radius) {
        let relative = shape.relative_left_vertex;
        return line_of_vertex(keeper, Side::Left, edge, relative, shape.dist_left_squared);
    }
    if collision::reaches(shape.edge_t > 1.0, dist_line, shape.squared_radius) {
        let relative = shape.relative_right_vertex;
        return line_of_vertex(
            keeper,
            Side::Right,
            edge,
            relative,
            shape.dist_right_squared,
        );
    }
    line_of_edge(keeper, edge, shape)
}

// The agent is in front of the edge, and no line covers it: first the collisions with the left vertex, the right one,
// and the edge between them.
#[tactic(auto, unfolding(crate::specs::EdgeLines::line_in_front, crate::proofs::Choices::choices))]
pub(crate) fn line_in_front(keeper: Keeper, edge: Edge, shape: EdgeShape) -> Option<Line>
    ensures { edge_line_of result ≡ line_in_front keeper.agent (edge_of edge) shape keeper.margin keeper.horizon }
{
    let unit = shape.edge_unit_vector;
    let radius = shape.squared_radius;
    if collision::reaches(shape.edge_t < 0.0, shape.dist_left_squared, radius) {
        let relative = shape.relative_left_vertex;
        return Some(collision::corner_line(edge.left_vertex.convex, relative, unit));
    }
    if collision::reaches(shape.edge_t > 1.0, shape.dist_right_squared, radius) {
        return collision::right_corner_line(edge, shape);
    }
    let beside = collision::in_unit(shape.edge_t);
    if collision::reaches(beside, shape.dist_to_edge_line_squared, radius) {
        return Some(Line::new(Vec2::ZERO, unit.neg()));
    }
    line_past(keeper, edge, shape)
}
