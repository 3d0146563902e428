// The line that one edge of an obstacle asks an agent to keep to (the Rust's obstacles.rs, `get_line_for_agent_to_edge`
// and what it calls).
#![tactic(auto)]

ghost use Rattle.std.specs.Prelude.{◌≡◌};
ghost use Rattle.lines.specs.Lines.{lines_of};
ghost use Rattle.edges.specs.EdgeLines.{line_for_edge};
ghost use Rattle.edges.specs.Read.{edge_of, edge_line_of};

use common::Vec2;
use lines::Line;

mod collision;
mod cover;
mod cutoffs;
mod in_front;
mod shadows;

#[derive(Clone, Copy, Debug, PartialEq)]
pub struct Agent {
    pub position: Vec2,
    pub velocity: Vec2,
}

impl Agent {
    // The ends of the time for which an agent keeps clear of an obstacle: 1/1,024 to 1,024.
    pub const SHORTEST_HORIZON: f32 = 0.0009765625;

    pub const LONGEST_HORIZON: f32 = 1024.0;
}

// An end of an edge, and whether the obstacle is convex there.
#[derive(Clone, Copy, Debug, PartialEq)]
pub struct EdgeVertex {
    pub point: Vec2,
    pub convex: bool,
}

// An edge with the vertices beyond its ends, where there are some.
#[derive(Clone, Copy, Debug, PartialEq)]
pub struct Edge {
    pub left_vertex: EdgeVertex,
    pub right_vertex: EdgeVertex,
    pub left_left_vertex: Option<Vec2>,
    pub right_right_vertex: Option<Vec2>,
}

impl Edge {
    // How much less deep than the margin an edge may lie in a line that covers it.
    pub(crate) const COVER_EPSILON: f32 = 0.00001;
}

// What is worked out once of an edge that the agent is in front of.
#[derive(Clone, Copy)]
pub(crate) struct EdgeShape {
    pub(crate) relative_left_vertex: Vec2,
    pub(crate) relative_right_vertex: Vec2,
    pub(crate) edge_unit_vector: Vec2,
    pub(crate) dist_left_squared: f32,
    pub(crate) dist_right_squared: f32,
    pub(crate) squared_radius: f32,
    pub(crate) edge_t: f32,
    pub(crate) dist_to_edge_line_squared: f32,
}

// An agent, the margin that it keeps and the horizon for which it does.
#[derive(Clone, Copy)]
pub(crate) struct Keeper {
    pub(crate) agent: Agent,
    pub(crate) margin: f32,
    pub(crate) horizon: f32,
}

// The two sides of an edge and of its shadow.
#[derive(Clone, Copy)]
pub(crate) enum Side {
    Left,
    Right,
}

// One side of an edge's shadow, and whether the edge beyond covers it.
#[derive(Clone, Copy)]
pub(crate) struct Shadow {
    pub(crate) direction: Vec2,
    pub(crate) covered: bool,
}

// The edge in velocity space, cut off at the horizon, and the times at which the velocity projects to it and to its shadows.
#[derive(Clone, Copy)]
pub(crate) struct Cutoff {
    pub(crate) left_cutoff: Vec2,
    pub(crate) right_cutoff: Vec2,
    pub(crate) cutoff_vector: Vec2,
    pub(crate) is_degenerate_edge: bool,
    pub(crate) t_cutoff_edge: f32,
    pub(crate) t_left_shadow: f32,
    pub(crate) t_right_shadow: f32,
}

// The line that one edge asks an agent to keep to, beside the lines that the same obstacle's earlier edges made, lent
// as numbers, four a line. None where the agent is behind the edge, where one of those lines covers it, or where
// another edge's line does the work. Nothing is judged: a NaN compares false.
#[tactic(auto, unfolding(crate::specs::EdgeLines::line_for_edge, crate::proofs::Choices::choices))]
pub fn get_line_for_agent_to_edge(
    agent: Agent,
    edge: Edge,
    margin: f32,
    horizon: f32,
    existing_lines: &[f32],
) -> Option<Line>
    ensures { edge_line_of result ≡ line_for_edge agent (edge_of edge) margin horizon (lines_of existing_lines.now) }
{
    let left_point = edge.left_vertex.point;
    let right_point = edge.right_vertex.point;
    let relative_left = left_point.sub(agent.position);
    let relative_right = right_point.sub(agent.position);
    let edge_vector = right_point.sub(left_point);
    if common::determinant(relative_left.neg(), edge_vector) < 0.0 {
        return None;
    }
    if cover::is_edge_covered(
        relative_left,
        relative_right,
        horizon,
        margin,
        existing_lines,
    ) {
        return None;
    }
    let shape = collision::edge_shape(relative_left, relative_right, edge_vector, margin);
    let keeper = Keeper {
        agent,
        margin,
        horizon,
    };
    in_front::line_in_front(keeper, edge, shape)
}
