// The cover test: an edge that lies deep enough in the invalid half of a line made earlier cannot be collided with, and
// needs no line of its own.
ghost use Rattle.std.specs.Prelude.{◌≡◌};
ghost use Rattle.lines.specs.Lines.{lines_of};
ghost use Rattle.edges.specs.Cover.{is_deep, covers, is_edge_covered};

use crate::Edge;
use common::Vec2;
use lines::Line;

// Whether a vertex is deep enough in the invalid half of a line.
#[tactic(auto, unfolding(crate::specs::Cover::is_deep))]
fn is_deep(vertex: Vec2, horizon: f32, margin: f32, line: Line) -> bool
    ensures { result ≡ is_deep vertex horizon margin line }
{
    let depth = common::determinant(vertex.div(horizon).sub(line.point), line.direction);
    depth >= margin / horizon - Edge::COVER_EPSILON
}

#[tactic(auto, unfolding(crate::specs::Cover::covers))]
fn is_covered_by(
    left_vertex: Vec2,
    right_vertex: Vec2,
    horizon: f32,
    margin: f32,
    line: Line,
) -> bool
    ensures { result ≡ covers left_vertex right_vertex horizon margin line }
{
    is_deep(left_vertex, horizon, margin, line) && is_deep(right_vertex, horizon, margin, line)
}

// Whether one of the lines covers the edge. They are lent as numbers, four a line.
pub(crate) fn is_edge_covered(
    left_vertex: Vec2,
    right_vertex: Vec2,
    horizon: f32,
    margin: f32,
    existing_lines: &[f32],
) -> bool
    ensures { result ≡ is_edge_covered left_vertex right_vertex horizon margin (lines_of existing_lines.now) }
{
    for i in 0..existing_lines.len() / 4 {
        let line = lines::line_at(existing_lines, i);
        if is_covered_by(left_vertex, right_vertex, horizon, margin, line) {
            return true;
        }
    }
    false
}
