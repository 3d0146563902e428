// All edges of an obstacle in order, each line behind those made earlier.
ghost use Rattle.std.specs.Prelude.{◌≡◌, ◌/◌, ◌≤◌, ◌<◌, length};
ghost use Rattle.lines.specs.Lines.{lines_of};
ghost use Rattle.obstacles.specs.Vertices.{vertices_of, edge_at};
ghost use Rattle.edges.specs.EdgeLines.{line_for_edge};
ghost use Rattle.obstacles.specs.Obstacles.{admitted, obstacle_lines};
ghost use Rattle.obstacles.specs.Read.{admitted_of, answer_as};

use crate::vertices::Outline;
use crate::{ObstacleLines, edge_count};
use admission::Refusal;
use edges::Agent;
use lines::Line;

// What each edge of an obstacle is asked with: the agent, the obstacle, the margin and the horizon.
#[derive(Clone, Copy)]
pub(crate) struct Asked<'a> {
    pub(crate) agent: Agent,
    pub(crate) outline: Outline<'a>,
    pub(crate) margin: f32,
    pub(crate) horizon: f32,
}

// The line of the edge from a vertex to the next, behind the lines made earlier: refused with 9 where it breaks the
// admission of lines.
#[tactic(auto, unfolding(crate::specs::Obstacles::admitted))]
pub(crate) fn admitted_line(
    asked: Asked,
    left_index: usize,
    existing_lines: &[f32],
) -> Result<Option<Line>, Refusal>
    requires { left_index < length asked.outline.vertices.now / 2 }
    ensures { let outline = asked.entry.outline in
        let edge = edge_at outline.kind (length outline.vertices.now / 2) (vertices_of outline.vertices.now)
        left_index in
        admitted_of result ≡ admitted (line_for_edge asked.entry.agent edge asked.entry.margin asked.entry.horizon
        (lines_of existing_lines.now)) }
{
    let edge = asked.outline.edge(left_index);
    let made = edges::get_line_for_agent_to_edge(
        asked.agent,
        edge,
        asked.margin,
        asked.horizon,
        existing_lines,
    );
    let Some(line) = made else {
        return Ok(None);
    };
    if lines::judge_line(line).is_err() {
        return Err(Refusal::NotAdmitted);
    }
    Ok(Some(line))
}

// The lines of an obstacle that has at most 64 vertices. The lines made so far are the only ones that the next edge sees.
pub(crate) fn lines_for_edges(asked: Asked) -> Result<ObstacleLines, Refusal>
    requires { length asked.outline.vertices.now / 2 ≤ 64 }
    ensures { let outline = asked.entry.outline in
        result ≡ answer_as (obstacle_lines asked.entry.agent outline.kind (length outline.vertices.now / 2)
        (vertices_of outline.vertices.now) asked.entry.margin asked.entry.horizon) }
{
    let outline = asked.outline;
    let edges = edge_count(outline.kind, outline.vertices.len() / 2);
    let mut lines = [0.0f32; 256];
    let mut count = 0usize;
    for i in 0..edges {
        if let Some(line) = admitted_line(asked, i, &lines[0..4 * count])? {
            lines::put_line(&mut lines, count, line);
            count += 1;
        }
    }
    Ok(ObstacleLines { lines, count })
}
