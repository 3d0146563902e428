// The edge in velocity space, cut off at the horizon: where the velocity projects to, and the line there.
ghost use Rattle.std.specs.Prelude.{◌≡◌};
ghost use Rattle.edges.specs.Cutoffs.{t_cutoff, cutoff_of, vertex_line, are_below, projects_left, projects_right, misses_cutoff, distance_unless, cutoff_line, shadow_line, at_most_both, nearest_line, choose_line};
ghost use Rattle.edges.specs.Read.{side_of, edge_line_of};

use crate::{Agent, Cutoff, Shadow, Side, collision};
use common::Vec2;
use lines::Line;

// The time at which the velocity projects to the cutoff edge: halfway where that is degenerate.
#[tactic(auto, unfolding(crate::specs::Cutoffs::t_cutoff, crate::proofs::Choices::choices))]
fn t_cutoff_edge(
    is_degenerate_edge: bool,
    velocity: Vec2,
    left_cutoff: Vec2,
    cutoff_vector: Vec2,
) -> f32
    ensures { result ≡ t_cutoff is_degenerate_edge velocity left_cutoff cutoff_vector }
{
    if is_degenerate_edge {
        return 0.5;
    }
    velocity.sub(left_cutoff).dot(cutoff_vector) / cutoff_vector.length_squared()
}

// The cutoff of the edge between two points, which the shadow's vertices decide.
#[tactic(auto, unfolding(crate::specs::Cutoffs::cutoff_of))]
pub(crate) fn cut_off(
    agent: Agent,
    left: Vec2,
    right: Vec2,
    is_degenerate_edge: bool,
    left_direction: Vec2,
    right_direction: Vec2,
    horizon: f32,
) -> Cutoff
    ensures { result ≡ cutoff_of agent left right is_degenerate_edge left_direction right_direction horizon }
{
    let position = agent.position;
    let velocity = agent.velocity;
    let left_cutoff = left.sub(position).div(horizon);
    let right_cutoff = right.sub(position).div(horizon);
    let cutoff_vector = right_cutoff.sub(left_cutoff);
    Cutoff {
        left_cutoff,
        right_cutoff,
        cutoff_vector,
        is_degenerate_edge,
        t_cutoff_edge: t_cutoff_edge(is_degenerate_edge, velocity, left_cutoff, cutoff_vector),
        t_left_shadow: velocity.sub(left_cutoff).dot(left_direction),
        t_right_shadow: velocity.sub(right_cutoff).dot(right_direction),
    }
}

// The line at a cutoff circle, where the velocity projects to the circle.
#[tactic(auto, unfolding(crate::specs::Cutoffs::vertex_line))]
fn vertex_line(velocity: Vec2, cutoff: Vec2, reach: f32) -> Option<Line>
    ensures { edge_line_of result ≡ vertex_line velocity cutoff reach }
{
    let velocity_from_cutoff = velocity.sub(cutoff).normalize();
    Some(Line::new(
        cutoff.add(velocity_from_cutoff.mul(reach)),
        velocity_from_cutoff.perp().neg(),
    ))
}

#[tactic(auto, unfolding(crate::specs::Cutoffs::are_below))]
fn are_below(t: f32, t_shadow: f32) -> bool
    ensures { result ≡ are_below t t_shadow }
{
    t < 0.0 && t_shadow < 0.0
}

// The velocity is left of the edge and does not project to the left shadow; or the edge is degenerate and it projects
// to neither shadow.
#[tactic(auto, unfolding(crate::specs::Cutoffs::projects_left))]
fn projects_to_left(cutoff: Cutoff) -> bool
    ensures { result ≡ projects_left cutoff }
{
    are_below(cutoff.t_cutoff_edge, cutoff.t_left_shadow)
        || cutoff.is_degenerate_edge && are_below(cutoff.t_left_shadow, cutoff.t_right_shadow)
}

// The velocity is right of the edge and does not project to the right shadow.
#[tactic(auto, unfolding(crate::specs::Cutoffs::projects_right))]
fn projects_to_right(t_cutoff_edge: f32, t_right_shadow: f32) -> bool
    ensures { result ≡ projects_right t_cutoff_edge t_right_shadow }
{
    t_cutoff_edge > 1.0 && t_right_shadow < 0.0
}

// Whether the velocity does not project to the cutoff edge, or that is degenerate.
#[tactic(auto, unfolding(crate::specs::Cutoffs::misses_cutoff))]
fn misses_cutoff(cutoff: Cutoff) -> bool
    ensures { result ≡ misses_cutoff cutoff }
{
    !collision::in_unit(cutoff.t_cutoff_edge) || cutoff.is_degenerate_edge
}

// The squared distance of the velocity from its projection, start + t * direction; infinite where there is none.
#[tactic(auto, unfolding(crate::specs::Cutoffs::distance_unless, crate::proofs::Choices::choices))]
fn distance_unless(missed: bool, velocity: Vec2, start: Vec2, t: f32, direction: Vec2) -> f32
    ensures { result ≡ distance_unless missed velocity start t direction }
{
    if missed {
        return f32::INFINITY;
    }
    velocity.sub(start.add(direction.mul(t))).length_squared()
}

#[tactic(auto, unfolding(crate::specs::Cutoffs::cutoff_line))]
fn cutoff_line(cutoff: Cutoff, reach: f32) -> Option<Line>
    ensures { edge_line_of result ≡ cutoff_line cutoff reach }
{
    let line_direction = cutoff.cutoff_vector.normalize().neg();
    Some(Line::new(
        cutoff.left_cutoff.add(line_direction.perp().mul(reach)),
        line_direction,
    ))
}

// The line along a side of the shadow. None where that is covered: the edge that covers it makes the line.
#[tactic(auto, unfolding(crate::specs::Cutoffs::beside_shadow, crate::specs::Cutoffs::shadow_line, crate::proofs::Choices::choices))]
fn shadow_line(side: Side, cutoff: Vec2, shadow: Shadow, reach: f32) -> Option<Line>
    ensures { edge_line_of result ≡ shadow_line (side_of side) cutoff shadow reach }
{
    if shadow.covered {
        return None;
    }
    let direction = shadow.direction;
    let across = direction.perp().mul(reach);
    match side {
        Side::Left => Some(Line::new(cutoff.add(across), direction)),
        Side::Right => Some(Line::new(cutoff.sub(across), direction.neg())),
    }
}

#[tactic(auto, unfolding(crate::specs::Cutoffs::at_most_both))]
fn at_most_both(a: f32, b: f32, c: f32) -> bool
    ensures { result ≡ at_most_both a b c }
{
    a <= b && a <= c
}

// The line of the cutoff edge, the left shadow or the right one, whichever is closest to the velocity.
#[tactic(auto, unfolding(crate::specs::Cutoffs::nearest_line, crate::proofs::Choices::choices))]
fn nearest_line(
    velocity: Vec2,
    cutoff: Cutoff,
    left: Shadow,
    right: Shadow,
    reach: f32,
) -> Option<Line>
    ensures { edge_line_of result ≡ nearest_line velocity cutoff left right reach }
{
    let cutoff_distance = distance_unless(
        misses_cutoff(cutoff),
        velocity,
        cutoff.left_cutoff,
        cutoff.t_cutoff_edge,
        cutoff.cutoff_vector,
    );
    let left_distance = distance_unless(
        cutoff.t_left_shadow < 0.0,
        velocity,
        cutoff.left_cutoff,
        cutoff.t_left_shadow,
        left.direction,
    );
    let right_distance = distance_unless(
        cutoff.t_right_shadow < 0.0,
        velocity,
        cutoff.right_cutoff,
        cutoff.t_right_shadow,
        right.direction,
    );
    if at_most_both(cutoff_distance, left_distance, right_distance) {
        return cutoff_line(cutoff, reach);
    }
    if left_distance <= right_distance {
        return shadow_line(Side::Left, cutoff.left_cutoff, left, reach);
    }
    shadow_line(Side::Right, cutoff.right_cutoff, right, reach)
}

// The line at the projection of the velocity to the cut off edge and its shadows.
#[tactic(auto, unfolding(crate::specs::Cutoffs::choose_line, crate::proofs::Choices::choices))]
pub(crate) fn choose_line(
    velocity: Vec2,
    cutoff: Cutoff,
    left: Shadow,
    right: Shadow,
    reach: f32,
) -> Option<Line>
    ensures { edge_line_of result ≡ choose_line velocity cutoff left right reach }
{
    if projects_to_left(cutoff) {
        return vertex_line(velocity, cutoff.left_cutoff, reach);
    }
    if projects_to_right(cutoff.t_cutoff_edge, cutoff.t_right_shadow) {
        return vertex_line(velocity, cutoff.right_cutoff, reach);
    }
    nearest_line(velocity, cutoff, left, right, reach)
}
