// The two passes over a scene whose sizes are admitted, and their outcomes.
ghost use Rattle.std.specs.Prelude.{◌≡◌, ◌≤◌, ◌++◌, Ok, IfOk, length, get_or};
ghost use Rattle.lines.specs.Origins.{unknown};
ghost use Rattle.linear_programming.specs.Read.{outcome_of as list_outcome_of};
ghost use Rattle.dodgy_2d.specs.Outcomes.{pass_at, second_pass, at_rest};
ghost use Rattle.dodgy_2d.specs.Origins.{neighbours_from, failed_origin, pass_origin};
ghost use Rattle.dodgy_2d.specs.Read.{outcome_of, origin_of, pass_of, pass_origin_of, walls_in, Chosen};
ghost use Rattle.dodgy_2d.specs.Admitted.{first_answer, last_origin};

use crate::edge_lines::{PassLines, Wall};
use crate::sized::SizedScene;
use crate::{Outcome, SceneAnswer, edge_lines};
use admission::{Head, Refusal};
use common::Vec2;
use linear_programming::{Phase, Standing};
use lines::{Line, Origin};

// How a pass ends, and the origin of its failed line.
#[derive(Clone, Copy)]
pub(crate) struct Passed {
    pub(crate) standing: Standing,
    pub(crate) origin: Origin,
}

impl Passed {
    // The answer with this outcome and velocity, and the probes of all passes.
    fn answer(self, outcome: Outcome, velocity: Vec2, probes: u32) -> SceneAnswer
        ensures { result ≡ record {
          outcome = outcome;
          velocity = velocity;
          failed = self.standing.failed;
          probes = probes;
          origin = self.origin;
        } }
    {
        SceneAnswer {
            outcome,
            velocity,
            failed: self.standing.failed,
            probes,
            origin: self.origin,
        }
    }
}

// The origin of the line at an index: its edge's, as noted among the walls of the rigid lines, or behind them its place
// among the neighbours.
fn origin_at(walls: &[Wall], neighbours: usize, index: usize) -> Origin
    requires { neighbours ≤ 64 }
    ensures { result ≡ get_or (walls_in (length walls.now) walls.now ++ neighbours_from 0 neighbours) index unknown }
{
    if let Some(&wall) = walls.get(index) {
        return wall.origin();
    }
    let place = index - walls.len();
    if place < neighbours {
        return Origin {
            kind: Origin::NEIGHBOUR,
            place: place as u32,
            vertex: 0,
        };
    }
    Origin::UNKNOWN
}

// The origin of the line that failed, unknown where none did.
fn failed_origin(standing: Standing, walls: &[Wall], neighbours: usize) -> Origin
    requires { neighbours ≤ 64 }
    ensures { result ≡ failed_origin (walls_in (length walls.now) walls.now ++ neighbours_from 0 neighbours)
        (list_outcome_of (Ok standing)) }
{
    match standing.failed {
        Some(failure) => origin_at(walls, neighbours, failure.index),
        None => Origin::UNKNOWN,
    }
}

// The lines of a pass, in lent numbers, and the walls of the rigid ones, of which it tells how many there are: the
// obstacles' lines for a velocity, then the neighbours' as they came.
fn choose_lines(
    scene: &SizedScene<'_>,
    velocity: Vec2,
    lines: &mut PassLines,
) -> Result<usize, Refusal>
    ensures { Chosen scene.now velocity lines.new.numbers lines.new.walls result }
{
    let rigid = edge_lines::edge_lines(scene, velocity, lines)?;
    let more = 4 * scene.bare.neighbours;
    lines.numbers[4 * rigid..4 * rigid + more].copy_from_slice(&scene.lines[..more]);
    Ok(rigid)
}

// One pass: the lines chosen for a velocity, solved.
fn pass(scene: &SizedScene<'_>, velocity: Vec2) -> Result<Passed, Refusal>
    ensures told { pass_of result ≡ pass_at scene.now velocity }
    ensures origin { pass_origin_of result ≡ pass_origin scene.now velocity }
    ensures few { IfOk result (λ passed. passed.standing.probes ≤ 16777216) }
{
    let mut lines = PassLines {
        numbers: [0.0; 4 * Line::MOST],
        walls: [Wall::FIRST; Head::MOST_TOGETHER],
    };
    let rigid = choose_lines(scene, velocity, &mut lines)?;
    let cart = scene.bare;
    let end = rigid + cart.neighbours;
    let standing = linear_programming::solve_admitted_lines(
        &lines.numbers[..4 * end],
        rigid,
        cart.limit,
        cart.wish,
    )?;
    let origin = failed_origin(standing, &lines.walls[..rigid], cart.neighbours);
    Ok(Passed { standing, origin })
}

// The second pass, for a cart at rest, behind the probes of the first: a rigid failure's point is taken.
fn fall_back(scene: &SizedScene<'_>, probes: u32) -> Result<SceneAnswer, Refusal>
    requires { probes ≤ 16777216 }
    ensures outcome { outcome_of result ≡ second_pass probes (pass_at scene.now at_rest) }
    ensures origin { origin_of result ≡ pass_origin scene.now at_rest }
{
    let passed = pass(scene, Vec2::ZERO)?;
    let all = probes + passed.standing.probes;
    match passed.standing.phase {
        Phase::Solving(velocity) => Ok(passed.answer(Outcome::SolvedAtRest, velocity, all)),
        Phase::Relaxing(velocity, _) => Ok(passed.answer(Outcome::RelaxedAtRest, velocity, all)),
        Phase::RigidFailure(_, velocity) => Ok(passed.answer(Outcome::FailedAtRest, velocity, all)),
    }
}

// The first pass, with the cart's velocity. A rigid failure falls back.
pub(crate) fn solve(scene: &SizedScene<'_>) -> Result<SceneAnswer, Refusal>
    ensures outcome { outcome_of result ≡ first_answer scene.now }
    ensures origin { origin_of result ≡ last_origin scene.now }
{
    let passed = pass(scene, scene.bare.agent.velocity)?;
    let probes = passed.standing.probes;
    match passed.standing.phase {
        Phase::Solving(velocity) => Ok(passed.answer(Outcome::Solved, velocity, probes)),
        Phase::Relaxing(velocity, _) => Ok(passed.answer(Outcome::Relaxed, velocity, probes)),
        Phase::RigidFailure(_, _) => fall_back(scene, probes),
    }
}
