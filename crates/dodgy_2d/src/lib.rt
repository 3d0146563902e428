// A cart's velocity from its scene (the Rust's lib.rs, cut): the obstacles' lines, then the neighbours', solved in at
// most two passes.
#![tactic(auto)]

ghost use Rattle.std.specs.Prelude.{◌≡◌};
ghost use Rattle.dodgy_2d.specs.Outcomes.{scene_outcome};
ghost use Rattle.dodgy_2d.specs.Origins.{scene_origin};
ghost use Rattle.dodgy_2d.specs.Read.{code_of, outcome_of, origin_of, scene_answer_as};
ghost use Rattle.dodgy_2d.specs.Admitted.{bare_of, scene_from, admitted_outcome, admitted_answer};

use crate::sized::SizedScene;
use admission::Refusal;
use common::Vec2;
use edges::Agent;
use lines::Origin;
use pass_2d::Failure;

mod edge_lines;
mod judge;
mod passes;
mod sized;

// What a velocity is wanted for: the cart, its walls and its neighbours' lines. Vertices are two numbers each, obstacle
// behind obstacle; lines four.
// kept: no heap: a list is an array with its count beside.
#[derive(Clone, Copy)]
pub struct Scene {
    pub agent: Agent,
    pub margin: f32,
    pub horizon: f32,
    pub wish: Vec2,
    pub limit: f32,
    pub obstacles: usize,
    pub kinds: [u8; 16],
    pub counts: [u8; 16],
    pub vertices: [f32; 384],
    pub neighbours: usize,
    pub lines: [f32; 256],
}

impl Scene {
    pub const MOST_OBSTACLES: usize = 16;

    pub const MOST_NEIGHBOURS: usize = 64;

    // The scene without its lists.
    pub fn bare(self) -> BareScene
        ensures { result ≡ bare_of self }
    {
        let agent = self.agent;
        let wish = self.wish;
        BareScene {
            agent,
            margin: self.margin,
            horizon: self.horizon,
            wish,
            limit: self.limit,
            obstacles: self.obstacles,
            neighbours: self.neighbours,
        }
    }
}

// A scene without its lists, which are lent beside it.
#[derive(Clone, Copy)]
pub struct BareScene {
    pub agent: Agent,
    pub margin: f32,
    pub horizon: f32,
    pub wish: Vec2,
    pub limit: f32,
    pub obstacles: usize,
    pub neighbours: usize,
}

// How a scene's velocity was found, by the outcome's number: every line is met, or neighbours' lines had to be relaxed;
// the same for a cart at rest, after a rigid failure; or that failed rigidly too.
#[derive(Clone, Copy, Debug, PartialEq, Eq, Hash)]
pub enum Outcome {
    Solved = 1,
    Relaxed = 2,
    SolvedAtRest = 3,
    RelaxedAtRest = 4,
    FailedAtRest = 5,
}

impl Outcome {
    pub fn number(self) -> u8
        ensures { result ≡ code_of self }
    {
        self as u8
    }
}

// A scene's velocity, with the failed line of the last pass run, the probes of all passes, and where the failed line
// comes from: an edge by its obstacle's place in the scene and its left vertex there, or a neighbour by its place;
// unknown where no line failed. The outcome is one of the five, or whatever tells one there.
#[derive(Clone, Copy, Debug, PartialEq)]
pub struct SceneAnswer<O = Outcome> {
    pub outcome: O,
    pub velocity: Vec2,
    pub failed: Option<Failure>,
    pub probes: u32,
    pub origin: Origin,
}

impl<O: Drop> SceneAnswer<O> {
    // Where the failed line of an answer comes from, whatever the outcome is; unknown where the scene is refused,
    // whatever the refusal is.
    pub fn origin<E: Drop>(answer: Result<SceneAnswer<O>, E>) -> Origin
        ensures { result ≡ origin_of answer }
    {
        match answer {
            Ok(told) => told.origin,
            Err(_) => Origin::UNKNOWN,
        }
    }
}

// The velocity of a scene: 1 where the lines are met, 2 where neighbours' lines had to be relaxed; where the obstacles'
// lines cannot be met, they are made again for a cart at rest: 3 and 4, and 5 where that fails too, whose point is
// taken. Refused: the scene's first fault in the order of its fields (6, 4, 3, 5, 14, 7), an edge line that is not
// admitted (9). The solves' own 8 and 9 are never told of a scene (proofs/SceneTold.antt).
pub fn compute_avoiding_velocity(scene: Scene) -> Result<SceneAnswer, Refusal>
    ensures answer { result ≡ scene_answer_as (scene_outcome scene) (scene_origin scene) }
    ensures told { outcome_of result ≡ scene_outcome scene }
{
    judge::judge_scene(scene)?;
    passes::solve(&SizedScene {
        bare: scene.bare(),
        kinds: scene.kinds,
        counts: scene.counts,
        vertices: &scene.vertices,
        lines: &scene.lines,
    })
}

// The velocity of a scene that was judged before, its lists lent beside it: as `compute_avoiding_velocity`, but nothing
// is judged again other than its sizes: too many obstacles, vertices or neighbours (4), or more than the lists hold
// (2). Of a scene that is not admitted 01 promises only an answer, which may be one that no scene has.
// kept: promised: solve_admitted_scene: a scene's lists are lent one by one.
pub fn solve_admitted_scene<'a>(
    scene: BareScene,
    kinds: [u8; 16],
    counts: [u8; 16],
    vertices: &'a [f32],
    lines: &'a [f32],
) -> Result<SceneAnswer, Refusal>
    ensures answer { result ≡ admitted_answer (scene_from scene kinds counts vertices.now lines.now) }
    ensures told { outcome_of result ≡ admitted_outcome (scene_from scene kinds counts vertices.now lines.now) }
{
    judge::judge_sizes(scene, kinds, counts, vertices, lines)?;
    passes::solve(&SizedScene {
        bare: scene,
        kinds,
        counts,
        vertices,
        lines,
    })
}
