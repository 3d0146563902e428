// What is admitted of a scene: its first fault in the order of the record's fields; or its sizes alone.
ghost use Rattle.std.specs.Prelude.{◌≡◌, ◌*◌, ◌≤◌, length, take, drop, sum};
ghost use Rattle.admission.specs.Faults.{◌⊳◌, fault_of};
ghost use Rattle.obstacles.specs.ObstacleFaults.{head_fault, outline_fault};
ghost use Rattle.dodgy_2d.specs.Scenes.{heads_of, cart_fault, obstacles_fault, scene_fault};
ghost use Rattle.dodgy_2d.specs.Admitted.{scene_from, sizes_fault};

use crate::{BareScene, Scene};
use admission::{Head, Judged, Refusal, is_inside};
use common::Vec2;

// Position, velocity, margin, horizon, wish and limit.
#[tactic(auto, unfolding(crate::specs::Scenes::cart_fault))]
fn judge_cart(scene: Scene) -> Judged
    ensures { fault_of result ≡ cart_fault scene }
{
    obstacles::judge_agent(scene.agent, scene.margin, scene.horizon)?;
    obstacles::judge_vector(scene.wish)?;
    Refusal::OutOfRange.unless(is_inside(0.0, Vec2::LONGEST, scene.limit))
}

// An obstacle behind `total` vertices: its head, then its own vertices.
fn judge_obstacle(total: usize, head: Head, vertices: &[f32]) -> Judged
    requires { (total ≤ 192) × (length vertices.now ≡ 384) }
    ensures { fault_of result ≡ (head_fault total head ⊳ outline_fault head (drop (2 * total) vertices.now)) }
{
    obstacles::judge_head(total, head)?;
    obstacles::judge_outline(head, &vertices[2 * total..])
}

// The first `n` obstacles, each behind the vertices of those before it.
fn judge_obstacles(kinds: [u8; 16], counts: [u8; 16], n: usize, vertices: &[f32]) -> Judged
    requires { (n ≤ 16) × (length vertices.now ≡ 384) }
    ensures { fault_of result ≡ obstacles_fault 0 (heads_of (take n kinds) (take n counts)) vertices.now }
{
    let mut total = 0usize;
    for i in 0..n {
        let head = Head {
            kind: kinds[i],
            count: usize::from(counts[i]),
        };
        judge_obstacle(total, head, vertices)?;
        total += head.count;
    }
    Ok(())
}

// The fields in the record's order. Counts are judged before what they count.
#[tactic(auto, unfolding(crate::specs::Scenes::scene_fault))]
pub(crate) fn judge_scene(scene: Scene) -> Judged
    ensures { fault_of result ≡ scene_fault scene }
{
    judge_cart(scene)?;
    Refusal::TooMany.unless(scene.obstacles <= Scene::MOST_OBSTACLES)?;
    judge_obstacles(scene.kinds, scene.counts, scene.obstacles, &scene.vertices)?;
    Refusal::TooMany.unless(scene.neighbours <= Scene::MOST_NEIGHBOURS)?;
    lines::judge_lines(&scene.lines[..4 * scene.neighbours])
}

// How many vertices obstacles with these counts have together.
fn count_vertices(counts: &[u8]) -> usize
    requires { length counts.now ≤ 16 }
    ensures { result ≡ sum counts.now }
{
    counts.iter().map(|count| usize::from(*count)).sum()
}

// The sizes alone: how many obstacles, vertices and neighbours there are, and whether the lists hold them.
#[tactic(auto, using(crate::proofs::HeadsInOrder::vertices_sum), unfolding(crate::specs::Admitted::sizes_fault))]
pub(crate) fn judge_sizes(
    scene: BareScene,
    kinds: [u8; 16],
    counts: [u8; 16],
    vertices: &[f32],
    lines: &[f32],
) -> Judged
    ensures { fault_of result ≡ sizes_fault (scene_from scene kinds counts vertices.now lines.now) }
{
    let obstacles = scene.obstacles;
    Refusal::TooMany.unless(obstacles <= Scene::MOST_OBSTACLES)?;
    let total = count_vertices(&counts[..obstacles]);
    Refusal::TooMany.unless(total <= Head::MOST_TOGETHER)?;
    Refusal::MissingOrLeftOver.unless(total <= vertices.len() / 2)?;
    Refusal::TooMany.unless(scene.neighbours <= Scene::MOST_NEIGHBOURS)?;
    Refusal::MissingOrLeftOver.unless(scene.neighbours <= lines.len() / 4)
}
