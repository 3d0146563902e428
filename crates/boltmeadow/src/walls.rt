// What lent obstacles are asked: whether a move crosses a wall, and the lines of one obstacle.
ghost use Rattle.std.specs.Prelude.{◌≡◌};
ghost use Rattle.common.specs.Vectors.{vec};
ghost use Rattle.obstacles.specs.Obstacles.{obstacle_call};
ghost use Rattle.wall_check.specs.Crossings.{checked_move};
ghost use Rattle.boltmeadow.specs.Layouts.{agent_at, crossing, crossing_told, obstacle_told};

use common::Vec2;
use edges::Agent;

// The first crossed edge, by its obstacle's place and its left vertex there, and how many edges are crossed; 0 edges
// where the way is clear. Beside a refusal all else is 0.
#[repr(C)]
#[derive(Clone, Copy)]
pub struct BmCrossing {
    pub refusal: u32,
    pub edges: usize,
    pub obstacle: usize,
    pub vertex: usize,
}

// An obstacle's lines, four numbers each, zeros behind them. Beside a refusal there are none.
#[repr(C)]
#[derive(Clone, Copy)]
pub struct BmObstacleLines {
    pub refusal: u32,
    pub count: usize,
    pub lines: [f32; 256],
}

// The first edge of the obstacles that a move crosses, and how many; or the number of a refusal, as
// `wall_check::check_move` refuses.
#[unsafe(no_mangle)]
pub extern "C" fn bm_check_move(
    from_x: f32,
    from_y: f32,
    to_x: f32,
    to_y: f32,
    obstacles: usize,
    kinds: &[u8],
    counts: &[u8],
    vertices: &[f32],
) -> BmCrossing
    ensures { result ≡ crossing_told (checked_move (vec from_x from_y) (vec to_x to_y) obstacles
        kinds.now counts.now vertices.now) }
{
    let from = Vec2 {
        x: from_x,
        y: from_y,
    };
    let to = Vec2 { x: to_x, y: to_y };
    match wall_check::check_move(from, to, obstacles, kinds, counts, vertices) {
        Ok(Some(first)) => crossed(0, first.count, first.obstacle, first.vertex),
        Ok(None) => crossed(0, 0, 0, 0),
        Err(refusal) => crossed(u32::from(refusal.number()), 0, 0, 0),
    }
}

fn crossed(refusal: u32, edges: usize, obstacle: usize, vertex: usize) -> BmCrossing
    ensures { result ≡ crossing refusal edges obstacle vertex }
{
    BmCrossing {
        refusal,
        edges,
        obstacle,
        vertex,
    }
}

// The lines that an obstacle asks a cart to keep to; or the number of a refusal, as
// `obstacles::get_lines_for_agent_to_obstacle` refuses.
#[unsafe(no_mangle)]
pub extern "C" fn bm_obstacle_lines(
    position_x: f32,
    position_y: f32,
    velocity_x: f32,
    velocity_y: f32,
    margin: f32,
    horizon: f32,
    kind: u8,
    count: usize,
    vertices: &[f32],
) -> BmObstacleLines
    ensures { result ≡ obstacle_told
        (obstacle_call (agent_at position_x position_y velocity_x velocity_y) kind
        vertices.now count margin horizon) }
{
    let agent = Agent {
        position: Vec2 {
            x: position_x,
            y: position_y,
        },
        velocity: Vec2 {
            x: velocity_x,
            y: velocity_y,
        },
    };
    let made = obstacles::get_lines_for_agent_to_obstacle(
        agent, kind, vertices, count, margin, horizon,
    );
    match made {
        Ok(made) => {
            let lines = made.lines;
            BmObstacleLines {
                refusal: 0,
                count: made.count,
                lines,
            }
        }
        Err(refusal) => BmObstacleLines {
            refusal: u32::from(refusal.number()),
            count: 0,
            lines: [0.0; 256],
        },
    }
}
