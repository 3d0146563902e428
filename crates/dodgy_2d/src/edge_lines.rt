// The obstacles' lines, obstacle behind obstacle, filled into numbers, four a line; and beside them each line's wall.
ghost use Rattle.std.specs.Prelude.{◌≡◌, ◌+◌, ◌*◌, ◌/◌, ◌≤◌, ◌<◌, ◌++◌, map, length, take};
ghost use Rattle.lines.specs.Lines.{lines_of};
ghost use Rattle.lines.specs.Origins.{edge_origin};
ghost use Rattle.obstacles.specs.Vertices.{vertices_of};
ghost use Rattle.obstacles.specs.Obstacles.{lines as linesAre, obstacle_lines, obstacle_edges};
ghost use Rattle.dodgy_2d.specs.Outcomes.{joined, edges_at};
ghost use Rattle.dodgy_2d.specs.Origins.{edge_origins_at};
ghost use Rattle.dodgy_2d.specs.Read.{edges_of, count_in, walls_in, WallsAre};

use crate::BareScene;
use crate::sized::SizedScene;
use admission::{Head, Refusal};
use common::Vec2;
use edges::Agent;
use lines::{Line, Origin};

// The edge that a line is of: its obstacle's place, and its left vertex there. A pass has an array of these to fill, so
// they are small.
#[derive(Clone, Copy)]
pub(crate) struct Wall {
    place: u8,
    vertex: u8,
}

impl Wall {
    // The first edge of the first obstacle, with which an array begins.
    pub(crate) const FIRST: Wall = Wall {
        place: 0,
        vertex: 0,
    };

    pub(crate) fn origin(self) -> Origin
        ensures { result ≡ edge_origin self.place self.vertex }
    {
        Origin {
            kind: Origin::EDGE,
            place: u32::from(self.place),
            vertex: u32::from(self.vertex),
        }
    }
}

// The lines of a pass, and the walls of those that are of obstacles.
#[derive(Drop)]
pub(crate) struct PassLines {
    pub(crate) numbers: [f32; 4 * Line::MOST],
    pub(crate) walls: [Wall; Head::MOST_TOGETHER],
    ghost room: { (length numbers ≡ 1024) × (length walls ≡ 192) },
}

// The lines of one obstacle behind the `count` lines that stand, and their walls; how many stand then. Its edges see
// the lines that it made itself, and no others.
fn add_obstacle(
    cart: BareScene,
    place: usize,
    kind: u8,
    vertices: &[f32],
    lines: &mut PassLines,
    count: usize,
) -> Result<usize, Refusal>
    requires { (count + length vertices.now / 2 ≤ 192) × (place < 16) }
    ensures { (count_in result ≤ count + length vertices.now / 2)
        × (edges_of result lines.new.numbers ≡ joined (linesAre (lines_of (take (4 * count) lines.old.numbers)))
        (obstacle_lines cart.agent kind (length vertices.now / 2) (vertices_of vertices.now) cart.margin cart.horizon))
        × WallsAre lines.new.walls (walls_in count lines.old.walls ++ map (edge_origin place)
        (obstacle_edges cart.agent kind (length vertices.now / 2) (vertices_of vertices.now) cart.margin cart.horizon))
        result }
{
    let mut own = 0usize;
    for i in 0..obstacles::edge_count(kind, vertices.len() / 2) {
        let made = obstacles::get_line_alone(
            cart.agent,
            kind,
            vertices,
            i,
            cart.margin,
            cart.horizon,
            &lines.numbers[4 * count..4 * (count + own)],
        )?;
        if let Some(line) = made {
            lines::put_line(&mut lines.numbers, count + own, line);
            lines.walls[count + own] = Wall {
                place: place as u8,
                vertex: i as u8,
            };
            own += 1;
        }
    }
    Ok(count + own)
}

// The lines of a scene's obstacles for a cart with this velocity, each with its vertices behind those of the ones
// before; how many they are. An obstacle sees no other one's lines.
pub(crate) fn edge_lines(
    scene: &SizedScene<'_>,
    velocity: Vec2,
    lines: &mut PassLines,
) -> Result<usize, Refusal>
    ensures { (count_in result ≤ 192) × (edges_of result lines.new.numbers ≡ edges_at scene.now velocity)
        × WallsAre lines.new.walls (edge_origins_at scene.now velocity) result }
{
    let position = scene.bare.agent.position;
    let cart = BareScene {
        agent: Agent { position, velocity },
        ..scene.bare
    };
    let mut count = 0usize;
    let mut offset = 0usize;
    for i in 0..cart.obstacles {
        let end = offset + usize::from(scene.counts[i]);
        let vertices = &scene.vertices[2 * offset..2 * end];
        count = add_obstacle(cart, i, scene.kinds[i], vertices, lines, count)?;
        offset = end;
    }
    Ok(count)
}
