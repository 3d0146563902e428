// Scene records (01, "Records"): the bytes of one record, read to a scene or to the refusal of their first fault.
#![tactic(auto)]

ghost use Rattle.std.specs.Prelude.{◌≡◌};
ghost use Rattle.scene_records.specs.Steps.{told, RefusedAs};
ghost use Rattle.scene_records.specs.Parts.{cart_of};
ghost use Rattle.scene_records.specs.Records.{announced, scene_in_version1, read_as};
ghost use Rattle.scene_records.specs.Versions.{fields_with, behind_version, byte_of, longest_of, scene_made, scene_in, scene_in_version, numbered_as};

use admission::Refusal;
use common::Vec2;
use dodgy_2d::Scene;
use edges::Agent;

mod cart_fields;
mod neighbours;
mod steps;
mod walls;

// What a step reads: a value and the place behind it; or the refusal of the first fault.
type Read<T> = Result<(T, usize), Refusal>;

// The versions of a scene record: 01's, and 02's (T-07), which has a number before each neighbour line.
#[derive(Clone, Copy, Debug, PartialEq, Eq, Hash)]
pub enum Version {
    One = 1,
    Two = 2,
}

impl Version {
    // The longest rest that a length may announce under version 1. `NumberedScene` has that of version 2.
    pub const ONE_LONGEST_REST: usize = 2631;

    // The version's byte in a record.
    pub fn byte(self) -> u8
        ensures { result ≡ byte_of self }
    {
        self as u8
    }

    // The longest rest that a record's length may announce under the version.
    pub fn longest_rest(self) -> usize
        ensures { result ≡ longest_of self }
    {
        match self {
            Version::One => Version::ONE_LONGEST_REST,
            Version::Two => NumberedScene::LONGEST_REST,
        }
    }
}

// What a record of either version is read to: a scene and its neighbours' numbers, each 0 under version 1, with zeros
// behind the last.
#[derive(Clone, Copy)]
pub struct NumberedScene {
    pub scene: Scene,
    // kept: no heap
    pub numbers: [u32; 64],
}

impl NumberedScene {
    // The longest rest that a record's length may announce, which is version 2's.
    pub const LONGEST_REST: usize = 2887;

    pub const VERSION: u8 = 2;
}

// The cart with what it wishes for.
#[derive(Clone, Copy)]
pub struct Cart {
    pub agent: Agent,
    pub margin: f32,
    pub horizon: f32,
    pub wish: Vec2,
    pub limit: f32,
}

// Reads the one scene record that the bytes are, of either version. Refused, in this order: fewer than two bytes (2), a
// length over 2,887 (4), a length that is not that of the rest (2); then the fields from left to right, each first for
// missing bytes (2) and then by its rule: another version than 1 or 2 (1), under version 1 a length over 2,631 (4), a
// number not finite or out of range (6), too many obstacles (4), an obstacle's kind (3), too many vertices, its own or
// with those before it (4), an open obstacle with none (5), a vertex that is the one before it again, or the first
// again behind the last of a closed obstacle (14), too many neighbour lines (4), a line's direction out of its band
// (7); last, bytes left over (2). A neighbour's number is refused only where its bytes are missing.
#[tactic(auto, using(crate::proofs::Chains::answers), unfolding(crate::specs::Versions::scene_in))]
pub fn read_scene(bytes: &[u8]) -> Result<NumberedScene, Refusal>
    ensures answer { result ≡ numbered_as (scene_in bytes.now) }
    ensures told { RefusedAs result (scene_in bytes.now) }
{
    let at = length_of(bytes, NumberedScene::LONGEST_REST)?;
    let (version, at) = steps::either_version_at(bytes, at)?;
    behind_version(bytes, at, version)
}

// Reads the one scene record of the version that the bytes are. Refused as `read_scene` refuses, but the other version,
// too, with 1.
#[tactic(auto, using(crate::proofs::Chains::answers), unfolding(crate::specs::Versions::record_with))]
pub fn read_scene_of_version(bytes: &[u8], version: Version) -> Result<NumberedScene, Refusal>
    ensures answer { result ≡ numbered_as (scene_in_version version bytes.now) }
    ensures told { RefusedAs result (scene_in_version version bytes.now) }
{
    let at = length_of(bytes, NumberedScene::LONGEST_REST)?;
    let at = steps::version_at(bytes, at, version)?;
    behind_version(bytes, at, version)
}

// Reads the one scene record of version 1 that the bytes are, as 01 has it. Refused as `read_scene` refuses, but a
// length over 2,631 where that is over 2,887 (4), and version 2, too, with 1.
#[tactic(auto, using(crate::proofs::Chains::answers), unfolding(crate::specs::Records::scene_in_version1, crate::specs::Records::fields_in))]
pub fn read_scene_version_1(bytes: &[u8]) -> Result<Scene, Refusal>
    ensures answer { result ≡ read_as (scene_in_version1 bytes.now) }
    ensures told { RefusedAs result (scene_in_version1 bytes.now) }
{
    let at = length_of(bytes, Version::ONE_LONGEST_REST)?;
    let at = steps::version_at(bytes, at, Version::One)?;
    Ok(fields_at(bytes, at, Version::One)?.scene)
}

// Behind the length field, where it is at most `longest` and tells the length of the rest.
#[tactic(auto, using(crate::proofs::Chains::fields), unfolding(crate::specs::Records::announced))]
fn length_of(bytes: &[u8], longest: usize) -> Result<usize, Refusal>
    ensures { told result (tt {0}) ≡ announced longest bytes.now }
{
    Refusal::MissingOrLeftOver.unless(bytes.len() >= 2)?;
    let length = usize::from(words::pair_at(bytes, 0));
    Refusal::TooMany.unless(length <= longest)?;
    Refusal::MissingOrLeftOver.unless(length == bytes.len() - 2)?;
    Ok(2)
}

// The length under the version, then the fields behind it.
#[tactic(auto, using(crate::proofs::Chains::answers), unfolding(crate::specs::Versions::behind_version))]
fn behind_version(bytes: &[u8], at: usize, version: Version) -> Result<NumberedScene, Refusal>
    ensures answer { result ≡ numbered_as (behind_version scene_made version bytes.now at) }
    ensures told { RefusedAs result (behind_version scene_made version bytes.now at) }
{
    let fits = bytes.len().saturating_sub(2) <= version.longest_rest();
    Refusal::TooMany.unless(fits)?;
    fields_at(bytes, at, version)
}

// The fields behind the version.
#[tactic(auto, using(crate::proofs::Chains::answers), unfolding(crate::specs::Versions::fields_with))]
fn fields_at(bytes: &[u8], at: usize, version: Version) -> Result<NumberedScene, Refusal>
    ensures answer { result ≡ numbered_as (fields_with scene_made version bytes.now at) }
    ensures told { RefusedAs result (fields_with scene_made version bytes.now at) }
{
    let (cart, at) = cart_fields::cart_at(bytes, at)?;
    let (obstacles, at) = steps::count_at(bytes, at, Scene::MOST_OBSTACLES)?;
    let mut kinds = [0; 16];
    let mut counts = [0; 16];
    let mut vertices = [0.0; 384];
    let at = walls::obstacles_at(bytes, at, obstacles, &mut kinds, &mut counts, &mut vertices)?;
    let (neighbours, at) = steps::count_at(bytes, at, Scene::MOST_NEIGHBOURS)?;
    let mut lines = [0.0; 256];
    let mut numbers = [0; 64];
    let at = neighbours::store_lines(bytes, at, version, neighbours, &mut lines, &mut numbers)?;
    steps::end_at(bytes, at)?;
    Ok(NumberedScene {
        scene: Scene {
            agent: cart.agent,
            margin: cart.margin,
            horizon: cart.horizon,
            wish: cart.wish,
            limit: cart.limit,
            obstacles,
            kinds,
            counts,
            vertices,
            neighbours,
            lines,
        },
        numbers,
    })
}
