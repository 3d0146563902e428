// The cart's fields: position, velocity, margin, horizon, wish, limit.
ghost use Rattle.std.specs.Prelude.{◌≡◌};
ghost use Rattle.scene_records.specs.Steps.{read_of};
ghost use Rattle.scene_records.specs.Parts.{cart};

use crate::steps::{Rule, number_at, vector_at};
use crate::{Cart, Read};
use common::Vec2;
use edges::Agent;

#[tactic(auto, using(crate::proofs::Chains::chain), unfolding(crate::specs::Parts::cart))]
pub(crate) fn cart_at(bytes: &[u8], at: usize) -> Read<Cart>
    ensures { read_of result ≡ cart bytes.now at }
{
    let reach = Rule::Within(Vec2::REACH);
    let length = Rule::Inside(0.0, Vec2::LONGEST);
    let time = Rule::Inside(Agent::SHORTEST_HORIZON, Agent::LONGEST_HORIZON);
    let (position, at) = vector_at(bytes, at, reach)?;
    let (velocity, at) = vector_at(bytes, at, reach)?;
    let (margin, at) = number_at(bytes, at, length)?;
    let (horizon, at) = number_at(bytes, at, time)?;
    let (wish, at) = vector_at(bytes, at, reach)?;
    let (limit, at) = number_at(bytes, at, length)?;
    let agent = Agent { position, velocity };
    let cart = Cart {
        agent,
        margin,
        horizon,
        wish,
        limit,
    };
    Ok((cart, at))
}
