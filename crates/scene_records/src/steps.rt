// Steps of reading: each takes the bytes from a place on, and tells the value and the place behind it.
ghost use Rattle.std.specs.Prelude.{◌≡◌, ◌≤◌, ◌<◌, IfOk};
ghost use Rattle.fields.specs.Got.{word};
ghost use Rattle.scene_records.specs.Steps.{read_of, told, rule_of, number, vector, version, count, ended};
ghost use Rattle.scene_records.specs.Versions.{byte_of, either_version};

use crate::{NumberedScene, Read, Version};
use admission::Refusal;
use common::Vec2;

// What a number is held to.
#[derive(Clone, Copy)]
pub(crate) enum Rule {
    Within(f32),
    Inside(f32, f32),
    Finite,
}

impl Rule {
    fn passes(self, x: f32) -> bool
        ensures { result ≡ rule_of self x }
    {
        match self {
            Rule::Within(bound) => admission::is_within(bound, x),
            Rule::Inside(low, high) => admission::is_inside(low, high, x),
            Rule::Finite => arithmetic::is_finite(x),
        }
    }
}

#[tactic(auto, using(crate::proofs::Chains::fields))]
pub(crate) fn byte_at(bytes: &[u8], at: usize) -> Read<u8>
    ensures { read_of result ≡ word 1 bytes.now at }
{
    Refusal::MissingOrLeftOver.unless(at < bytes.len())?;
    Ok((bytes[at], at + 1))
}

// Behind the version byte, where it is that of the version.
#[tactic(auto, using(crate::proofs::Chains::chain), unfolding(crate::specs::Steps::version))]
pub(crate) fn version_at(bytes: &[u8], at: usize, asked: Version) -> Result<usize, Refusal>
    ensures { told result (tt {0}) ≡ version (byte_of asked) bytes.now at }
{
    let (byte, at) = byte_at(bytes, at)?;
    Refusal::OtherVersion.unless(byte == asked.byte())?;
    Ok(at)
}

// Which of the two versions it is.
#[tactic(auto, using(crate::proofs::Chains::chain), unfolding(crate::specs::Versions::either_version))]
pub(crate) fn either_version_at(bytes: &[u8], at: usize) -> Read<Version>
    ensures { read_of result ≡ either_version bytes.now at }
{
    let (byte, at) = byte_at(bytes, at)?;
    match byte {
        1 => Ok((Version::One, at)),
        NumberedScene::VERSION => Ok((Version::Two, at)),
        _ => Err(Refusal::OtherVersion),
    }
}

// A word of four bytes, of any value.
#[tactic(auto, using(crate::proofs::Chains::fields))]
pub(crate) fn word_at(bytes: &[u8], at: usize) -> Read<u32>
    ensures { read_of result ≡ word 4 bytes.now at }
{
    Refusal::MissingOrLeftOver.unless(admission::fits_behind(bytes.len(), at, 4))?;
    Ok((words::word_at(bytes, at), at + 4))
}

// A count of one byte that is at most `most`.
#[tactic(auto, using(crate::proofs::Chains::chain), unfolding(crate::specs::Steps::count))]
pub(crate) fn count_at(bytes: &[u8], at: usize, most: usize) -> Read<usize>
    ensures reads { read_of result ≡ count most bytes.now at }
    ensures few { IfOk result (λ read. read.0 ≤ most) }
{
    let (byte, at) = byte_at(bytes, at)?;
    let count = usize::from(byte);
    Refusal::TooMany.unless(count <= most)?;
    Ok((count, at))
}

// The record's end, which is here.
#[tactic(auto, using(crate::proofs::Chains::chain), unfolding(crate::specs::Steps::ended))]
pub(crate) fn end_at(bytes: &[u8], at: usize) -> Result<usize, Refusal>
    ensures { told result (tt {0}) ≡ ended bytes.now at }
{
    Refusal::MissingOrLeftOver.unless(at == bytes.len())?;
    Ok(at)
}

// A number of four bytes. A NaN passes no rule.
#[tactic(auto, using(crate::proofs::Chains::chain), unfolding(crate::specs::Steps::number))]
pub(crate) fn number_at(bytes: &[u8], at: usize, rule: Rule) -> Read<f32>
    ensures { read_of result ≡ number (rule_of rule) bytes.now at }
{
    let (word, at) = word_at(bytes, at)?;
    let value = words::number(word);
    Refusal::OutOfRange.unless(rule.passes(value))?;
    Ok((value, at))
}

// Two numbers, each judged for itself.
#[tactic(auto, using(crate::proofs::Chains::chain), unfolding(crate::specs::Steps::vector))]
pub(crate) fn vector_at(bytes: &[u8], at: usize, rule: Rule) -> Read<Vec2>
    ensures { read_of result ≡ vector (rule_of rule) bytes.now at }
{
    let (x, at) = number_at(bytes, at, rule)?;
    let (y, at) = number_at(bytes, at, rule)?;
    Ok((Vec2::new(x, y), at))
}
