// Obstacles that are lent as numbers: their count, one kind and one vertex count each, and two numbers a vertex,
// obstacle behind obstacle (02, T-01 and T-08).
#![tactic(auto)]

ghost use Rattle.std.specs.Prelude.{◌≡◌, ◌*◌, ◌≤◌, IfOk, length, drop, get_or};
ghost use Rattle.admission.specs.Faults.{fault_of};
ghost use Rattle.layouts.specs.Layouts.{fault_told, kind_fault, count_fault, own_fault, layout_in, left_fault, layout_of};

use admission::{Head, Judged, Refusal};
use dodgy_2d::Scene;

// Judges lent obstacles in the order of a scene's fields, and tells how many vertices they have. Refused: more than 16
// obstacles (4); then for each obstacle no kind lent for it (2), its kind (3), no count lent for it (2), more than 64
// vertices or more than 192 with those before it (4), an open one with none (5); then for each of its vertices each
// component, not lent (2), not finite or out of range (6), then a vertex that is the one before it again (14); behind a
// closed one's last that it is the first again (14). What is lent beyond the counts is not looked at:
// `judge_leftovers` tells it.
// kept: promised: judge_layout, judge_leftovers: lent obstacles are four arguments.
pub fn judge_layout(
    obstacles: usize,
    kinds: &[u8],
    counts: &[u8],
    vertices: &[f32],
) -> Result<usize, Refusal>
    ensures { layout_of result ≡ layout_in obstacles kinds.now counts.now vertices.now }
{
    Refusal::TooMany.unless(obstacles <= Scene::MOST_OBSTACLES)?;
    let mut total = 0usize;
    for i in 0..obstacles {
        total += judge_obstacle(i, total, kinds, counts, vertices)?;
    }
    Ok(total)
}

// Kinds, counts or vertices beyond those of `obstacles` obstacles with `total` vertices (2).
#[tactic(auto, using(crate::proofs::LentInOrder::halved), unfolding(crate::specs::Layouts::left_fault))]
pub fn judge_leftovers(
    obstacles: usize,
    total: usize,
    kinds: &[u8],
    counts: &[u8],
    vertices: &[f32],
) -> Judged
    ensures { fault_of result ≡ left_fault obstacles total kinds.now counts.now vertices.now }
{
    Refusal::MissingOrLeftOver.unless(kinds.len() <= obstacles)?;
    Refusal::MissingOrLeftOver.unless(counts.len() <= obstacles)?;
    Refusal::MissingOrLeftOver.unless(vertices.len() - vertices.len() / 2 <= total)
}

// The kind at an index: not lent (2), neither closed nor open (3).
fn kind_at(kinds: &[u8], i: usize) -> Result<u8, Refusal>
    ensures fault { fault_told result ≡ kind_fault (drop i kinds.now) }
    ensures kind { IfOk result (λ kind. kind ≡ get_or kinds.now i 0) }
{
    let Some(&kind) = kinds.get(i) else {
        return Err(Refusal::MissingOrLeftOver);
    };
    Refusal::UnknownKind.unless(Head::is_kind(kind))?;
    Ok(kind)
}

// The vertex count at an index, of an obstacle with this kind behind `total` vertices: not lent (2), too many (4), open
// with none (5).
fn count_at(total: usize, kind: u8, counts: &[u8], i: usize) -> Result<usize, Refusal>
    ensures fault { fault_told result ≡ count_fault total kind (drop i counts.now) }
    ensures count { IfOk result (λ count. count ≡ get_or counts.now i 0) }
{
    let Some(&lent) = counts.get(i) else {
        return Err(Refusal::MissingOrLeftOver);
    };
    let count = usize::from(lent);
    Refusal::TooMany.unless(Head::has_room(total, count))?;
    Refusal::NoVertices.unless(!Head::is_empty_open(kind, count))?;
    Ok(count)
}

// The obstacle at an index, behind `total` vertices that are there: its kind, its count, which is told, its vertices.
fn judge_obstacle(
    i: usize,
    total: usize,
    kinds: &[u8],
    counts: &[u8],
    vertices: &[f32],
) -> Result<usize, Refusal>
    requires { 2 * total ≤ length vertices.now }
    ensures fault { fault_told result ≡ own_fault total (drop i kinds.now) (drop i counts.now)
        (drop (2 * total) vertices.now) }
    ensures count { IfOk result (λ count. count ≡ get_or counts.now i 0) }
{
    let kind = kind_at(kinds, i)?;
    let count = count_at(total, kind, counts, i)?;
    let own = Head {
        kind: kinds[i],
        count,
    };
    obstacles::judge_outline(own, &vertices[2 * total..])?;
    Ok(count)
}
