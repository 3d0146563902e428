// A build: the records of a log, or of a part of one, are walked, then the entries that they complete are stored.
ghost use Rattle.std.specs.Prelude.{◌≡◌, true, ◌+◌, ◌-◌, ◌*◌, ◌/◌, ◌≤◌, length, Ok};
ghost use Rattle.std.proofs.lemmas.List.Edits.{sets};
ghost use Rattle.admission.specs.Faults.{fine, fault_of};
ghost use Rattle.answer_records.specs.Numbers.{numbered};
ghost use Rattle.log_walks.specs.Parts.{is_whole, wholes_of};
ghost use Rattle.index_building.specs.Indexes.{greatest, standing};
ghost use Rattle.index_building.specs.Builds.{built_up_to, extent, at_start, extent_fault, completed_by, progress_by, end_fault, end_up_to};

use crate::{ENTRY_BYTES, Extent, START_BYTES, puts};
use admission::{Judged, Refusal};

// 4 where a part of so many bytes could bring a number over 64 bits.
pub(crate) fn judge_extent(size: usize, extent: Extent) -> Judged
    ensures { fault_of result ≡ extent_fault size extent }
{
    let room = u64::MAX - size as u64;
    Refusal::TooMany.unless(extent.bytes <= room)?;
    Refusal::TooMany.unless(extent.records <= room)?;
    Refusal::TooMany.unless(extent.fallbacks <= room)
}

// The bytes of the entries for the records behind the first count, up to the second.
pub(crate) fn entry_bytes(before: u64, after: u64) -> usize
    ensures { result ≡ 8 * (after / 64 - before / 64) }
{
    if after < before {
        return 0;
    }
    ENTRY_BYTES * (after / 64 - before / 64) as usize
}

// How many bytes the whole records of a part have, and how far they bring what was before it. The first bad one is refused.
pub(crate) fn walk_part(part: &[u8], before: Extent) -> Result<(usize, Extent), Refusal>
    requires { extent_fault (length part.now) before ≡ fine }
    ensures { numbered result ≡ progress_by 0 before (wholes_of part.now) }
{
    let mut at = 0;
    let mut extent = before;
    while let Some((behind, more)) = log_walks::pass(answer_logs::whole_at(part, at))? {
        extent = extended(extent, (behind - at) as u64, more);
        at = behind;
    }
    Ok((at, extent))
}

// Stores the entries that the records of a part complete, where none is bad, from `start` on.
pub(crate) fn fill(part: &[u8], before: Extent, buffer: &mut [u8], start: usize)
    requires before_value { extent_fault (length part.now) before ≡ fine }
    requires part_value { is_whole (wholes_of part.now) ≡ true }
    requires part_in_bounds { start + length (completed_by before (wholes_of part.now)) ≤ length buffer.old }
    ensures { buffer.new ≡ sets buffer.old start (completed_by before (wholes_of part.now)) }
{
    let mut at = 0;
    let mut to = start;
    // kept: tried, the proof does not close with a nested `Ok(Some(..))`; no record of the part is bad
    let mut extent = before;
    while let Some((behind, more)) = log_walks::pass(answer_logs::whole_at(part, at)).unwrap_or(
        None,
    ) {
        let next = extended(extent, (behind - at) as u64, more);
        to = puts::put_new_entry(buffer, to, next);
        extent = next;
        at = behind;
    }
}

// Writes the index of a log whose records reach its end, where no number may be over `most`.
pub(crate) fn store_whole(
    most: u64,
    log: &[u8],
    extent: Extent,
    buffer: &mut [u8],
) -> Result<usize, Refusal>
    requires most_le_greatest { most ≤ greatest }
    requires log_value { progress_by 0 at_start (wholes_of log.now) ≡ Ok (length log.now, extent) }
    ensures { standing (numbered result) buffer.new ≡ built_up_to most log.now buffer.old }
{
    if extent.bytes > most {
        return Err(Refusal::TooMany);
    }
    let needed = crate::entry_at(extent.records as usize) + ENTRY_BYTES;
    if buffer.len() < needed {
        return Err(Refusal::NoRoom);
    }
    puts::put_start(buffer, extent.bytes as u32, extent.records as u32);
    fill(log, Extent::NONE, buffer, START_BYTES);
    Ok(needed)
}

// Writes the index up to its first entry, where so many bytes are left and no number may be over `most`.
pub(crate) fn store_end(
    most: u64,
    left: usize,
    extent: Extent,
    buffer: &mut [u8],
) -> Result<usize, Refusal>
    requires { most ≤ greatest }
    ensures { standing (numbered result) buffer.new ≡ end_up_to most left extent buffer.old }
{
    judge_end(most, left, extent)?;
    if buffer.len() < START_BYTES {
        return Err(Refusal::NoRoom);
    }
    puts::put_start(buffer, extent.bytes as u32, extent.records as u32);
    Ok(START_BYTES)
}

fn judge_end(most: u64, left: usize, extent: Extent) -> Judged
    ensures { fault_of result ≡ end_fault most left extent }
{
    Refusal::MissingOrLeftOver.unless(left == 0)?;
    Refusal::TooMany.unless(extent.bytes <= most)?;
    Refusal::TooMany.unless(extent.records <= most)
}

// With one record more, of so many bytes.
fn extended(before: Extent, size: u64, more: u64) -> Extent
    requires size_bound { before.bytes + size ≤ 18446744073709551615 }
    requires records_bound { before.records + 1 ≤ 18446744073709551615 }
    requires more_bound { before.fallbacks + more ≤ 18446744073709551615 }
    ensures { result ≡ extent (before.bytes + size) (before.records + 1) (before.fallbacks + more) }
{
    Extent {
        bytes: before.bytes + size,
        records: before.records + 1,
        fallbacks: before.fallbacks + more,
    }
}
