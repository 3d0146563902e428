// The index of a log's fallbacks (02, T-10), written: built from a log, whole or in parts, and stored over its old
// bytes with new numbers.
#![tactic(auto)]

ghost use Rattle.std.specs.Prelude.{◌≡◌};
ghost use Rattle.answer_records.specs.Numbers.{numbered};
ghost use Rattle.index_building.specs.Indexes.{standing, entry_place};
ghost use Rattle.index_building.specs.Builds.{built_over, part_over, end_over};
ghost use Rattle.index_building.specs.Stores.{stored_over, ends_over};

use admission::Refusal;

mod builds;
mod puts;

// An entry of the index for every so many records.
pub const APART: usize = 64;

// The bytes of an index before its entries, and of an entry.
pub const HEAD_BYTES: usize = 13;

pub const ENTRY_BYTES: usize = 8;

// The bytes of an index up to its first entry, that entry included.
pub const START_BYTES: usize = 21;

pub const VERSION: u8 = 1;

// The greatest number that an index holds.
pub const GREATEST: u64 = 4294967295;

// How far a log was read: its bytes, records and fallbacks so far.
#[derive(Clone, Copy, Debug, PartialEq, Eq)]
pub struct Extent {
    pub bytes: u64,
    pub records: u64,
    pub fallbacks: u64,
}

impl Extent {
    // Nothing of a log.
    pub const NONE: Extent = Extent {
        bytes: 0,
        records: 0,
        fallbacks: 0,
    };
}

// A part of a log that was read: the bytes of it that are used, the bytes of the entries that were written, and how
// far the log is read then.
#[derive(Clone, Copy, Debug, PartialEq, Eq)]
pub struct PartBuilt {
    pub used: usize,
    pub written: usize,
    pub extent: Extent,
}

// Where the last entry at or before a record stands.
pub fn entry_at(a: usize) -> usize
    ensures { result ≡ entry_place a }
{
    HEAD_BYTES + ENTRY_BYTES * (a / APART)
}

// Writes the log's index to the buffer's start, and answers how many bytes it has; bytes behind it keep their contents.
// Refused, with the buffer as it was: the log's first bad record (1 or 2), then a log of more than 4,294,967,295 bytes,
// since no other number of the index is greater (4), then a buffer shorter than the index (10).
pub fn build_index(log: &[u8], buffer: &mut [u8]) -> Result<usize, Refusal>
    ensures { standing (numbered result) buffer.new ≡ built_over log.now buffer.old }
{
    let (used, extent) = builds::walk_part(log, Extent::NONE)?;
    if used < log.len() {
        return Err(Refusal::MissingOrLeftOver);
    }
    builds::store_whole(GREATEST, log, extent, buffer)
}

// A build of a log that comes in parts, one behind the other: writes the entries that the records of a part complete
// to the buffer's start, behind a log that was read so far; before the first part that is nothing. Whole records are
// read; bytes that are left belong before the next part. The first entry, for record 0, is `build_end`'s. Refused,
// with the buffer as it was: numbers that such a part could bring over 64 bits (4), the part's first bad record (1 or
// 2), then a buffer shorter than the entries (10): 8 bytes for each 256 of the part, and 8 more, are enough.
pub fn build_part(part: &[u8], before: Extent, buffer: &mut [u8]) -> Result<PartBuilt, Refusal>
    ensures { standing (numbered result) buffer.new ≡ part_over part.now before buffer.old }
{
    builds::judge_extent(part.len(), before)?;
    let (used, after) = builds::walk_part(part, before)?;
    let written = builds::entry_bytes(before.records, after.records);
    if buffer.len() < written {
        return Err(Refusal::NoRoom);
    }
    builds::fill(part, before, buffer, 0);
    Ok(PartBuilt {
        used,
        written,
        extent: after,
    })
}

// The end of a log that came in parts: writes the index up to its first entry, behind which those belong that the
// parts completed, to the buffer's start. Refused, with the buffer as it was: bytes that are left, which are a record
// cut short (2), a number over 4,294,967,295 (4), then a buffer of fewer than 21 bytes (10).
pub fn build_end(rest: &[u8], extent: Extent, buffer: &mut [u8]) -> Result<usize, Refusal>
    ensures { standing (numbered result) buffer.new ≡ end_over rest.now extent buffer.old }
{
    builds::store_end(GREATEST, rest.len(), extent, buffer)
}

// Brings an index's bytes, at the buffer's start, up to date: stores the log's length and the count before the
// entries, and behind the entries of a record less the one that the count calls for, if any, with the fallbacks
// before the log's end. It answers how many bytes the index has. Refused, with the buffer as it was: a length or a
// count over 4,294,967,295 (4), then a buffer shorter than the index (10).
pub fn store_update(buffer: &mut [u8], extent: Extent) -> Result<usize, Refusal>
    ensures { standing (numbered result) buffer.new ≡ stored_over buffer.old extent.bytes extent.records extent.fallbacks }
{
    if extent.bytes > GREATEST {
        return Err(Refusal::TooMany);
    }
    if extent.records > GREATEST {
        return Err(Refusal::TooMany);
    }
    let whole = entry_at(extent.records as usize) + ENTRY_BYTES;
    if buffer.len() < whole {
        return Err(Refusal::NoRoom);
    }
    puts::put_head(buffer, extent.bytes as u32, extent.records as u32);
    puts::put_new_entry(buffer, entry_at(extent.records as usize + 63), extent);
    Ok(whole)
}

// The ends of an index brought up to date, to the buffer's start, for a host that keeps the entries elsewhere: the 13
// bytes before the entries, and behind them the entry that the count calls for, if any; the entries of a record less
// belong in between. It answers how many bytes they have. Refused, with the buffer as it was: a length or a count
// over 4,294,967,295 (4), then a buffer of fewer than 21 bytes (10).
pub fn put_ends(buffer: &mut [u8], extent: Extent) -> Result<usize, Refusal>
    ensures { standing (numbered result) buffer.new ≡ ends_over buffer.old extent.bytes extent.records extent.fallbacks }
{
    if extent.bytes > GREATEST {
        return Err(Refusal::TooMany);
    }
    if extent.records > GREATEST {
        return Err(Refusal::TooMany);
    }
    if buffer.len() < START_BYTES {
        return Err(Refusal::NoRoom);
    }
    puts::put_head(buffer, extent.bytes as u32, extent.records as u32);
    Ok(puts::put_new_entry(buffer, HEAD_BYTES, extent))
}
