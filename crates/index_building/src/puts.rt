// The index's head and its entries, stored in lent bytes.
ghost use Rattle.std.specs.Prelude.{◌≡◌, ◌+◌, ◌≤◌, length};
ghost use Rattle.std.proofs.lemmas.List.Edits.{sets};
ghost use Rattle.index_building.specs.Indexes.{entry_with, head, start_of};
ghost use Rattle.index_building.specs.Builds.{entry_here};

use crate::{ENTRY_BYTES, Extent, HEAD_BYTES, VERSION};

// The fields before the entries, and the entry for 0.
pub(crate) fn put_start(buffer: &mut [u8], total: u32, count: u32)
    requires { 21 ≤ length buffer.old }
    ensures { buffer.new ≡ sets buffer.old 0 (start_of total count) }
{
    put_head(buffer, total, count);
    put_entry(buffer, HEAD_BYTES, 0, 0);
}

// The fields before the entries.
pub(crate) fn put_head(buffer: &mut [u8], total: u32, count: u32)
    requires { 13 ≤ length buffer.old }
    ensures { buffer.new ≡ sets buffer.old 0 (head total count) }
{
    words::put_word(buffer, 0, 9 + 8 * (count / 64 + 1));
    buffer[4] = VERSION;
    words::put_word(buffer, 5, total);
    words::put_word(buffer, 9, count);
}

// The entry for so many records, where there is one, from `at` on; and the byte behind it.
pub(crate) fn put_new_entry(buffer: &mut [u8], at: usize, extent: Extent) -> usize
    requires { at + length (entry_here extent) ≤ length buffer.old }
    ensures { (buffer.new ≡ sets buffer.old at (entry_here extent)) × (result ≡ at + length (entry_here extent)) }
{
    if extent.records % 64 == 0 {
        put_entry(buffer, at, extent.bytes, extent.fallbacks);
        return at + ENTRY_BYTES;
    }
    at
}

// An entry, of each number the lowest four bytes.
fn put_entry(buffer: &mut [u8], at: usize, offset: u64, before: u64)
    requires { at + 8 ≤ length buffer.old }
    ensures { buffer.new ≡ sets buffer.old at (entry_with offset before) }
{
    words::put_word(buffer, at, (offset % 4294967296) as u32);
    words::put_word(buffer, at + 4, (before % 4294967296) as u32);
}
