// The bytes of a moved record, put into a buffer that has room for them.
ghost use Rattle.std.specs.Prelude.{◌≡◌, ◌+◌, ◌-◌, ◌*◌, ◌≤◌, ◌<◌, [], ◌∷◌, ◌++◌, length, take, drop};
ghost use Rattle.std.proofs.lemmas.List.Edits.{sets};
ghost use Rattle.fields.specs.Bytes.{big_endian};
ghost use Rattle.scene_records.specs.Versions.{byte_of};
ghost use Rattle.scene_moves.specs.Moves.{number_bytes, number_size, line_size, moved_lines};

use scene_records::Version;

// As many bytes as `count`, from a place of the record to a place of the buffer.
fn put_bytes(buffer: &mut [u8], at: usize, source: &[u8], from: usize, count: usize)
    requires { (from + count ≤ length source.now) × (at + count ≤ length buffer.old) }
    ensures { buffer.new ≡ sets buffer.old at (take count (drop from source.now)) }
{
    let end = from + count;
    buffer[at..at + count].copy_from_slice(&source[from..end]);
}

// The new record's length and version, then what stands before its lines.
pub(crate) fn put_start(
    buffer: &mut [u8],
    source: &[u8],
    start: usize,
    size: usize,
    version: Version,
)
    requires { (3 ≤ start) × (start ≤ length source.now) × (start ≤ length buffer.old) × (2 ≤ size) × (size < 65536) }
    ensures { buffer.new
        ≡ sets buffer.old 0 (big_endian 2 (size - 2) ++ (byte_of version ∷ []) ++ take (start - 3)
        (drop 3 source.now)) }
{
    words::put_pair(buffer, 0, (size - 2) as u16);
    buffer[2] = version.byte();
    put_bytes(buffer, 3, source, 3, start - 3);
}

// How many bytes a line's number has.
fn number_size(version: Version) -> usize
    ensures { result ≡ number_size version }
{
    match version {
        Version::One => 0,
        Version::Two => 4,
    }
}

// How many bytes a line has with its number.
pub(crate) fn line_size(version: Version) -> usize
    ensures { result ≡ line_size version }
{
    match version {
        Version::One => 16,
        Version::Two => 20,
    }
}

// A line without its number, from a place of the record; before it, under version 2, the number 0.
fn put_line(buffer: &mut [u8], at: usize, source: &[u8], from: usize, to: Version)
    requires { (from + 16 ≤ length source.now) × (at + line_size to ≤ length buffer.old) }
    ensures { buffer.new
        ≡ sets buffer.old at (number_bytes to 0 ++ take 16 (drop from source.now)) }
{
    match to {
        Version::One => put_bytes(buffer, at, source, from, 16),
        Version::Two => {
            words::put_word(buffer, at, 0);
            put_bytes(buffer, at + 4, source, from, 16);
        }
    }
}

// The lines, moved from the one version to the other.
pub(crate) fn put_lines(
    buffer: &mut [u8],
    source: &[u8],
    start: usize,
    count: usize,
    from: Version,
    to: Version,
)
    requires { (start + line_size from * count ≤ length source.now) × (start + line_size to * count ≤ length buffer.old) }
    ensures { buffer.new
        ≡ sets buffer.old start (moved_lines from to count (drop start source.now)) }
{
    for i in 0..count {
        let new_line = start + line_size(to) * i;
        let old_line = start + line_size(from) * i;
        put_line(buffer, new_line, source, old_line + number_size(from), to);
    }
}
