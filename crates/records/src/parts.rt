// Bytes to be skipped of a stream of records.
ghost use Rattle.std.specs.Prelude.{◌≡◌};
ghost use Rattle.records.specs.Parts.{part_of, skipped_of};

use crate::Part;

// As many of the bytes to be skipped as are there.
pub(crate) fn skipped(length: usize, skip: usize) -> Option<Part>
    ensures { part_of result ≡ skipped_of skip length }
{
    if length == 0 {
        return None;
    }
    Some(Part::Skipped(length.min(skip)))
}
