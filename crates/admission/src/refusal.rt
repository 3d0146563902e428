// Why something is refused (01 and 02, "Refusal numbers"), and the number that is told of it.
ghost use Rattle.std.specs.Prelude.{◌≡◌};
ghost use Rattle.admission.specs.Faults.{fault_of, must};
ghost use Rattle.admission.specs.Refusals.{number_of};

use crate::{Judged, fault_unless};
use std::error::Error;
use std::fmt;

#[derive(Clone, Copy, Debug, PartialEq, Eq, Hash)]
pub enum Refusal {
    OtherVersion = 1,
    MissingOrLeftOver = 2,
    UnknownKind = 3,
    TooMany = 4,
    NoVertices = 5,
    OutOfRange = 6,
    OutOfBand = 7,
    EndsCrossed = 8,
    // An edge's line that was made is not admitted, or a point or a penetration that was worked out is not finite.
    NotAdmitted = 9,
    NoRoom = 10,
    LosesNumbers = 11,
    AnotherLog = 12,
    NoSuchRecords = 13,
    DoubledVertex = 14,
    NoSuchLine = 15,
}

impl Refusal {
    pub fn number(self) -> u8
        ensures { result ≡ number_of self }
    {
        self as u8
    }

    // This refusal, unless the rule passes.
    pub fn unless(self, passes: bool) -> Judged
        ensures { fault_of result ≡ must passes (number_of self) }
    {
        fault_unless(passes, self)
    }
}

impl fmt::Display for Refusal {
    fn fmt<W: fmt::Write>(&self, f: &mut fmt::Formatter<W>) -> fmt::Result {
        f.write_str(match self {
            Refusal::OtherVersion => "another version",
            Refusal::MissingOrLeftOver => "bytes or numbers are missing or left over",
            Refusal::UnknownKind => "an obstacle is neither closed nor open",
            Refusal::TooMany => "a count is over its limit",
            Refusal::NoVertices => "an open obstacle has no vertices",
            Refusal::OutOfRange => "a number is not finite or out of range",
            Refusal::OutOfBand => "a line's direction is out of its band",
            Refusal::EndsCrossed => "the ends are not in order at the clamp to a wish",
            Refusal::NotAdmitted => "what was worked out is not admitted",
            Refusal::NoRoom => "the buffer is too short",
            Refusal::LosesNumbers => "a neighbour's number would be lost",
            Refusal::AnotherLog => "the index names another log",
            Refusal::NoSuchRecords => "the log has no such records",
            Refusal::DoubledVertex => "a vertex is the one before it again",
            Refusal::NoSuchLine => "there is no line at the index",
        })
    }
}

impl Error for Refusal {}
