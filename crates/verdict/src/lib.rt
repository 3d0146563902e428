// How many vectors of a set were good, and the line that tells it.
#![tactic(auto)]

ghost use Rattle.std.specs.Prelude.{◌≡◌};
ghost use Rattle.verdict.specs.Tallies.{with_of, is_good};

use std::{fmt, io};

// How many vectors were good and how many bad, and the name of the first bad one, which says nothing while none is bad.
#[derive(Clone, Copy, Debug, PartialEq, Eq)]
pub struct Tally {
    pub good: u64,
    pub bad: u64,
    pub first: u32,
}

impl Tally {
    // The tally of no vectors.
    pub const NONE: Tally = Tally {
        good: 0,
        bad: 0,
        first: 0,
    };

    // The tally with one vector more. Its name is kept if it is the first bad one. A count at the last u64 stays there,
    // and never comes round to 0.
    #[tactic(auto, unfolding(crate::specs::Tallies::with_of, crate::specs::Tallies::more_of, crate::specs::Tallies::first_of))]
    pub fn with(self, good: bool, name: u32) -> Tally
        ensures { result ≡ with_of self good name }
    {
        if good {
            return Tally {
                good: self.good.saturating_add(1),
                ..self
            };
        }
        Tally {
            bad: self.bad.saturating_add(1),
            first: if self.bad == 0 { name } else { self.first },
            ..self
        }
    }

    // Whether there were vectors, and none was bad.
    #[tactic(auto, unfolding(crate::specs::Tallies::is_good))]
    pub fn is_good(self) -> bool
        ensures { result ≡ is_good self }
    {
        self.good > 0 && self.bad == 0
    }

    // Writes the set's line to standard output, and answers whether the tally is good. The line is
    // `SET: ok N`, `SET: bad N, the first is NAME` with the name in eight hexadecimal digits, or `SET: bad, no vectors`.
    // The answer is proved. What is written no contract can say: programs are run, and their lines compared. A line that
    // cannot be written is lost, and the answer is given all the same.
    pub fn tell(self, rt: &impl Print, set: &[u8]) -> bool
        ensures { result ≡ is_good self }
    {
        let _ = self.tell_line(rt, set);
        self.is_good()
    }

    // The set's line.
    fn tell_line(self, rt: &impl Print, set: &[u8]) -> io::Result<()> {
        rt.write_all(set)?;
        println!(rt; ": {self}")
    }
}

// What follows the set's name in its line.
impl fmt::Display for Tally {
    fn fmt<W: fmt::Write>(&self, f: &mut fmt::Formatter<W>) -> fmt::Result {
        let Tally { good, bad, first } = *self;
        if self.is_good() {
            return write!(f, "ok {good}");
        }
        if bad == 0 {
            return write!(f, "bad, no vectors");
        }
        write!(f, "bad {bad}, the first is {first:08x}")
    }
}
