// Tries `arithmetic::sqrt` on the vectors of data/. A vector is the pattern of a number and the pattern of its root,
// four bytes each, the highest first.
#![tactic(auto)]

ghost use Rattle.std.specs.Prelude.{◌≡◌};
ghost use Rattle.std.specs.Float.{binary32};
ghost use Rattle.std.specs.Float.Ieee.{of_bits};
ghost use Rattle.arithmetic.specs.Root.{sqrt_of};
ghost use Rattle.words.specs.Words.{word_of};
ghost use Rattle.words.specs.Patterns.{has_pattern};

use std::fs::File;
use std::rt::Files;
use verdict::Tally;

// Whether the root of the vector's number is the root that it names, bit for bit.
fn is_root(vector: &[u8]) -> bool
    ensures { result ≡ has_pattern (sqrt_of (of_bits binary32 (word_of vector.now 0)))
        (word_of vector.now 4) }
{
    let x = words::number(words::word_at(vector, 0));
    words::has_pattern(arithmetic::sqrt(x), words::word_at(vector, 4))
}

// The tally with the vector counted in, by the pattern of its number. Bytes too few for a vector are a bad one.
fn counted(vector: &[u8], t: Tally) -> Tally {
    let name = words::word_at(vector, 0);
    t.with(vector.len() == 8 && is_root(vector), name)
}

// The tally with the vectors of a chunk counted in.
fn all_counted(chunk: &[u8], mut tally: Tally) -> Tally {
    for vector in chunk.chunks(8) {
        tally = counted(vector, tally);
    }
    tally
}

// The tally of a file, read in chunks that are full of whole vectors, but for the last.
fn tally_of(mut file: Option<File>) -> Tally {
    let mut tally = Tally::NONE;
    let mut chunk = [0u8; 65536];
    for _ in 0..u64::MAX {
        let n = replay_records::read_full(&mut file, &mut chunk);
        if n == 0 {
            break;
        }
        tally = all_counted(&chunk[0..n], tally);
    }
    tally
}

// One set of vectors: a file of data/, and its line of output. A file that is not there has no vectors.
fn run(rt: &(impl Files<File = File> + Print), set: &[u8]) {
    tally_of(replay_records::open_set(rt, set)).tell(rt, set);
}

fn main(rt: HostRuntime) {
    run(&rt, b"glibc");
    run(&rt, b"spread");
}
