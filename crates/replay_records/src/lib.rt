// The records of a set of vectors: a walk over their file, and what a record holds at a place, counted in bytes:
// inputs, and answers to compare with. Words are big-endian.
#![tactic(auto)]

ghost use Rattle.std.specs.Prelude.{◌≡◌, ◌-◌, ◌≤◌, length, take};
ghost use Rattle.verdict.specs.Tallies.{no_vectors, is_good};
ghost use Rattle.replay_records.specs.Answers.{number_at, vector_at, is_number, is_vector, is_flag, agrees_with};
ghost use Rattle.replay_records.specs.Records.{first_numbers};

use common::Vec2;
use std::fs::File;
use std::io::Read;
use std::rt::Files;
use verdict::Tally;

// A walk over the records of a file: how many indices are left to name records by, none once it is over, and the
// comparisons so far. The file is none where it could not be opened.
#[derive(Drop)]
pub struct Walk {
    pub file: Option<File>,
    pub left: u32,
    pub tally: Tally,
}

impl Walk {
    // The walk at the start of the set's file. A file that is not there has no vectors.
    pub fn open(rt: &impl Files<File = File>, set: &[u8]) -> Walk
        ensures { result.tally ≡ no_vectors }
    {
        let file = open_set(rt, set);
        let left = if file.is_some() { u32::MAX } else { 0 };
        Walk {
            file,
            left,
            tally: Tally::NONE,
        }
    }

    // Reads the next record's head, which fills `head`. The walk is over where the file ends. A head that is cut short
    // is bad, and one for which no index is left.
    pub fn read_head(self, head: &mut [u8]) -> Walk
        ensures { result.left ≤ self.left }
    {
        let mut walk = self;
        let n = read_full(&mut walk.file, head);
        if n == 0 {
            return Walk { left: 0, ..walk };
        }
        if n < head.len() {
            return walk.broken();
        }
        if walk.left < 2 {
            return walk.broken();
        }
        walk
    }

    // Reads the bytes behind a head to the start of `rest`. A record that is cut short, or longer than any, is bad, and
    // the walk is over: none behind it can be found.
    pub fn read_rest(self, size: usize, rest: &mut [u8]) -> Walk
        ensures { result.left ≤ self.left }
    {
        if self.left == 0 {
            return self;
        }
        if size > rest.len() {
            return self.broken();
        }
        let mut walk = self;
        if read_full(&mut walk.file, &mut rest[0..size]) < size {
            return walk.broken();
        }
        walk
    }

    // The index of the record that the walk is at.
    pub fn index(&self) -> u32
        ensures { result ≡ 0xffff_ffff - self.now.left }
    {
        u32::MAX - self.left
    }

    // The walk behind its record, whose comparisons are in the tally.
    pub fn behind(self, tally: Tally) -> Walk
        ensures { (result.left ≡ self.left - 1) × (result.tally ≡ tally) }
    {
        if self.left == 0 {
            return Walk { tally, ..self };
        }
        Walk {
            left: self.left - 1,
            tally,
            ..self
        }
    }

    // Writes the set's line, as a tally tells it, and answers whether it is good.
    pub fn tell(self, rt: &impl Print, set: &[u8]) -> bool
        ensures { result ≡ is_good self.tally }
    {
        let tally = self.tally;
        tally.tell(rt, set)
    }

    // The walk that is over at a bad record.
    fn broken(self) -> Walk
        ensures { result.left ≡ 0 }
    {
        let tally = self.tally;
        let index = self.index();
        Walk {
            left: 0,
            tally: tally.with(false, index),
            ..self
        }
    }
}

// The set's file, open to be read; none where it cannot be opened. A file's name is text.
pub fn open_set(rt: &impl Files<File = File>, set: &[u8]) -> Option<File> {
    let name = str::from_utf8(set).ok()?;
    File::open(rt, name).ok()
}

// Reads until `bytes` is full, the file ends or a read fails, and answers how many bytes it put at the start: of a file
// that is not there none.
pub fn read_full(file: &mut Option<File>, bytes: &mut [u8]) -> usize
    ensures { result ≤ length bytes.new }
{
    let Some(file) = file else {
        return 0;
    };
    let mut done = 0;
    // kept: no plainer: each read brings as many bytes as it likes.
    while done < bytes.len() {
        match file.read(&mut bytes[done..]) {
            Ok(0) | Err(_) => break,
            Ok(n) => done += n,
        }
    }
    done
}

// The number at the place.
#[tactic(auto, unfolding(crate::specs::Answers::number_at))]
pub fn number_at(bytes: &[u8], at: usize) -> f32
    ensures { result ≡ number_at bytes.now at }
{
    words::number(words::word_at(bytes, at))
}

// The vector at the place, x first.
#[tactic(auto, unfolding(crate::specs::Answers::vector_at))]
pub fn vector_at(bytes: &[u8], at: u16) -> Vec2
    ensures { result ≡ vector_at bytes.now at }
{
    Vec2 {
        x: number_at(bytes, at as usize),
        y: number_at(bytes, at as usize + 4),
    }
}

// Whether the number is the answer at the place, bit for bit.
#[tactic(auto, unfolding(crate::specs::Answers::is_number))]
pub fn is_number(bytes: &[u8], at: usize, x: f32) -> bool
    ensures { result ≡ is_number bytes.now at x }
{
    words::has_pattern(x, words::word_at(bytes, at))
}

// Whether the vector is the answer at the place, bit for bit in both components.
#[tactic(auto, unfolding(crate::specs::Answers::is_vector))]
pub fn is_vector(bytes: &[u8], at: u16, v: Vec2) -> bool
    ensures { result ≡ is_vector bytes.now at v }
{
    is_number(bytes, at as usize, v.x) && is_number(bytes, at as usize + 4, v.y)
}

// Whether the flag is the answer at the place: 1 where it is true, else 0.
#[tactic(auto, unfolding(crate::specs::Answers::is_flag))]
pub fn is_flag(bytes: &[u8], at: usize, flag: bool) -> bool
    ensures { result ≡ is_flag bytes.now at flag }
{
    let word = words::word_at(bytes, at);
    if flag { word == 1 } else { word == 0 }
}

// Whether the number is the one with the pattern by value: bit for bit, but for zeros, since Rust's `min` and `max`
// leave open which of two zeros they take. A NaN is no answer.
#[tactic(auto, unfolding(crate::specs::Answers::agrees_with))]
pub fn agrees(x: f32, pattern: u32) -> bool
    ensures { result ≡ agrees_with x pattern }
{
    x == words::number(pattern)
}

// The first `count` numbers, of a line list four a line, of an obstacle two a vertex, and then zeros. More than 1,280
// are not asked for.
#[tactic(auto, unfolding(crate::specs::Records::first_numbers))]
pub fn first_numbers(bytes: &[u8], count: usize) -> [f32; 1280]
    ensures { count ≤ 1280 → take count result ≡ first_numbers bytes.now count }
{
    let mut numbers: [f32; 1280] = [0.0; 1280];
    for i in 0..count.min(1280) {
        numbers[i] = number_at(bytes, 4 * i);
    }
    numbers
}
