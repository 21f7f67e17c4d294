// Runs the chunk code on known vectors: a line has a chunk's 128 bytes and its code's three, in hexadecimal.
#![tactic(auto)]

ghost use Rattle.std.specs.Prelude.{◌≡◌, ◌+◌, ◌<◌, length};

use ecc::{Code, Verdict};
use std::io::Read;
use std::{fs, io};

// A line: 256 digits, a space, six digits, a newline.
const LINE: usize = 264;

#[derive(Default, Drop)]
struct Tally {
    vectors: u64,
    malformed: u64,
    differs: u64,
    good: u64,
    found: u64,
    unreadable: u64,
}

// The value of a digit.
fn digit(b: u8) -> Option<u8> {
    match b {
        b'0'..=b'9' => Some(b - b'0'),
        b'a'..=b'f' => Some(b - b'a' + 10),
        _ => None,
    }
}

// The byte of the two digits at `at`.
fn byte_at(line: &[u8], at: usize) -> Option<u8>
    requires { at + 1 < length line.now }
{
    Some(digit(line[at])? << 4 | digit(line[at + 1])?)
}

// A line's chunk.
fn chunk_of(line: &[u8; LINE]) -> Option<[u8; 128]> {
    let mut chunk = [0; 128];
    for i in 0..128 {
        chunk[i] = byte_at(line, 2 * i)?;
    }
    Some(chunk)
}

// A line's code.
fn code_of(line: &[u8; LINE]) -> Option<Code> {
    Some(Code {
        byte0: byte_at(line, 257)?,
        byte1: byte_at(line, 259)?,
        byte2: byte_at(line, 261)?,
    })
}

// A chunk beside its code.
#[derive(Drop)]
struct Vector {
    chunk: [u8; 128],
    code: Code,
}

impl Vector {
    // A line's vector, where the line has its space and its newline, and digits elsewhere.
    fn of(line: &[u8; LINE]) -> Option<Vector> {
        if line[256] != b' ' || line[263] != b'\n' {
            return None;
        }
        let chunk = chunk_of(line)?;
        let code = code_of(line)?;
        Some(Vector { chunk, code })
    }

    fn judged(&self) -> Verdict {
        ecc::judge_chunk(&self.chunk, self.code)
    }

    // Data bit k of the chunk is flipped.
    fn flip(&mut self, k: usize)
        requires { k < 1024 }
    {
        self.chunk[k / 8] ^= 1 << ((k % 8) as u8);
    }
}

// The verdict on data bit k.
fn at(k: usize) -> Verdict {
    Verdict::DataBit {
        byte: k / 8,
        bit: (k % 8) as u8,
    }
}

// Counts one more if `yes`.
fn count(n: &mut u64, yes: bool) {
    *n = n.wrapping_add(u64::from(yes));
}

impl Tally {
    // Line i is tried as it is, with a bit flipped that is another for each line, and with a second one.
    fn add(&mut self, line: &[u8; LINE], i: usize) {
        count(&mut self.vectors, true);
        let Some(mut vector) = Vector::of(line) else {
            count(&mut self.malformed, true);
            return;
        };
        count(
            &mut self.differs,
            ecc::chunk_code(&vector.chunk) != vector.code,
        );
        count(&mut self.good, vector.judged() == Verdict::Good);
        let n = i % 256;
        let one = (5 * n + 3) % 1024;
        vector.flip(one);
        count(&mut self.found, vector.judged() == at(one));
        let two = (8 * n + 4) % 1024;
        vector.flip(two);
        count(&mut self.unreadable, vector.judged() == Verdict::Unreadable);
    }
}

fn all_tried(text: &[u8]) -> Tally {
    let mut tally = Tally::default();
    for (i, line) in text.chunks_exact(LINE).enumerate() {
        if let Some(line) = line.as_array() {
            tally.add(line, i);
        }
    }
    tally
}

fn run(rt: &impl Print, text: &[u8]) -> io::Result<()> {
    let tally = all_tried(text);
    println!(rt; "vectors {}", tally.vectors)?;
    println!(rt; "malformed {}", tally.malformed)?;
    println!(rt; "left over bytes {}", text.len() % LINE)?;
    println!(rt; "code differs {}", tally.differs)?;
    println!(rt; "good {}", tally.good)?;
    println!(rt; "one flip found {}", tally.found)?;
    println!(rt; "two flips unreadable {}", tally.unreadable)
}

fn main(rt: HostRuntime) -> io::Result<()> {
    let path = "ecc-vectors.txt";
    let file = match fs::open(&rt, path) {
        Ok(file) => file,
        Err(error) => return eprintln!(rt; "{path}: {error}"),
    };
    let mut text = Vec::new(rt.alloc());
    file.take(68000).read_to_end(&mut text)?;
    run(&rt, text.as_slice())
}
