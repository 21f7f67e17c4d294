#![tactic(auto)]

ghost use Rattle.std.specs.Prelude.{◌≡◌, List, ℕ, ◌<◌, ◌≤◌, get_or, length, take};
ghost use Rattle.ecc.specs.Code.{code_of, contribution, ◌⊕◌};
ghost use Rattle.ecc.specs.Four.{code_at, codes_of, count_of, judge_four};
ghost use Rattle.ecc.specs.Judge.{judge, judge_slice};
ghost use Rattle.ecc.specs.Parities.{code_in, HoldsParities};

use crate::parities::{parities_in, parity_table};

pub mod claims;
mod parities;

// The three code bytes of a chunk.
#[derive(Clone, Copy, PartialEq, Eq)]
pub struct Code {
    pub byte0: u8,
    pub byte1: u8,
    pub byte2: u8,
}

// How a chunk beside its stored code is judged. A DataBit has the place of the flipped bit.
#[derive(Clone, Copy, PartialEq, Eq)]
pub enum Verdict {
    Good,
    DataBit { byte: usize, bit: u8 },
    CodeBit,
    Unreadable,
}

// What `sums` starts as: 0x77 for code byte 0, 0x7F for byte 2 and, as bit 7 is clear, for byte 1.
const START: u32 = 0x7F77;

// `sums` with the byte at index i taken in: of its entry's ones above bit 7 those of the index stay.
// Entries have 16 bits, so that the table is small; sums have 32, which is the quicker width to work in.
fn with_byte(table: &[u16; 256], sums: u32, i: usize, byte: u8) -> u32
    requires { HoldsParities table.now × (i < 128) }
    ensures { code_in result ≡ code_in sums ⊕ contribution i byte }
{
    sums ^ (parities_in(table, byte) as u32 & (256 * (i as u32) + 255))
}

// The code that `sums` carries: code byte 0 in bits 0 to 6 and code byte 2 in bits 8 to 14. Where byte 2 takes i, byte 1
// takes 127 - i, which is 127 XOR i: so it is byte 2, and 127 XOR that after an odd number of such bytes, which bit 7 tells.
fn code_in(sums: u32) -> Code
    ensures { result ≡ code_in sums }
{
    let odd = (sums / 128 % 2) as u8;
    let byte2 = (sums / 256 % 256) as u8;
    Code {
        byte0: (sums % 128) as u8,
        byte1: byte2 ^ (127 * odd),
        byte2,
    }
}

// The code of the first 128 bytes of `chunk`, or of them all where there are fewer.
pub fn chunk_code(chunk: &[u8]) -> Code
    ensures { result ≡ code_of (take 128 chunk.now) }
{
    let table = parity_table();
    let mut sums = START;
    let bytes = &chunk[..chunk.len().min(128)];
    for (i, byte) in bytes.iter().enumerate() {
        sums = with_byte(table, sums, i, *byte);
    }
    code_in(sums)
}

// How a chunk is judged whose right code and stored code are given.
// The syndrome, the code bits that count and do not match, has no bit set, those of one data bit, or a single one.
fn judge_by(right: Code, stored: Code) -> Verdict
    ensures { (chunk : List ℕ) → length chunk ≡ 128 → right ≡ code_of chunk → result ≡ judge chunk stored }
{
    let columns = (right.byte0 ^ stored.byte0) & 0x77;
    let opposite = (right.byte1 ^ stored.byte1) & 0x7F;
    let index = (right.byte2 ^ stored.byte2) & 0x7F;
    if columns == 0 && opposite == 0 && index == 0 {
        return Verdict::Good;
    }
    let bit = columns >> 4;
    if columns % 16 == 7 - bit && opposite == 127 - index {
        return Verdict::DataBit {
            byte: index as usize,
            bit,
        };
    }
    if columns.count_ones() + opposite.count_ones() + index.count_ones() == 1 {
        return Verdict::CodeBit;
    }
    Verdict::Unreadable
}

// How a chunk beside its stored code is judged; what is not 128 bytes long is no chunk, and unreadable.
pub fn judge_chunk(chunk: &[u8], stored: Code) -> Verdict
    ensures { result ≡ judge_slice chunk.now stored }
{
    if chunk.len() != 128 {
        return Verdict::Unreadable;
    }
    judge_by(chunk_code(chunk), stored)
}

// One thing for each of a page's four chunks, by their numbers.
#[derive(Clone, Copy)]
pub struct Four<T> {
    pub chunk0: T,
    pub chunk1: T,
    pub chunk2: T,
    pub chunk3: T,
}

impl Four<bool> {
    // How many of the four are true.
    pub fn count(self) -> usize
        ensures { (result ≡ count_of self) × (result ≤ 4) }
    {
        usize::from(self.chunk0)
            + usize::from(self.chunk1)
            + usize::from(self.chunk2)
            + usize::from(self.chunk3)
    }
}

// The codes of four chunks in one pass (request 10 of document 02): no sum waits for another. Each turn takes two
// bytes of every chunk in.
fn codes_of(chunk0: &[u8], chunk1: &[u8], chunk2: &[u8], chunk3: &[u8]) -> Four<Code>
    requires { (length chunk0.now ≡ 128) × (length chunk1.now ≡ 128) × (length chunk2.now ≡ 128) × (length chunk3.now ≡ 128) }
    ensures { result ≡ codes_of chunk0.now chunk1.now chunk2.now chunk3.now }
{
    let table = parity_table();
    let mut sums0 = START;
    let mut sums1 = START;
    let mut sums2 = START;
    let mut sums3 = START;
    for turn in 0..64 {
        let i = 2 * turn;
        let even0 = with_byte(table, sums0, i, chunk0[i]);
        let even1 = with_byte(table, sums1, i, chunk1[i]);
        let even2 = with_byte(table, sums2, i, chunk2[i]);
        let even3 = with_byte(table, sums3, i, chunk3[i]);
        let j = i + 1;
        sums0 = with_byte(table, even0, j, chunk0[j]);
        sums1 = with_byte(table, even1, j, chunk1[j]);
        sums2 = with_byte(table, even2, j, chunk2[j]);
        sums3 = with_byte(table, even3, j, chunk3[j]);
    }
    Four {
        chunk0: code_in(sums0),
        chunk1: code_in(sums1),
        chunk2: code_in(sums2),
        chunk3: code_in(sums3),
    }
}

// A byte that is missing counts as zero. `fields` says the same of its bytes; neither crate stands on the other.
fn byte_at(bytes: &[u8], i: usize) -> u8
    ensures { result ≡ get_or bytes.now i 0 }
{
    bytes.get(i).copied().unwrap_or(0)
}

// The stored code of chunk k: three bytes for each chunk in turn.
fn code_at(stored: &[u8], k: usize) -> Code
    requires { k < 4 }
    ensures { result ≡ code_at stored.now k }
{
    Code {
        byte0: byte_at(stored, 3 * k),
        byte1: byte_at(stored, 3 * k + 1),
        byte2: byte_at(stored, 3 * k + 2),
    }
}

// Four chunks beside the code bytes stored for them, three for each: every one is judged as `judge_chunk` judges it.
pub fn judge_four(
    chunk0: &[u8],
    chunk1: &[u8],
    chunk2: &[u8],
    chunk3: &[u8],
    stored: &[u8],
) -> Four<Verdict>
    ensures { result ≡ judge_four chunk0.now chunk1.now chunk2.now chunk3.now stored.now }
{
    if chunk0.len() == 128 && chunk1.len() == 128 && chunk2.len() == 128 && chunk3.len() == 128 {
        let right = codes_of(chunk0, chunk1, chunk2, chunk3);
        return Four {
            chunk0: judge_by(right.chunk0, code_at(stored, 0)),
            chunk1: judge_by(right.chunk1, code_at(stored, 1)),
            chunk2: judge_by(right.chunk2, code_at(stored, 2)),
            chunk3: judge_by(right.chunk3, code_at(stored, 3)),
        };
    }
    Four {
        chunk0: judge_chunk(chunk0, code_at(stored, 0)),
        chunk1: judge_chunk(chunk1, code_at(stored, 1)),
        chunk2: judge_chunk(chunk2, code_at(stored, 2)),
        chunk3: judge_chunk(chunk3, code_at(stored, 3)),
    }
}
