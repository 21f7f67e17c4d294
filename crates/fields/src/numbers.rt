// Numbers in bytes, the lowest byte first.
ghost use Rattle.std.specs.Prelude.{◌≡◌, get_or};
ghost use Rattle.model.specs.Bytes.{half, word};

// The byte at a place. A missing byte counts as zero. `ecc` has its own: neither crate stands on the other.
pub fn byte_in(bytes: &[u8], at: usize) -> u8
    ensures { result ≡ get_or bytes.now at 0 }
{
    bytes.get(at).copied().unwrap_or(0)
}

// The half at a place. A place past the end is told first, so that the next one cannot wrap.
pub fn half_at(bytes: &[u8], at: usize) -> u32
    ensures { result ≡ half bytes.now at }
{
    if bytes.len() <= at {
        return 0;
    }
    u32::from(u16::from_le_bytes([bytes[at], byte_in(bytes, at + 1)]))
}

// The word at a place.
pub fn word_at(bytes: &[u8], at: usize) -> u32
    ensures { result ≡ word bytes.now at }
{
    if bytes.len() <= at {
        return 0;
    }
    u32::from_le_bytes([
        bytes[at],
        byte_in(bytes, at + 1),
        byte_in(bytes, at + 2),
        byte_in(bytes, at + 3),
    ])
}
