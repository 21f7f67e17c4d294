// Numbers and bytes put into bytes, as a page's. What would lie past their end is not written.
ghost use Rattle.std.specs.Prelude.{◌≡◌};
ghost use Rattle.std.proofs.lemmas.List.Edits.{sets};
ghost use Rattle.model.specs.Bytes.{little_bytes};

// Bytes put at a place.
pub fn put_bytes(bytes: &mut [u8], at: usize, field: &[u8])
    ensures { bytes.new ≡ sets bytes.old at field.now }
{
    if at < bytes.len() {
        let count = field.len().min(bytes.len() - at);
        bytes[at..at + count].copy_from_slice(&field[..count]);
    }
}

// A half put at a place.
pub fn put_half(bytes: &mut [u8], at: usize, value: u32)
    ensures { bytes.new ≡ sets bytes.old at (little_bytes 2 value) }
{
    put_bytes(bytes, at, &value.to_le_bytes()[..2])
}

// A word put at a place.
pub fn put_word(bytes: &mut [u8], at: usize, value: u32)
    ensures { bytes.new ≡ sets bytes.old at (little_bytes 4 value) }
{
    put_bytes(bytes, at, &value.to_le_bytes())
}
