// Names: where an entry's page holds one, the name rule, and comparing whole.
ghost use Rattle.std.specs.Prelude.{◌≡◌, ◌∷◌, [], length};
ghost use Rattle.model.specs.Bytes.{before_zero, slice};
ghost use Rattle.model.specs.Names.{legal_bytes, good_name, same_name, dot_name, dot_dot_name};
ghost use Rattle.model.specs.Entry.{entry_of};

// The name of an entry, lent from its page: 32 bytes where no zero ends it.
pub fn entry_name(page: &[u8; 512]) -> &[u8]
    ensures { result.now ≡ (entry_of page.now).name }
{
    let field = &page[0x40..0x60];
    let count = field
        .iter()
        .position(|byte| *byte == 0)
        .unwrap_or(field.len());
    &field[..count]
}

// How long an entry's name is.
pub fn name_length(page: &[u8; 512]) -> usize
    ensures { result ≡ length (before_zero (slice page.now 0x40 32)) }
{
    entry_name(page).len()
}

// Whether a byte may stand in a name.
fn is_legal(byte: u8) -> bool
    ensures { result ≡ legal_bytes (byte ∷ []) }
{
    (0x20..=0x7E).contains(&byte) & !matches!(byte, b'*' | b'/' | b'?')
}

fn all_legal(name: &[u8]) -> bool
    ensures { result ≡ legal_bytes name.now }
{
    name.iter().all(|byte| is_legal(*byte))
}

// Whether two names are the same, compared whole.
pub fn same_name(a: &[u8], b: &[u8]) -> bool
    ensures { result ≡ same_name a.now b.now }
{
    a == b
}

// Whether a name keeps the name rule.
pub fn is_good_name(name: &[u8]) -> bool
    ensures { result ≡ good_name name.now }
{
    (0 < name.len())
        & (name.len() < 32)
        & all_legal(name)
        & !same_name(name, b".")
        & !same_name(name, b"..")
}

// Whether the name of an entry keeps the name rule.
pub fn name_is_good(page: &[u8; 512]) -> bool
    ensures { result ≡ good_name (entry_of page.now).name }
{
    is_good_name(entry_name(page))
}

// Whether an entry has this name.
pub fn is_named(page: &[u8; 512], name: &[u8]) -> bool
    ensures { result ≡ same_name (entry_of page.now).name name.now }
{
    same_name(entry_name(page), name)
}

// Whether an entry is named `.`, as the first one of a directory is: `is_named`, under the paper's word for it.
pub fn is_dot(page: &[u8; 512]) -> bool
    ensures { result ≡ same_name (entry_of page.now).name dot_name }
{
    is_named(page, b".")
}

// Whether an entry is named `..`, as the second one of a directory is: `is_named` too.
pub fn is_dot_dot(page: &[u8; 512]) -> bool
    ensures { result ≡ same_name (entry_of page.now).name dot_dot_name }
{
    is_named(page, b"..")
}
