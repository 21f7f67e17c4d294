// The format that a number names, as C and Rust hand it in.
ghost use Rattle.std.specs.Prelude.{◌≡◌};
ghost use Rattle.ps2card.specs.Named.{named_by};

use page::Format;

// 0 and 1 are C's interface; every other number names no format. Each call answers that itself: with a Result it would be as long.
pub(crate) fn format_of(number: u32) -> Option<Format>
    ensures { result ≡ named_by number }
{
    match number {
        0 => Some(Format::Raw),
        1 => Some(Format::Plain),
        _ => None,
    }
}
