// Reads a small image from standard input and writes its listing, for which there is room (`listing::small_fits`).
#![tactic(auto)]

use listing::{SMALL_IMAGE, SMALL_ROOM};
use page::Format;
use std::io;
use std::io::{Read, Write};

// The other program has it too: the library takes no handle, and the two share no other crate.
fn show(rt: &impl Print, image: &[u8]) -> io::Result<()> {
    let mut text = [0u8; SMALL_ROOM];
    let length = listing::list(Format::Raw, image, 0, &mut text);
    io::writer(rt).write_all(listing::written(&text, length))
}

// Longer input is refused as an image of no allowed length.
fn main(rt: HostRuntime) -> io::Result<()> {
    let mut image = Vec::new(rt.alloc());
    rt.stdin()
        .take(SMALL_IMAGE as u64 + 1)
        .read_to_end(&mut image)?;
    if SMALL_IMAGE < image.len() {
        return println!(rt; "refused 1");
    }
    show(&rt, image.as_slice())
}
