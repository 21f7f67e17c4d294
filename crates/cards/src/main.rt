// Lists every card of its data folder, as `list` does: good ones, worn ones, and one for each refusal.
#![tactic(auto)]

use listing::{SMALL_IMAGE, SMALL_ROOM};
use page::Format;
use std::io::{Read, Write};
use std::rt::Files;
use std::{fs, io};

// Each card with its file: no path is put together, which would take memory.
const CARDS: [(&str, &str); 16] = [
    ("bench", "bench.ps2"),
    ("save", "save.ps2"),
    ("pcsx2", "pcsx2.ps2"),
    ("tree", "tree.ps2"),
    ("flips", "flips.ps2"),
    ("worn-files", "worn-files.ps2"),
    ("worn-elsewhere", "worn-elsewhere.ps2"),
    ("refused-1", "refused-1.ps2"),
    ("refused-2", "refused-2.ps2"),
    ("refused-3", "refused-3.ps2"),
    ("refused-4", "refused-4.ps2"),
    ("refused-5", "refused-5.ps2"),
    ("refused-6", "refused-6.ps2"),
    ("refused-7", "refused-7.ps2"),
    ("long", "long.ps2"),
    ("times", "times.ps2"),
];

// The other program has it too: the library takes no handle, and the two share no other crate.
fn show(rt: &impl Print, image: &[u8]) -> io::Result<()> {
    let mut text = [0u8; SMALL_ROOM];
    let length = listing::list(Format::Raw, image, 0, &mut text);
    io::writer(rt).write_all(listing::written(&text, length))
}

fn card(rt: &(impl Files + Alloc + Print + Eprint), name: &str, path: &str) -> io::Result<()> {
    println!(rt; "== {name}")?;
    let file = match fs::open(rt, path) {
        Ok(file) => file,
        Err(error) => return eprintln!(rt; "{path}: {error}"),
    };
    let mut image = Vec::new(rt.alloc());
    file.take(SMALL_IMAGE as u64 + 1).read_to_end(&mut image)?;
    if SMALL_IMAGE < image.len() {
        return println!(rt; "refused 1");
    }
    show(rt, image.as_slice())
}

fn main(rt: HostRuntime) -> io::Result<()> {
    for (name, path) in CARDS {
        card(&rt, name, path)?;
    }
    Ok(())
}
