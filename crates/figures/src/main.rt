// Runs the figures (RULES, "Numbers to meet") on the bench card, each on a fresh copy of it.
#![tactic(auto)]

use layout::Refusal;
use page::Format;
use std::io::{Read, Write};
use std::{fs, io};

const BYTES: usize = 59136;

// 12:34:56 on 29 February 2000.
const TIME: [u8; 8] = [0, 56, 34, 12, 29, 2, 0xD0, 0x07];

// The listing of a card. The fresh one is listed where it lies: a copy would lie on the stack under all that comes after.
fn show(rt: &impl Print, image: &[u8; BYTES]) -> io::Result<()> {
    let mut text = [0u8; 1024];
    let length = listing::list(Format::Raw, image, 0, &mut text);
    io::writer(rt).write_all(listing::written(&text, length))
}

// A card of its own, and where it is told what is done to it: a method for each call, which reads as the figures do.
#[derive(Drop)]
struct Trial<'a, P: Print> {
    rt: &'a P,
    image: [u8; BYTES],
}

impl<'a, P: Print> Trial<'a, P> {
    // A figure's own copy of the fresh card.
    fn on(rt: &'a P, fresh: &[u8; BYTES]) -> Trial<'a, P> {
        let image = *fresh;
        Trial { rt, image }
    }

    // How the change ended that was just named.
    fn tell(&self, answer: Result<(), Refusal>) -> io::Result<()> {
        match answer {
            Ok(()) => println!(self.rt; ": done"),
            Err(refusal) => println!(self.rt; ": refused {}", refusal.number()),
        }
    }

    fn create(&mut self, path: &str, bytes: &[u8]) -> io::Result<()> {
        print!(self.rt; "create {path}")?;
        self.create_unnamed(path, bytes)
    }

    // The file's length is told too.
    fn create_of(&mut self, path: &str, bytes: &[u8]) -> io::Result<()> {
        print!(self.rt; "create {path} of {}", bytes.len())?;
        self.create_unnamed(path, bytes)
    }

    fn create_unnamed(&mut self, path: &str, bytes: &[u8]) -> io::Result<()> {
        let path = path.as_bytes();
        let answer = change::create(Format::Raw, &mut self.image, path, &TIME, bytes);
        self.tell(answer)
    }

    fn empty(&mut self, path: &str) -> io::Result<()> {
        print!(self.rt; "replace {path} by nothing")?;
        let answer = change::replace(Format::Raw, &mut self.image, path.as_bytes(), &TIME, b"");
        self.tell(answer)
    }

    fn delete(&mut self, path: &str) -> io::Result<()> {
        print!(self.rt; "delete {path}")?;
        let answer = change::delete(Format::Raw, &mut self.image, path.as_bytes());
        self.tell(answer)
    }

    fn make_dir(&mut self, path: &str) -> io::Result<()> {
        print!(self.rt; "make {path}")?;
        let answer = change::make_dir(Format::Raw, &mut self.image, path.as_bytes(), &TIME);
        self.tell(answer)
    }

    fn remove_dir(&mut self, path: &str) -> io::Result<()> {
        print!(self.rt; "remove {path}")?;
        let answer = change::remove_dir(Format::Raw, &mut self.image, path.as_bytes());
        self.tell(answer)
    }

    fn tell_free(&self) -> io::Result<()> {
        match tree::check(Format::Raw, &self.image) {
            Ok(counts) => println!(self.rt; "free {}", counts.free),
            Err(refusal) => println!(self.rt; "refused {}", refusal.number()),
        }
    }

    fn tell_listing(&self) -> io::Result<()> {
        show(self.rt, &self.image)
    }

    fn tell_read(&self, path: &str, from: usize) -> io::Result<()> {
        let mut out = [0u8; 16];
        let mut mended: usize = 0;
        let path = path.as_bytes();
        match lookup::reading::read(Format::Raw, &self.image, path, from, &mut out, &mut mended) {
            Ok(count) => println!(self.rt; "read {count}"),
            Err(refusal) => println!(self.rt; "read refused {}", refusal.number()),
        }
    }
}

// The greatest file: 28,672 bytes, before and after it was removed.
fn greatest(rt: &impl Print, fresh: &[u8; BYTES]) -> io::Result<()> {
    let mut card = Trial::on(rt, fresh);
    let more = [7u8; 28673];
    let fits = &more[..28672];
    card.create_of("/A", &more)?;
    card.create_of("/A", fits)?;
    card.delete("/A")?;
    card.create_of("/A", &more)?;
    card.create_of("/A", fits)
}

// A removed and then B created, and the other order.
fn removed_first(rt: &impl Print, fresh: &[u8; BYTES]) -> io::Result<()> {
    let mut card = Trial::on(rt, fresh);
    card.create("/A", b"")?;
    card.create("/C", b"")?;
    card.delete("/A")?;
    card.create("/B", b"")?;
    card.tell_free()
}

fn created_first(rt: &impl Print, fresh: &[u8; BYTES]) -> io::Result<()> {
    let mut card = Trial::on(rt, fresh);
    card.create("/A", b"")?;
    card.create("/C", b"")?;
    card.create("/B", b"")?;
    card.delete("/A")?;
    card.tell_free()
}

// Eight names: a file, but no directory; nine are none. A read at the file's end, and one byte further.
fn eight_names(rt: &impl Print, fresh: &[u8; BYTES]) -> io::Result<()> {
    let mut card = Trial::on(rt, fresh);
    let eight = "/a/b/c/d/e/f/g/h";
    card.make_dir("/a")?;
    card.make_dir("/a/b")?;
    card.make_dir("/a/b/c")?;
    card.make_dir("/a/b/c/d")?;
    card.make_dir("/a/b/c/d/e")?;
    card.make_dir("/a/b/c/d/e/f")?;
    card.make_dir("/a/b/c/d/e/f/g")?;
    card.make_dir(eight)?;
    card.create(eight, b"twelve bytes")?;
    card.create("/a/b/c/d/e/f/g/h/i", b"")?;
    card.tell_read(eight, 0)?;
    card.tell_read(eight, 12)?;
    card.tell_read(eight, 13)
}

// A save in its directory, and the whole listing; then all of it taken away again.
fn save(rt: &impl Print, fresh: &[u8; BYTES]) -> io::Result<()> {
    let mut card = Trial::on(rt, fresh);
    card.make_dir("/SAVE")?;
    card.create("/SAVE/A", &[7u8; 1500])?;
    card.tell_listing()?;
    card.remove_dir("/SAVE")?;
    card.empty("/SAVE/A")?;
    card.tell_free()?;
    card.delete("/SAVE/A")?;
    card.remove_dir("/SAVE")?;
    card.tell_listing()
}

fn run(rt: &impl Print, fresh: &[u8; BYTES]) -> io::Result<()> {
    println!(rt; "== fresh")?;
    show(rt, fresh)?;
    println!(rt; "== the greatest file")?;
    greatest(rt, fresh)?;
    println!(rt; "== removed first")?;
    removed_first(rt, fresh)?;
    println!(rt; "== created first")?;
    created_first(rt, fresh)?;
    println!(rt; "== eight names")?;
    eight_names(rt, fresh)?;
    println!(rt; "== a save")?;
    save(rt, fresh)
}

fn main(rt: HostRuntime) -> io::Result<()> {
    let path = "bench.ps2";
    let file = match fs::open(&rt, path) {
        Ok(file) => file,
        Err(error) => return eprintln!(rt; "{path}: {error}"),
    };
    let mut image = Vec::new(rt.alloc());
    file.take(BYTES as u64).read_to_end(&mut image)?;
    match image.as_slice().first_chunk::<BYTES>() {
        Some(fresh) => run(&rt, fresh),
        None => println!(rt; "the bench card is cut"),
    }
}
