// Files, and the buffers of a case in them.
ghost use Rattle.std.specs.Prelude.{◌≤◌, length, IfOk};

use crate::buffers::{Buffer, Buffers, Part};
use crate::lines::Call;
use std::io::{Read, Result};
use std::rt::Files;
use std::{fs, str};

// A path of 32 bytes: what would go beyond is cut off.
#[derive(Drop)]
struct Path {
    all: [u8; 32],
    length: usize,
    ghost within: { length ≤ 32 },
}

impl Path {
    fn new(folder: &[u8], file: &[u8]) -> Self {
        let mut path = Path {
            all: [0; 32],
            length: 0,
        };
        path.put(folder);
        path.put(b"/");
        path.put(file);
        path
    }

    fn put(&mut self, text: &[u8]) {
        for byte in text {
            if self.length < self.all.len() {
                self.all[self.length] = *byte;
                self.length += 1;
            }
        }
    }

    // The path, or none if it is no text.
    fn as_str(&self) -> &str {
        str::from_utf8(&self.all[..self.length]).unwrap_or("")
    }
}

// Reads a file, as far as `into` goes, and says how many bytes.
fn read_full(rt: &impl Files, path: &str, into: &mut [u8]) -> Result<usize>
    ensures { IfOk result (λ n. n ≤ length into.new) }
{
    let mut file = fs::open(rt, path)?;
    let mut done = 0;
    while done < into.len() {
        let n = file.read(&mut into[done..])?;
        if n == 0 {
            break;
        }
        done += n;
    }
    Ok(done)
}

// The same. A file that cannot be read has no bytes, and the standard error says why.
fn read(rt: &(impl Files + Eprint), path: &str, into: &mut [u8]) -> usize
    ensures { result ≤ length into.new }
{
    match read_full(rt, path, into) {
        Ok(n) => n,
        Err(error) => {
            let _ = eprintln!(rt; "{path}: {error}");
            0
        }
    }
}

// The text of the file in `folder`, as far as `into` goes.
pub fn read_text<'a>(
    rt: &(impl Files + Eprint),
    folder: &[u8],
    file: &[u8],
    into: &'a mut [u8],
) -> &'a [u8] {
    let path = Path::new(folder, file);
    let n = read(rt, path.as_str(), into);
    &into[..n]
}

// Whether the file in `folder` can be read.
pub fn is_there(rt: &impl Files, folder: &[u8], file: &[u8]) -> bool {
    let path = Path::new(folder, file);
    fs::open(rt, path.as_str()).is_ok()
}

impl Call {
    // The buffers that are files of a case of the call.
    fn buffers(self) -> &'static [Buffer] {
        match self {
            Call::Link => &[Buffer::Table, Buffer::First, Buffer::Second],
            _ => &[
                Buffer::Image,
                Buffer::Words,
                Buffer::Events,
                Buffer::Answers,
                Buffer::State,
                Buffer::Table,
            ],
        }
    }
}

impl Part {
    fn read(&mut self, rt: &(impl Files + Eprint), path: &str) {
        self.length = read(rt, path, &mut self.all);
    }
}

impl Buffers {
    // Reads the buffers of a case of `call`, and makes the threads met eight bytes of 1.
    pub fn load(&mut self, rt: &(impl Files + Eprint), folder: &[u8], case: &[u8], call: Call) {
        for buffer in call.buffers() {
            let mut path = Path::new(folder, case);
            path.put(b".");
            path.put(buffer.name());
            self.get_mut(*buffer).read(rt, path.as_str());
        }
        self.met.length = 0;
        self.met.resize(8);
    }
}
