// What the programs do with files. No contract can say what is read or written.
#![tactic(auto)]

ghost use Rattle.std.specs.Prelude.{IsSome, IsUtf8, ◌≡◌, ◌≤◌, leb, length, take};
ghost use Rattle.files.specs.Counts.{IsPrefixLen};

use sheet_lines::SHEET_ROOM;
use std::fs;
use std::io::Read;
use std::rt::Files;

// A sheet, and no more of it than tells that it is too long, into a lent buffer.
// Kept: beside `Sheet`, which by value takes up to 100 KB more of the stack and clears and copies the room again: the programs call this one.
pub fn read_sheet(rt: &impl Files, path: &[u8], buffer: &mut [u8; SHEET_ROOM]) -> usize
    ensures { IsPrefixLen result buffer.new }
{
    read_file(rt, path, &mut buffer[..])
}

// The same as a value.
#[derive(Drop)]
pub struct Sheet {
    bytes: [u8; SHEET_ROOM],
    count: usize,
    ghost in_range: { count ≤ length bytes },
}

impl Sheet {
    pub fn read(rt: &impl Files, path: &[u8]) -> Sheet
        ensures { IsPrefixLen result.count result.bytes }
    {
        let mut sheet = Sheet {
            bytes: [0u8; SHEET_ROOM],
            count: 0,
        };
        sheet.count = read_sheet(rt, path, &mut sheet.bytes);
        sheet
    }

    pub fn text(&self) -> &[u8]
        ensures { result.now ≡ take self.now.count self.now.bytes }
    {
        &self.bytes[..self.count]
    }
}

// At most as much of a file as the buffer has room for; "A file that can't be opened reads as empty." So does one whose path is no text.
pub fn read_file(rt: &impl Files, path: &[u8], buffer: &mut [u8]) -> usize
    ensures { IsPrefixLen result buffer.new }
{
    let Some(mut file) = opened(rt, path) else {
        return 0;
    };
    fill(&mut file, buffer)
}

// The file at this path, where it can be opened; a path that is no text opens none.
fn opened<R: Files>(rt: &R, path: &[u8]) -> Option<R::File>
    ensures { IsSome result → IsUtf8 path.now }
{
    let name = str::from_utf8(path).ok()?;
    fs::open(rt, name).ok()
}

// Reads until the buffer is full, the input ends or a read fails; how many bytes were read.
fn fill(file: &mut impl Read, buffer: &mut [u8]) -> usize
    ensures { IsPrefixLen result buffer.new }
{
    let mut n = 0;
    while n < buffer.len() {
        match file.read(&mut buffer[n..]) {
            Ok(more) if 0 < more => n += more,
            _ => break,
        }
    }
    n
}

// The first n bytes of the output, in one write; whether there are so many.
pub fn print(rt: &impl Print, out: &[u8], n: usize) -> bool
    ensures { result ≡ leb n (length out.now) }
{
    if n <= out.len() {
        let _ = rt.write_all(&out[0..n]);
        return true;
    }
    false
}
