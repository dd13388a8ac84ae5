// A table's file.
ghost use Rattle.std.specs.Prelude.{◌-◌, ◌≤◌, length, IfSome};

use std::io::Read;
use std::rt::Files;
use std::{fs, str};

// One byte more than the longest table has (12 + 6 × 4,096): a file that fills this much is over 24,588 bytes.
pub const ROOM: usize = 24589;

// Reads a file to its end, and hands back what it holds; none where a read fails, or where the file fills the buffer. A loop of
// its own, since the library's read_to_end takes a heap, of which the report has none.
fn read_whole<'b, F: Read>(file: &mut F, buf: &'b mut [u8]) -> Option<&'b [u8]>
    ensures { IfSome result (λ t. length t.now ≤ length buf.old - 1) }
{
    let mut n = 0;
    while n < buf.len() {
        let more = file.read(&mut buf[n..]).ok()?;
        if more == 0 {
            return Some(&buf[..n]);
        }
        n += more;
    }
    None
}

// The file at a path, read whole; none where the path is no text, or the file can't be opened or read.
fn read_at<'b, R: Files>(rt: &R, path: &[u8], buf: &'b mut [u8]) -> Option<&'b [u8]>
    ensures { IfSome result (λ t. length t.now ≤ length buf.old - 1) }
{
    let name = str::from_utf8(path).ok()?;
    let mut file = fs::open(rt, name).ok()?;
    read_whole(&mut file, buf)
}

// Reads the table in a file; a file that can't be read, or fills the buffer, counts as an empty table. The path stays bytes: text
// alone would ask more of a caller.
pub fn load<'b, R: Files>(rt: &R, path: &[u8], buf: &'b mut [u8]) -> &'b [u8]
    ensures { length result.now ≤ length buf.old - 1 }
{
    read_at(rt, path, buf).unwrap_or(&[])
}
