// What the programs read and write: a file's bytes, read into a lent slice, and text.
#![tactic(auto)]

pub mod list;
pub mod say;

ghost use Rattle.std.specs.Prelude.{◌≡◌, IfSome, IfNone};
ghost use Rattle.io.specs.Counts.{IsPrefixLen};

use crate::say::text;
use std::fs::File;
use std::os::fd::AsRawFd;
use std::str::from_utf8;

// Fills buf from the start of the file, and answers how many bytes it has: none where the file doesn't open. (The count and no
// slice: where nothing is read, the promise speaks of the lent bytes as they were.)
pub fn file_bytes(rt: &HostRuntime, path: &[u8], buf: &mut [u8]) -> Option<usize>
    ensures count { IfSome result (λ n. IsPrefixLen n buf.new) }
    ensures unread { IfNone result (buf.new ≡ buf.old) }
{
    let path = from_utf8(path).ok()?;
    let file = File::open(rt, path).ok()?;
    Some(io::read_full(file.as_raw_fd(), buf))
}

// The same; a file that doesn't open has no bytes, and shows in the output.
pub fn load(rt: &HostRuntime, path: &[u8], buf: &mut [u8]) -> usize
    ensures { IsPrefixLen result buf.new }
{
    let Some(n) = file_bytes(rt, path, buf) else {
        text(rt, b"missing ");
        return 0;
    };
    n
}
