// What the programs write; what can't be written is lost. Nothing is promised of it: no contract can say what an output takes.
ghost use Rattle.std.specs.Prelude.{◌≡◌, ◌≤◌, ◌<◌, ◌^◌, length};

pub fn text(rt: &HostRuntime, s: &[u8]) {
    let _ = rt.write_all(s);
}

pub fn number(rt: &HostRuntime, n: u64) {
    let _ = print!(rt; "{n}");
}

// What `write` puts at the front of N bytes; it answers how many.
pub fn put<const N: usize, F: FnOnce(&mut [u8]) -> usize>(rt: &HostRuntime, write: F)
    requires size { N < 2 ^ 63 }
    requires callable { (out : _) → length out.now ≡ N → F.pre write out }
    requires within { (out : _) (n : _) (after : _) → length out.now ≡ N → F.post write out n after → n ≤ N }
{
    let mut out = [0u8; N];
    let n = write(&mut out);
    text(rt, &out[..n]);
}
