// 16: record identifiers, judged after the last line from what was kept of each parameter: whether it is an identifier,
// whether it alone is in order, its subframe and its value. (crate rules asks the same of a table's bytes, by its own definitions.)
ghost use Rattle.std.specs.Prelude.{◌≡◌, ◌+◌, ◌<◌, length};
ghost use Rattle.lay.specs.Below.{all};
ghost use Rattle.judge.specs.Sixteen.{unlike_in, new_in, identifies_in, first_bad_in, taken_in};

use crate::rows::Kept;

// Whether the earlier one is no identifier or differs from this.
fn unlike(earlier: &Kept, this: &Kept) -> bool
    ensures { result ≡ unlike_in this.now earlier.now }
{
    !earlier.identifier || earlier.value != this.value && earlier.home != this.home
}

// Whether i differs from each earlier identifier.
fn newly(kept: &[Kept], i: usize) -> bool
    requires { i < length kept.now }
    ensures { result ≡ new_in kept.now i }
{
    let this = &kept[i];
    kept[..i].iter().all(|earlier| unlike(earlier, this))
}

fn identifies(kept: &[Kept], i: usize) -> bool
    requires { i < length kept.now }
    ensures { result ≡ identifies_in kept.now i }
{
    !kept[i].identifier || kept[i].good && newly(kept, i)
}

// The first identifier that breaks a rule.
pub fn first_bad(kept: &[Kept]) -> Option<usize>
    ensures { result ≡ first_bad_in kept.now }
{
    (0..kept.len()).find(|i| !identifies(kept, *i))
}

// Whether some identifier lies in subframe s.
fn is_taken(kept: &[Kept], s: u64) -> bool
    ensures { result ≡ taken_in kept.now s }
{
    kept.iter().any(|k| k.identifier && k.home == s)
}

// Whether each of the subframes is taken.
pub fn all_taken(kept: &[Kept], subframes: u64) -> bool
    ensures { result ≡ all subframes (λ s. taken_in kept.now (s + 1)) }
{
    (0..subframes).all(|s| is_taken(kept, s + 1))
}
