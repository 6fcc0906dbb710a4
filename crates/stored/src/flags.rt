// A parameter's flags: "1 signed, 2 identifier".
ghost use Rattle.std.specs.Prelude.{◌≡◌, ◌+◌, ◌*◌, ◌/◌, ◌%◌, ◌≤◌, eqb};
ghost use Rattle.model.specs.Write.{bit};

pub fn has_signed(flags: usize) -> bool
    ensures { result ≡ eqb (flags % 2) 1 }
{
    bits::low_bits_of(flags as u64, 1) == 1
}

pub fn has_identifier(flags: usize) -> bool
    ensures { result ≡ eqb (flags / 2) 1 }
{
    bits::bits_above(flags as u64, 1) == 1
}

// A flag, 1 where it is set.
pub fn flag_of(t: bool) -> usize
    ensures { (result ≡ bit t) × (result ≤ 1) }
{
    usize::from(t)
}

pub fn flags_of(signed: bool, identifier: bool) -> usize
    ensures { result ≡ bit signed + 2 * bit identifier }
{
    flag_of(signed) + bits::raised(flag_of(identifier) as u64, 1) as usize
}
