// Division by a power of two, and the product with one, in 32 bits, for every exponent.
ghost use Rattle.std.specs.Prelude.{◌≡◌, ◌*◌, ◌/◌, ◌%◌, ◌^◌, not, ◌==◌};
ghost use Rattle.geometry.specs.Fitted.{fitted, least_of};

// a / 2^by rounded down.
pub(crate) fn floored(a: u32, by: u32) -> u32
    ensures { result ≡ a / 2 ^ by }
{
    a.checked_shr(by).unwrap_or(0)
}

// a · 2^by; 0 where that does not fit 32 bits: then the shift back does not give a. A number, as `axis::step` is, which says why.
pub(crate) fn raised(a: u32, by: u32) -> u32
    ensures { result ≡ fitted (a * 2 ^ by) }
{
    let Some(high) = a.checked_shl(by) else {
        return 0;
    };
    if high >> by == a { high } else { 0 }
}

// The smaller of a number and one of `raised` or `axis::step`, which is 0 where it does not fit: then it is larger than every number.
// kept with that 0: definition `least_of`, by which the survey's theorems take the smallest step, reads it so
pub fn least(a: u32, n: u32) -> u32
    ensures { result ≡ least_of a n }
{
    if n == 0 { a } else { a.min(n) }
}

// The division leaves something: a is no multiple of 2^by.
pub fn uneven(a: u32, by: u32) -> bool
    ensures { result ≡ not (a % 2 ^ by == 0) }
{
    if by < 32 {
        a % (1u32 << by) != 0
    } else {
        a != 0
    }
}
