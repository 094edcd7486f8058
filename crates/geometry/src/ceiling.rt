// Quotients rounded up, a number for every argument: for loops in which a refusal would be in the way.
ghost use Rattle.std.specs.Prelude.{◌≡◌, ◌^◌};
ghost use Rattle.laws.specs.Ceiling.{ceil_div};

// a / b rounded up; 0 for b = 0.
pub fn divided(a: u32, b: u32) -> u32
    ensures { result ≡ ceil_div a b }
{
    if b == 0 { 0 } else { a.div_ceil(b) }
}

// a / 2^by rounded up, in 32 bits: a shift, and a test of the bits that it drops, without which a is the quotient shifted back.
pub fn shifted(a: u32, by: u32) -> u32
    ensures { result ≡ ceil_div a (2 ^ by) }
{
    if by < 32 {
        let q = a >> by;
        if q << by < a { q + 1 } else { q }
    } else {
        a.min(1)
    }
}
