// The arithmetic of openjp2's math.rs, names without opj_. Where the Rust asserts or faults, the answer is None, the refusal -22.
ghost use Rattle.std.specs.Prelude.{◌≡◌, ◌*◌, ◌%◌, ◌^◌, min, max};
ghost use Rattle.geometry.specs.Said.{of_word};
ghost use Rattle.geometry.specs.Math.{add_sat, ceildiv_of, ceildiv64_of, floordivpow2_of, ceildivpow2_of};

use crate::ceiling;

pub fn uint_min(a: u32, b: u32) -> u32
    ensures { result ≡ min a b }
{
    a.min(b)
}

pub fn uint_max(a: u32, b: u32) -> u32
    ensures { result ≡ max a b }
{
    a.max(b)
}

// The sum, or the largest 32-bit number where the sum is larger.
pub fn uint_adds(a: u32, b: u32) -> u32
    ensures { result ≡ add_sat a b }
{
    a.saturating_add(b)
}

// The product modulo 2^32.
pub fn wrapping_mul(a: u32, b: u32) -> u32
    ensures { result ≡ (a * b) % 2 ^ 32 }
{
    a.wrapping_mul(b)
}

// a / b rounded up, in 32 bits.
pub fn uint_ceildiv(a: u32, b: u32) -> Option<u32>
    ensures { of_word result ≡ ceildiv_of a b }
{
    (0 < b).then_some(ceiling::divided(a, b))
}

// a / b rounded up, modulo 2^32.
pub fn uint64_ceildiv_res_uint32(a: u64, b: u64) -> Option<u32>
    ensures { of_word result ≡ ceildiv64_of a b }
{
    let sum = a.checked_add(b)?;
    let quotient = sum.saturating_sub(1).checked_div(b)?;
    Some((quotient % 0x1_0000_0000) as u32)
}

// a / 2^b rounded down.
pub fn uint_floordivpow2(a: u32, b: u32) -> Option<u32>
    ensures { of_word result ≡ floordivpow2_of a b }
{
    a.checked_shr(b)
}

// a / 2^b rounded up.
pub fn uint_ceildivpow2(a: u32, b: u32) -> Option<u32>
    ensures { of_word result ≡ ceildivpow2_of a b }
{
    (b < 64).then_some(ceiling::shifted(a, b))
}
