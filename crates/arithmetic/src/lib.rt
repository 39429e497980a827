// What each operator computes on 64-bit words: specs/Words.antt, whose names are the opcodes'.
#![tactic(auto)]

ghost use Rattle.std.specs.Prelude.{◌≡◌, ◌^◌, ◌<◌};
ghost use Rattle.std.specs.Int.Signed.{shr_z};
ghost use Rattle.arithmetic.specs.Words as Words;

pub fn add(a: u64, b: u64) -> u64
    ensures { result ≡ Words.add a b }
{
    a.wrapping_add(b)
}

pub fn sub(a: u64, b: u64) -> u64
    ensures { result ≡ Words.sub a b }
{
    a.wrapping_sub(b)
}

pub fn mul(a: u64, b: u64) -> u64
    ensures { result ≡ Words.mul a b }
{
    a.wrapping_mul(b)
}

// The least number divided by -1 is no i64: its quotient wraps, to the least number.
pub fn div_signed(a: u64, b: u64) -> u64
    requires { 0 < b }
    ensures { result ≡ Words.div_signed a b }
{
    let quotient = a.cast_signed().wrapping_div(b.cast_signed());
    quotient.cast_unsigned()
}

pub fn div_unsigned(a: u64, b: u64) -> u64
    requires { 0 < b }
    ensures { result ≡ Words.div_unsigned a b }
{
    a / b
}

pub fn rem_signed(a: u64, b: u64) -> u64
    requires { 0 < b }
    ensures { result ≡ Words.rem_signed a b }
{
    let remainder = a.cast_signed().wrapping_rem(b.cast_signed());
    remainder.cast_unsigned()
}

pub fn rem_unsigned(a: u64, b: u64) -> u64
    requires { 0 < b }
    ensures { result ≡ Words.rem_unsigned a b }
{
    a % b
}

pub fn lsh(a: u64, b: u64) -> u64
    ensures { result ≡ Words.lsh a b }
{
    if b < 64 { a << b } else { 0 }
}

pub fn rsh_unsigned(a: u64, b: u64) -> u64
    ensures { result ≡ Words.rsh_unsigned a b }
{
    if b < 64 { a >> b } else { 0 }
}

// A shift by less than 64 bits that copies the top bit.
fn shift_copying(a: u64, count: u64) -> u64
    requires { count < 64 }
    ensures { result ≡ Words.word (shr_z (Words.signed a) (2 ^ count)) }
{
    (a.cast_signed() >> count).cast_unsigned()
}

// 63 leaves copies of the top bit only, and so does every greater count.
pub fn rsh_signed(a: u64, b: u64) -> u64
    ensures { result ≡ Words.rsh_signed a b }
{
    if b < 64 {
        shift_copying(a, b)
    } else {
        shift_copying(a, 63)
    }
}

pub fn bit_and(a: u64, b: u64) -> u64
    ensures { result ≡ Words.bit_and a b }
{
    a & b
}

pub fn bit_or(a: u64, b: u64) -> u64
    ensures { result ≡ Words.bit_or a b }
{
    a | b
}

pub fn bit_xor(a: u64, b: u64) -> u64
    ensures { result ≡ Words.bit_xor a b }
{
    a ^ b
}

pub fn bit_not(a: u64) -> u64
    ensures { result ≡ Words.bit_not a }
{
    !a
}

pub fn log_not(a: u64) -> u64
    ensures { result ≡ Words.log_not a }
{
    u64::from(a == 0)
}

pub fn equal(a: u64, b: u64) -> u64
    ensures { result ≡ Words.equal a b }
{
    u64::from(a == b)
}

pub fn less_signed(a: u64, b: u64) -> u64
    ensures { result ≡ Words.less_signed a b }
{
    u64::from(a.cast_signed() < b.cast_signed())
}

pub fn less_unsigned(a: u64, b: u64) -> u64
    ensures { result ≡ Words.less_unsigned a b }
{
    u64::from(a < b)
}

// The n low bits are shifted to the top, and back with copies of the topmost. 64 - n by its six low bits, which are all
// that the machine's shift reads, is one machine instruction less.
pub fn ext(a: u64, n: u64) -> u64
    requires { 0 < n }
    ensures { result ≡ Words.ext a n }
{
    if 64 <= n {
        return a;
    }
    let above = sub(0, n) % 64;
    shift_copying(a << above, above)
}

pub fn zero_ext(a: u64, n: u64) -> u64
    ensures { result ≡ Words.zero_ext a n }
{
    if 64 <= n {
        return a;
    }
    a % (1 << n)
}
