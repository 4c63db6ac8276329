// Numbers as text: a u64 as 16 uppercase hexadecimal digits, the most significant first; a count in decimal; and the
// bit patterns of doubles.
#![tactic(auto)]

ghost use Rattle.std.specs.Prelude.{◌≡◌, ◌+◌, ◌-◌, ◌<◌, ◌≤◌, leb, length};
ghost use Rattle.std.specs.Float.{binary64};
ghost use Rattle.std.specs.Float.Ieee.{of_bits as Ieee·ofBits, to_bits as Ieee·toBits};
ghost use Rattle.hexadecimal.specs.Digits.{digit_of, is_digit, glyph_of, digits_of, valued, written, spelled_in, word_at};
ghost use Rattle.hexadecimal.specs.Digits.{places_of, Put, unpadded, counted, decimal_at, decimal_of};
ghost use Rattle.hexadecimal.specs.Printing.{refused_text, Printed};
ghost use Rattle.std.specs.Counts.{IsPrefixLen};

// The value of a hexadecimal digit.
// kept: std's `to_digit` takes the small letters too, which are no digits here; a test for them before it is no shorter than this match.
#[tactic(auto, using(std::proofs::lemmas::Bool::Decides::nat_tests), unfolding(crate::specs::Digits::digit_of, crate::specs::Digits::is_digit))]
pub fn digit(b: u8) -> Option<u64>
    ensures { result ≡ valued (is_digit 16 b) (digit_of b) }
{
    match b {
        b'0'..=b'9' => Some(u64::from(b - b'0')),
        b'A'..=b'F' => Some(u64::from(b - b'A' + 10)),
        _ => None,
    }
}

// The digit of a value below 16.
#[tactic(auto, using(std::proofs::lemmas::Bool::Decides::nat_tests), unfolding(crate::specs::Digits::glyph_of))]
fn glyph(d: u64) -> u8
    requires { d < 16 }
    ensures { result ≡ glyph_of d }
{
    if d < 10 {
        b'0' + d as u8
    } else {
        b'A' - 10 + d as u8
    }
}

// The base in which a number is spelled.
#[derive(Clone, Copy)]
struct Base {
    of: u64,
    ghost some: { 0 < of },
    ghost few: { of ≤ 16 },
}

const TEN: Base = Base { of: 10 };

const SIXTEEN: Base = Base { of: 16 };

// The number that a text's digits spell.
fn spelled(text: &[u8], base: Base) -> Option<u64>
    ensures { result ≡ spelled_in base.of text.now }
{
    let mut value: u64 = 0;
    for &b in text {
        let d = digit(b)?;
        if d >= base.of {
            return None;
        }
        value = value.checked_mul(base.of)?.checked_add(d)?;
    }
    Some(value)
}

// Fills out with the last digits of value.
fn spell(value: u64, base: Base, out: &mut [u8])
    ensures { out.new ≡ digits_of base.of (length out.old) value }
{
    let mut rest = value;
    for i in (0..out.len()).rev() {
        out[i] = glyph(rest % base.of);
        rest /= base.of;
    }
}

// Writes the last count digits of value from at on, and whether they fit; nothing is done where they do not.
#[tactic(auto, using(crate::proofs::DigitLoops::put_in, crate::proofs::DigitLoops::put_out))]
fn put(value: u64, base: Base, count: usize, out: &mut [u8], at: usize) -> bool
    requires { 0 < count }
    ensures text { out.new ≡ written out.old at (digits_of base.of count value) }
    ensures fits { result ≡ leb count (length out.old - at) }
{
    if out.len() < count || out.len() - count < at {
        return false;
    }
    let end = at + count;
    spell(value, base, &mut out[at..end]);
    true
}

// The word that stands in 16 digits from at on.
pub fn word(text: &[u8], at: usize) -> Option<u64>
    ensures { result ≡ word_at text.now at }
{
    spelled(text.get(at..)?.get(..16)?, SIXTEEN)
}

// Writes value's 16 digits from at on; nothing is done where they do not fit.
// kept: here and in `put_decimal` and `put_count`. `write!` fills a buffer without the heap too (`ArrayString`), but std's clauses say what it wrote only if it
// answers `Ok`, and nothing says that it does where there is room; so no clause could say that a program's answer is printed.
pub fn put_word(value: u64, out: &mut [u8], at: usize)
    ensures { out.new ≡ written out.old at (digits_of 16 16 value) }
{
    put(value, SIXTEEN, 16, out, at);
}

// How many decimal digits value has.
fn places(value: u64) -> usize
    ensures { (result ≡ places_of value) × (0 < result) × (result ≤ 20) }
{
    let mut rest = value;
    for count in 1..20 {
        if rest < 10 {
            return count;
        }
        rest /= 10;
    }
    20
}

// Writes value in decimal from at on and answers how many bytes it wrote: none where the digits do not fit.
pub fn put_decimal(value: u64, out: &mut [u8], at: usize) -> usize
    ensures { Put value out.old at out.new result }
{
    let count = places(value);
    if put(value, TEN, count, out, at) {
        count
    } else {
        0
    }
}

// At least one byte, and no zero in front of others.
#[tactic(auto, using(crate::proofs::DigitLoops::unpadded_none, crate::proofs::DigitLoops::unpadded_one, crate::proofs::DigitLoops::unpadded_more))]
fn unpadded(text: &[u8]) -> bool
    ensures { result ≡ unpadded text.now }
{
    match text {
        [] => false,
        [_] => true,
        [first, ..] => *first != b'0',
    }
}

#[tactic(auto, unfolding(crate::specs::Digits::counted, crate::specs::Digits::spelled_in))]
fn counted(text: &[u8]) -> Option<u64>
    ensures { result ≡ counted text.now }
{
    if unpadded(text) {
        spelled(text, TEN)
    } else {
        None
    }
}

// The decimal number, without sign or leading zero, that stands from at to end, excluded.
pub fn decimal(text: &[u8], at: usize, end: usize) -> Option<u64>
    ensures { result ≡ decimal_at text.now at end }
{
    counted(text.get(at..end)?)
}

// The double of a bit pattern; all patterns of a NaN are one.
#[tactic(auto, using(crate::proofs::DigitLoops::nan_bits_law, crate::proofs::DigitLoops::no_nan_bits))]
pub fn float(bits: u64) -> f64
    ensures { result ≡ Ieee·ofBits binary64 bits }
{
    if bits % 9223372036854775808 > 9218868437227405312 {
        return f64::NAN;
    }
    f64::from_bits(bits)
}

// The bit pattern of a double, 7FF8000000000000 for a NaN.
#[tactic(auto, using(crate::proofs::DigitLoops::pattern_nan))]
pub fn pattern(x: f64) -> u64
    ensures { result ≡ Ieee·toBits binary64 x }
{
    if x.is_nan() {
        return 0x7FF8000000000000;
    }
    x.to_bits()
}

// ---- pieces of a printed text, one behind the other

// Writes bytes from at on and answers where they end; nothing is written, and `at` is the answer, where they do not fit.
#[tactic(auto, using(crate::proofs::Printing::bytes_put))]
pub fn put_bytes(bytes: &[u8], out: &mut [u8], at: usize) -> usize
    ensures text { at + length bytes.now ≤ length out.old → Printed bytes.now out.old at out.new result }
    ensures full { length out.old < at + length bytes.now → (out.new ≡ out.old) × (result ≡ at) }
    ensures within { at ≤ length out.old → result ≤ length out.new }
{
    if out.len() < bytes.len() || out.len() - bytes.len() < at {
        return at;
    }
    let end = at + bytes.len();
    out[at..end].copy_from_slice(bytes);
    end
}

// Writes a count in decimal, in the same way.
// kept: no `write!`, as `put_word`.
pub fn put_count(n: usize, out: &mut [u8], at: usize) -> usize
    ensures text { at + 20 ≤ length out.old → Printed (decimal_of n) out.old at out.new result }
    ensures few { result ≤ at + 20 }
    ensures within { at ≤ length out.old → result ≤ length out.new }
{
    at + put_decimal(n as u64, out, at)
}

// "refused N", in a line.
pub fn put_refused(n: u8, out: &mut [u8]) -> usize
    ensures text { 64 ≤ length out.old → Printed (refused_text n) out.old 0 out.new result }
    ensures within { IsPrefixLen result out.new }
{
    let a = put_bytes(b"refused ", out, 0);
    let b = put_count(n as usize, out, a);
    put_bytes(b"\n", out, b)
}
