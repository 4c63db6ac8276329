// The elementary numbers of document 01, each equal to a definition of specs/.
#![tactic(auto)]

ghost use Rattle.std.specs.Prelude.{◌≡◌, suc, ◌/◌, ◌<◌, ◌≤◌, true, false, T, length};
ghost use Rattle.std.specs.Int.Signed.{mag};
ghost use Rattle.std.specs.Float.Ieee.{neg, lt};
ghost use Rattle.std.specs.Float.Ieee.Scale.{finite};
ghost use Rattle.numbers.specs.Numbers.{carried, power, horner, alternating, downward, magnitude, angle_near, angle, eighth, left, below};
ghost use Rattle.numbers.specs.Numbers.{arctangent, arcsine, sine_near, cosine_near, near, rounded, quarter, rest, choose, sine, cosine};
ghost use Rattle.numbers.specs.Numbers.{sine_cosine_at, sine_cosine, halved, half_pi, count_of};
ghost use Rattle.laws.specs.Floats.{◌⊕◌, ◌⊗◌, ◌⊘◌, zero64, one64};
ghost use Rattle.laws.specs.WholeNumbers.{number};
ghost use Rattle.laws.specs.Tables.{tri};
ghost use Rattle.numbers.specs.Seconds.{whole_second};

use std::f64::consts::{FRAC_PI_2, FRAC_PI_4, PI};

// 2! to 16!
const FACTORIALS: [f64; 15] = [
    2.0,
    6.0,
    24.0,
    120.0,
    720.0,
    5040.0,
    40320.0,
    362880.0,
    3628800.0,
    39916800.0,
    479001600.0,
    6227020800.0,
    87178291200.0,
    1307674368000.0,
    20922789888000.0,
];

// 3 to 43
const ODDS: [f64; 21] = [
    3.0, 5.0, 7.0, 9.0, 11.0, 13.0, 15.0, 17.0, 19.0, 21.0, 23.0, 25.0, 27.0, 29.0, 31.0, 33.0,
    35.0, 37.0, 39.0, 41.0, 43.0,
];

// Document 01's H is `FRAC_PI_2`; its parts A and B.
const HALF_PI_HIGH: f64 = 1.5707963267341256;

const HALF_PI_LOW: f64 = 6.077100506506192e-11;

const BEND: f64 = 0.4142135623730951;

// p starts at sign / table[first], then p * z + the next coefficient, step places down, the sign turned.
fn horner(z: f64, table: &[f64], first: usize, step: usize, sign: f64) -> f64
    requires { (0 < step) × (first < length table.now) }
    ensures { result ≡ horner z (alternating sign (downward table.now step first (suc (first / step)))) }
{
    // kept: `for i in (first % step..first).step_by(step).rev()` gives the same places, but a sine then takes 1.4 times as long, its turns no longer unrolled.
    let mut i = first;
    let mut s = sign;
    let mut p = s / table[i];
    while step <= i {
        i -= step;
        s = -s;
        p = p * z + s / table[i];
    }
    p
}

// h / 2 to the nearest whole number, a half away from zero.
fn halved(h: i64) -> i64
    requires { mag h ≤ 4194304 }
    ensures { result ≡ halved h }
{
    if h < 0 { (h - 1) / 2 } else { (h + 1) / 2 }
}

// x / FRAC_PI_2 to the nearest whole number, a half away from zero; twice the quotient is exact.
fn turns(x: f64) -> i64
    requires { T (near x) }
    ensures { result ≡ rounded (x ⊘ half_pi) }
{
    let q = x / FRAC_PI_2;
    let h = std::num::truncating_f64_to_i64(q + q);
    halved(h)
}

// What is left of x after k quarters of a turn.
fn rest(x: f64, k: i64) -> f64
    ensures { result ≡ rest x k }
{
    let f = std::num::nearest_i64_to_f64(k);
    (x - f * HALF_PI_HIGH) - f * HALF_PI_LOW
}

// x + x·(z·p), z = x², where p's signs begin with −.
fn odd_series(x: f64, table: &[f64], first: usize, step: usize) -> f64
    requires { (0 < step) × (first < length table.now) }
    ensures { let z = x ⊗ x in result ≡ x ⊕ x ⊗ (z ⊗ horner z (alternating (neg one64) (downward table.now step first (suc (first / step))))) }
{
    let z = x * x;
    x + x * (z * horner(z, table, first, step, -1.0))
}

// From 15! at place 13 by twos to 3!.
fn sine_near(r: f64) -> f64
    ensures { result ≡ sine_near r }
{
    odd_series(r, &FACTORIALS, 13, 2)
}

// From 16! at place 14 by twos to 2!.
fn cosine_near(r: f64) -> f64
    ensures { result ≡ cosine_near r }
{
    let z = r * r;
    1.0 + z * horner(z, &FACTORIALS, 14, 2, 1.0)
}

// k mod 4, from 0 to 3.
fn quarter(k: i64) -> u64
    ensures { result ≡ quarter k }
{
    let m = k % 4;
    if m < 0 { (m + 4) as u64 } else { m as u64 }
}

// The sine of j quarters of a turn and r more.
fn sine_past(j: u64, r: f64) -> f64
    ensures { result ≡ choose j (sine_near r) (cosine_near r) (neg (sine_near r)) (neg (cosine_near r)) }
{
    if j == 0 {
        sine_near(r)
    } else if j == 1 {
        cosine_near(r)
    } else if j == 2 {
        -sine_near(r)
    } else {
        -cosine_near(r)
    }
}

// The sine of x, or of a quarter of a turn more; NaN where x is not finite or its magnitude exceeds 2^20.
fn sine_ahead(x: f64, quarters: u64) -> f64
    requires { quarters ≤ 1 }
    ensures sine { quarters ≡ 0 → result ≡ sine x }
    ensures cosine { quarters ≡ 1 → result ≡ cosine x }
{
    if x >= -1048576.0 && x <= 1048576.0 {
        let k = turns(x);
        return sine_past((quarter(k) + quarters) % 4, rest(x, k));
    }
    0.0 / 0.0
}

// NaN where x is not finite or its magnitude exceeds 2^20.
pub fn sine(x: f64) -> f64
    ensures { result ≡ sine x }
{
    sine_ahead(x, 0)
}

// The sine of a quarter of a turn more.
pub fn cosine(x: f64) -> f64
    ensures { result ≡ cosine x }
{
    sine_ahead(x, 1)
}

#[derive(Clone, Copy)]
pub struct SineCosine {
    pub sine: f64,
    pub cosine: f64,
}

fn sine_cosine_at(x: f64, k: i64) -> SineCosine
    ensures { result ≡ sine_cosine_at x k }
{
    let r = rest(x, k);
    let j = quarter(k);
    let s = sine_near(r);
    let c = cosine_near(r);
    if j == 0 {
        SineCosine { sine: s, cosine: c }
    } else if j == 1 {
        SineCosine {
            sine: c,
            cosine: -s,
        }
    } else if j == 2 {
        SineCosine {
            sine: -s,
            cosine: -c,
        }
    } else {
        SineCosine {
            sine: -c,
            cosine: s,
        }
    }
}

// Both at once, from one reduction.
pub fn sine_cosine(x: f64) -> SineCosine
    ensures { result ≡ sine_cosine x }
{
    if x >= -1048576.0 && x <= 1048576.0 {
        return sine_cosine_at(x, turns(x));
    }
    SineCosine {
        sine: 0.0 / 0.0,
        cosine: 0.0 / 0.0,
    }
}

pub fn magnitude(x: f64) -> f64
    ensures { result ≡ magnitude x }
{
    if x < 0.0 { -x } else { x }
}

// From 43 at place 20 to 3.
fn angle_near(q: f64) -> f64
    ensures { result ≡ angle_near q }
{
    odd_series(q, &ODDS, 20, 1)
}

// The angle whose tangent is q, for q from 0 to 1.
fn angle(q: f64) -> f64
    ensures { result ≡ angle q }
{
    if q > BEND {
        FRAC_PI_4 + angle_near((q - 1.0) / (q + 1.0))
    } else {
        0.0 + angle_near(q)
    }
}

// The angle of the point of these magnitudes.
fn eighth(y: f64, x: f64) -> f64
    ensures { result ≡ eighth y x }
{
    if y > x {
        FRAC_PI_2 - angle(x / y)
    } else {
        angle(y / x)
    }
}

// Mirrored to the left where x is below zero.
fn left(x: f64, t: f64) -> f64
    ensures { result ≡ left x t }
{
    if x < 0.0 { PI - t } else { t }
}

// Mirrored downwards where y is below zero.
fn below(y: f64, t: f64) -> f64
    ensures { result ≡ below y t }
{
    if y < 0.0 { -t } else { t }
}

// The angle of the point (x, y): NaN where one is NaN, and zero at the origin.
pub fn arctangent(y: f64, x: f64) -> f64
    ensures { result ≡ arctangent y x }
{
    if y != y || x != x {
        return 0.0 / 0.0;
    }
    if y == 0.0 && x == 0.0 {
        return 0.0;
    }
    below(y, left(x, eighth(magnitude(y), magnitude(x))))
}

// arctangent(m, x) for the m and x of an arcsine. There m alone says, but for a few roundings, which way the tests of `eighth` and `angle`
// go, and says it long before x is known; those tests then only confirm, and arctangent does what they do not confirm.
fn risen(m: f64, x: f64) -> f64
    requires { (lt m zero64 ≡ false) × (lt zero64 x ≡ true) }
    ensures { result ≡ arctangent m x }
{
    if m > 0.7071067811865476 {
        if m > x {
            let q = x / m;
            if m > 0.9238795325112867 {
                if q <= BEND {
                    return FRAC_PI_2 - (0.0 + angle_near(q));
                }
            } else if q > BEND {
                return FRAC_PI_2 - (FRAC_PI_4 + angle_near((q - 1.0) / (q + 1.0)));
            }
        }
    } else if m <= x {
        let q = m / x;
        if m > 0.3826834323650898 {
            if q > BEND {
                return FRAC_PI_4 + angle_near((q - 1.0) / (q + 1.0));
            }
        } else if q <= BEND {
            return 0.0 + angle_near(q);
        }
    }
    arctangent(m, x)
}

// The sign is a branch, since it is known long before the root is.
pub fn arcsine(v: f64) -> f64
    ensures { result ≡ arcsine v }
{
    if v < -1.0 || v > 1.0 {
        return 0.0 / 0.0;
    }
    let x = root::root((1.0 - v) * (1.0 + v));
    if x > 0.0 {
        if v < 0.0 { -risen(-v, x) } else { risen(v, x) }
    } else {
        arctangent(v, x)
    }
}

// The power of a to n, carried in c: the exponent falls by halving, and at 1 the last square is left out.
pub fn carried(a: f64, n: u32, c: f64) -> f64
    ensures { result ≡ carried a n c }
{
    if n % 2 == 0 {
        if n == 0 { c } else { carried(a * a, n / 2, c) }
    } else if n == 1 {
        c * a
    } else {
        carried(a * a, n / 2, c * a)
    }
}

// The power of a to n.
pub fn power(a: f64, n: u32) -> f64
    ensures { result ≡ power a n }
{
    carried(a, n, 1.0)
}

// Neither NaN nor an infinity.
pub fn is_finite(x: f64) -> bool
    ensures { result ≡ finite x }
{
    let d = x - x;
    d == d
}

// The float nearest a whole number: itself below 2^32, by one conversion, where the library's call makes two, a product and a sum.
pub fn float_of(n: usize) -> f64
    ensures { result ≡ number n }
{
    if n < 4294967296 {
        n as f64
    } else {
        std::num::nearest_usize_to_f64(n)
    }
}

// A count that is kept as a float, without its fraction; 0 where that is below zero or above `most`, and for NaN.
#[tactic(auto, using(std::proofs::lemmas::Bool::Decides::nat_tests), unfolding(crate::specs::Numbers::count_of))]
pub fn count_of(x: f64, most: usize) -> usize
    ensures { (result ≡ count_of x most) × (result ≤ most) }
{
    let n = std::num::saturating_f64_to_usize(x);
    if n <= most { n } else { 0 }
}

// Where row n of a triangular table begins, a place for each order up to the degree: so also how many places the rows before it have.
// Of a row above 181, which no table has, the bound alone is promised.
pub fn triangle(n: usize) -> usize
    ensures { (n ≤ 181 → result ≡ tri n) × (result ≤ 16471) }
{
    if n <= 181 { n * (n + 1) / 2 } else { 0 }
}

// A whole GPS second, which keys a list.
#[derive(Clone, Copy)]
pub struct GpsSecond(pub i64);

// GPS seconds with a fraction.
#[derive(Clone, Copy)]
pub struct GpsTime(pub f64);

// The one step from a time to its second; 0 where no i64 holds it.
// kept: no From, since the fraction is lost, and so is a time that no i64 holds
pub fn whole_second(t: GpsTime) -> GpsSecond
    ensures { result.0 ≡ whole_second t.0 }
{
    let x = t.0;
    if x >= -9223372036854775808.0 {
        if x < 9223372036854775808.0 {
            let n = std::num::truncating_f64_to_i64(x);
            return GpsSecond(n);
        }
    }
    GpsSecond(0)
}
