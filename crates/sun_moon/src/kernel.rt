// Where the Sun and the Moon are: the low-precision series of Montenbruck and Gill (2000, §3.3.2).
ghost use Rattle.std.specs.Prelude.{◌≡◌, Float};
ghost use Rattle.sun_moon.specs.SunMoon.{centuries, arguments, angle, series, longitude, latitude, distance, equatorial, sun};
ghost use Rattle.sun_moon.specs.SunMoon.{moon, sidereal, turned, sun_moon};

use numbers;
use std::f64::consts::PI;
use vectors;

// A term of a series: its amplitude, and the multiples of l, l', F and D in its angle.
const LONGITUDE: [[f64; 5]; 13] = [
    [769.0, 2.0, 0.0, 0.0, 0.0],
    [-4586.0, 1.0, 0.0, 0.0, -2.0],
    [2370.0, 0.0, 0.0, 0.0, 2.0],
    [-668.0, 0.0, 1.0, 0.0, 0.0],
    [-412.0, 0.0, 0.0, 2.0, 0.0],
    [-212.0, 2.0, 0.0, 0.0, -2.0],
    [-206.0, 1.0, 1.0, 0.0, -2.0],
    [192.0, 1.0, 0.0, 0.0, 2.0],
    [-165.0, 0.0, 1.0, 0.0, -2.0],
    [148.0, 1.0, -1.0, 0.0, 0.0],
    [-125.0, 0.0, 0.0, 0.0, 1.0],
    [-110.0, 1.0, 1.0, 0.0, 0.0],
    [-55.0, 0.0, 0.0, 2.0, -2.0],
];

const LATITUDE: [[f64; 5]; 7] = [
    [-526.0, 0.0, 0.0, 1.0, -2.0],
    [44.0, 1.0, 0.0, 1.0, -2.0],
    [-31.0, -1.0, 0.0, 1.0, -2.0],
    [-25.0, -2.0, 0.0, 1.0, 0.0],
    [-23.0, 0.0, 1.0, 1.0, -2.0],
    [21.0, -1.0, 0.0, 1.0, 0.0],
    [11.0, 0.0, -1.0, 1.0, -2.0],
];

const DISTANCE: [[f64; 5]; 8] = [
    [-20905.0, 1.0, 0.0, 0.0, 0.0],
    [-3699.0, -1.0, 0.0, 0.0, 2.0],
    [-2956.0, 0.0, 0.0, 0.0, 2.0],
    [-570.0, 2.0, 0.0, 0.0, 0.0],
    [246.0, 2.0, 0.0, 0.0, -2.0],
    [-205.0, 0.0, 1.0, 0.0, -2.0],
    [-171.0, 1.0, 0.0, 0.0, 2.0],
    [-152.0, 1.0, 1.0, 0.0, -2.0],
];

// The fundamental arguments L₀, l, l', F and D, radians.
#[derive(Clone, Copy)]
pub struct Arguments {
    pub l0: f64,
    pub l: f64,
    pub lp: f64,
    pub f: f64,
    pub d: f64,
}

fn centuries(t: f64) -> f64
    ensures { result ≡ centuries t }
{
    (t + 51.184) / (36525.0 * 86400.0)
}

fn arguments_at(tc: f64) -> Arguments
    ensures { result ≡ arguments tc }
{
    let degree = PI / 180.0;
    Arguments {
        l0: (218.31617 + 481267.88088 * tc - 1.3972 * tc) * degree,
        l: (134.96292 + 477198.86753 * tc) * degree,
        lp: (357.52543 + 35999.04944 * tc) * degree,
        f: (93.27283 + 483202.01873 * tc) * degree,
        d: (297.85027 + 445267.11135 * tc) * degree,
    }
}

#[tactic(auto, unfolding(crate::specs::SunMoon::angle))]
fn angle(a: Arguments, term: [f64; 5]) -> f64
    ensures { result ≡ angle a term }
{
    term[1] * a.l + term[2] * a.lp + term[3] * a.f + term[4] * a.d
}

// `start`, with amplitude times sine or cosine (`wave`) of the angle of each term added in order.
fn series<F: Fn(f64) -> f64>(a: Arguments, start: f64, terms: &[[f64; 5]], wave: F) -> f64
    requires { F.IsAlwaysCallable wave }
    ensures { (g : Float → Float) → ((x y : Float) → F.post wave x y → y ≡ g x) → result ≡ series g a start terms.now }
{
    let mut sum = start;
    for term in terms {
        sum += term[0] * wave(angle(a, *term));
    }
    sum
}

fn longitude(a: Arguments) -> f64
    ensures { result ≡ longitude a }
{
    let second = PI / (180.0 * 3600.0);
    a.l0 + series(a, 22640.0 * numbers::sine(a.l), &LONGITUDE, numbers::sine) * second
}

fn latitude(a: Arguments, lambda: f64) -> f64
    ensures { result ≡ latitude a lambda }
{
    let second = PI / (180.0 * 3600.0);
    let flattened = (412.0 * numbers::sine(2.0 * a.f) + 541.0 * numbers::sine(a.lp)) * second;
    series(
        a,
        18520.0 * numbers::sine(a.f + lambda - a.l0 + flattened),
        &LATITUDE,
        numbers::sine,
    ) * second
}

fn distance(a: Arguments) -> f64
    ensures { result ≡ distance a }
{
    series(a, 385000.0, &DISTANCE, numbers::cosine) * 1e3
}

// From ecliptic longitude, latitude and distance to equatorial axes.
fn equatorial(lambda: f64, beta: f64, r: f64) -> vectors::Vector
    ensures { result ≡ equatorial lambda beta r }
{
    let e = numbers::sine_cosine(23.43929111 * (PI / 180.0));
    let l = numbers::sine_cosine(lambda);
    let b = numbers::sine_cosine(beta);
    let y = r * l.sine * b.cosine;
    let z = r * b.sine;
    vectors::Vector {
        x: r * l.cosine * b.cosine,
        y: y * e.cosine - z * e.sine,
        z: y * e.sine + z * e.cosine,
    }
}

fn sun(tc: f64) -> vectors::Vector
    ensures { result ≡ sun tc }
{
    let degree = PI / 180.0;
    let second = PI / (180.0 * 3600.0);
    let m = (357.5256 + 35999.049 * tc) * degree;
    let once = numbers::sine_cosine(m);
    let twice = numbers::sine_cosine(2.0 * m);
    let lambda = 282.94 * degree + m + (6892.0 * once.sine + 72.0 * twice.sine) * second;
    equatorial(
        lambda,
        0.0,
        (149.619 - 2.499 * once.cosine - 0.021 * twice.cosine) * 1e9,
    )
}

#[tactic(auto, unfolding(crate::specs::SunMoon::moon))]
fn moon(tc: f64) -> vectors::Vector
    ensures { result ≡ moon tc }
{
    let a = arguments_at(tc);
    let lambda = longitude(a);
    equatorial(lambda, latitude(a, lambda), distance(a))
}

fn sidereal(t: f64) -> f64
    ensures { result ≡ sidereal t }
{
    let days = (t - 5.0) / 86400.0;
    (280.46061837 + 360.98564736629 * days) * (PI / 180.0)
}

// The axes turned by an angle of the given sine and cosine.
#[tactic(auto, unfolding(crate::specs::SunMoon::turned))]
fn turned(v: vectors::Vector, g: numbers::SineCosine) -> vectors::Vector
    ensures { result ≡ turned v g }
{
    vectors::Vector {
        x: g.cosine * v.x + g.sine * v.y,
        y: -g.sine * v.x + g.cosine * v.y,
        z: v.z,
    }
}

#[tactic(auto, unfolding(crate::specs::SunMoon::sun_moon))]
pub fn sun_moon(t: f64) -> crate::SunMoon
    ensures { result ≡ sun_moon t }
{
    let tc = centuries(t);
    let g = numbers::sine_cosine(sidereal(t));
    let s = turned(sun(tc), g);
    let m = turned(moon(tc), g);
    crate::SunMoon { sun: s, moon: m }
}
