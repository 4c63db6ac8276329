// The coefficients of the solid-Earth tide (IERS Conventions 2010, eq. 6.6, with the source's Love numbers).
// Tables by degree and order stand in ten numbers, (n, m) at n (n + 1) / 2 + m.
ghost use Rattle.std.specs.Prelude.{◌≡◌, ◌+◌, ◌≤◌, ◌<◌, length};
ghost use Rattle.laws.specs.Tables.{rows};
ghost use Rattle.legendre.specs.Legendre.{legendre as legendre_of, derived as derived_of};
ghost use Rattle.solid_tide.specs.Tide.{entry, place_of, orders_of, raised_by, both_raise, solid_tide};

use crate::{GM_E, GM_MOON, GM_SUN, R_E};
use numbers;
use vectors;

const SCALE: f64 = 1e-280;

// The recursion's factors a and b, its diagonal, and the derivative's factors of P(n, m - 1) and P(n, m + 1).
const A: [f64; 10] = [
    0.0,
    1.7320508075688772,
    0.0,
    1.9364916731037085,
    2.23606797749979,
    0.0,
    1.9720265943665387,
    2.091650066335189,
    2.6457513110645907,
    0.0,
];

const B: [f64; 10] = [
    0.0,
    0.0,
    0.0,
    1.118033988749895,
    0.0,
    0.0,
    1.0183501544346312,
    0.9354143466934853,
    0.0,
    0.0,
];

const DIAGONAL: [f64; 4] = [
    1e-280,
    1.732050807568877e-280,
    1.9364916731037082e-280,
    2.0916500663351887e-280,
];

const LOWER: [f64; 10] = [
    0.0,
    0.0,
    2.0000000000000004,
    0.0,
    3.4641016151377544,
    2.0,
    0.0,
    4.898979485566357,
    3.1622776601683795,
    2.449489742783178,
];

const UPPER: [f64; 10] = [
    0.0,
    1.0,
    0.0,
    1.7320508075688772,
    2.0,
    0.0,
    2.449489742783178,
    3.1622776601683795,
    2.449489742783178,
    0.0,
];

// k₂₀, k₂₁, k₂₂ and k₃₀ to k₃₃, the last 0.094 in the Conventions' table 6.3.
const LOVE: [f64; 10] = [
    0.0, 0.0, 0.0, 0.29525, 0.29470, 0.29801, 0.093, 0.093, 0.093, 0.093,
];

// Distance, geocentric latitude and longitude.
#[derive(Clone, Copy)]
pub struct Place {
    pub r: f64,
    pub lat: f64,
    pub lon: f64,
}

// cos mλ and sin mλ for m = 0 to 3.
#[derive(Clone, Copy)]
pub struct Orders {
    pub cos: [f64; 4],
    pub sin: [f64; 4],
}

// What one body raises: by degree and order, before cos mλ and sin mλ.
#[derive(Clone, Copy)]
pub struct Raised {
    pub weight: [f64; 10],
    pub orders: Orders,
}

#[tactic(auto, unfolding(crate::specs::Tide::place_of))]
pub fn place_of(x: vectors::Vector) -> Place
    ensures { result ≡ place_of x }
{
    let r = vectors::norm(x);
    let lat = numbers::arcsine(x.z / r);
    let lon = numbers::arctangent(x.y, x.x);
    Place { r, lat, lon }
}

pub fn orders_of(lon: f64) -> Orders
    ensures { result ≡ orders_of lon }
{
    let a = numbers::sine_cosine(0.0 * lon);
    let b = numbers::sine_cosine(1.0 * lon);
    let c = numbers::sine_cosine(2.0 * lon);
    let d = numbers::sine_cosine(3.0 * lon);
    Orders {
        cos: [a.cosine, b.cosine, c.cosine, d.cosine],
        sin: [a.sine, b.sine, c.sine, d.sine],
    }
}

// P(n, m) at the latitude whose sine is t and whose cosine is u, column by column.
pub fn legendre(t: f64, u: f64) -> [f64; 10]
    ensures { result ≡ rows (legendre_of t u) 4 }
{
    let r0 = 1.0 / SCALE;
    let r1 = r0 * u;
    let r2 = r1 * u;
    let r3 = r2 * u;
    let q10 = A[1] * t * DIAGONAL[0] - B[1] * 0.0;
    let q20 = A[3] * t * q10 - B[3] * DIAGONAL[0];
    let q30 = A[6] * t * q20 - B[6] * q10;
    let q21 = A[4] * t * DIAGONAL[1] - B[4] * 0.0;
    let q31 = A[7] * t * q21 - B[7] * DIAGONAL[1];
    let q32 = A[8] * t * DIAGONAL[2] - B[8] * 0.0;
    [
        DIAGONAL[0] * r0,
        q10 * r0,
        DIAGONAL[1] * r1,
        q20 * r0,
        q21 * r1,
        DIAGONAL[2] * r2,
        q30 * r0,
        q31 * r1,
        q32 * r2,
        DIAGONAL[3] * r3,
    ]
}

// The latitude derivatives of a table.
pub fn derived(p: [f64; 10]) -> [f64; 10]
    ensures { result ≡ rows (derived_of (entry p)) 4 }
{
    [
        0.0,
        UPPER[1] * p[2],
        -0.5 * (LOWER[2] * p[1] - 0.0),
        UPPER[3] * p[4],
        -0.5 * (LOWER[4] * p[3] - UPPER[4] * p[5]),
        -0.5 * (LOWER[5] * p[4] - 0.0),
        UPPER[6] * p[7],
        -0.5 * (LOWER[7] * p[6] - UPPER[7] * p[8]),
        -0.5 * (LOWER[8] * p[7] - UPPER[8] * p[9]),
        -0.5 * (LOWER[9] * p[8] - 0.0),
    ]
}

// k(n, m) / (2n + 1) · GM_j / GM · (R / r_j)^(n + 1) · P(n, m)
fn raised_by(body: vectors::Vector, gm: f64) -> Raised
    ensures { result ≡ raised_by body gm }
{
    let at = place_of(body);
    let sc = numbers::sine_cosine(at.lat);
    let p = legendre(sc.sine, sc.cosine);
    let q = R_E / at.r;
    let k2 = gm / GM_E * numbers::power(q, 3) / 5.0;
    let k3 = gm / GM_E * numbers::power(q, 4) / 7.0;
    Raised {
        weight: [
            0.0,
            0.0,
            0.0,
            LOVE[3] * k2 * p[3],
            LOVE[4] * k2 * p[4],
            LOVE[5] * k2 * p[5],
            LOVE[6] * k3 * p[6],
            LOVE[7] * k3 * p[7],
            LOVE[8] * k3 * p[8],
            LOVE[9] * k3 * p[9],
        ],
        orders: orders_of(at.lon),
    }
}

// The coefficients, from weights and cosines or sines of the Sun and the Moon.
#[tactic(auto, unfolding(laws::specs::Tables::rows, laws::specs::Tables::row, crate::specs::Tide::both_raise, laws::specs::Tables::tri))]
fn both(s: [f64; 10], x: [f64; 4], m: [f64; 10], y: [f64; 4]) -> [f64; 10]
    ensures { result ≡ both_raise s x m y }
{
    [
        0.0,
        0.0,
        0.0,
        0.0 + s[3] * x[0] + m[3] * y[0],
        0.0 + s[4] * x[1] + m[4] * y[1],
        0.0 + s[5] * x[2] + m[5] * y[2],
        0.0 + s[6] * x[0] + m[6] * y[0],
        0.0 + s[7] * x[1] + m[7] * y[1],
        0.0 + s[8] * x[2] + m[8] * y[2],
        0.0 + s[9] * x[3] + m[9] * y[3],
    ]
}

pub fn solid_tide(sun: vectors::Vector, moon: vectors::Vector) -> crate::SolidTide
    ensures { result ≡ solid_tide sun moon }
{
    let s = raised_by(sun, GM_SUN);
    let m = raised_by(moon, GM_MOON);
    crate::SolidTide {
        c: both(s.weight, s.orders.cos, m.weight, m.orders.cos),
        s: both(s.weight, s.orders.sin, m.weight, m.orders.sin),
    }
}
