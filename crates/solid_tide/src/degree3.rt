// The gravity of a field of degree 3 with the Earth's GM and radius, here the solid tide: `partials` and `gravity` of the source at nmax = 3.
ghost use Rattle.std.specs.Prelude.{◌≡◌, ◌+◌, ◌≤◌, ◌<◌};
ghost use Rattle.laws.specs.WholeNumbers.{number};
ghost use Rattle.laws.specs.Tables.{tri};
ghost use Rattle.solid_tide.specs.Gravity.{add_order, order_sums, add_degree, degree_sums, tables_of, from_local, tide_gravity};

use crate::{GM_E, R_E};
use legendre::Sums;
use numbers;
use vectors;

// The coefficients, P(n, m) and its latitude derivative, cos mλ and sin mλ.
#[derive(Clone, Copy)]
pub struct Tables {
    pub tide: crate::SolidTide,
    pub p: [f64; 10],
    pub dp: [f64; 10],
    pub orders: crate::kernel::Orders,
}

// (R / r)^n, and the derivatives' sums over the degrees so far.
#[derive(Clone, Copy)]
pub struct Totals {
    pub power: f64,
    pub r: f64,
    pub lat: f64,
    pub lon: f64,
}

// A degree of the tables.
#[derive(Clone, Copy)]
struct Degree<'a> {
    tables: &'a Tables,
    n: usize,
    ghost small: { n ≤ 3 },
}

impl<'a> Degree<'a> {
    // Where order m stands in a table.
    fn place(&self, m: usize) -> usize
        requires { m ≤ self.now.n }
        ensures { (result ≡ tri self.now.n + m) × (result < 10) }
    {
        numbers::triangle(self.n) + m
    }

    #[tactic(auto, unfolding(crate::specs::Gravity::add_order))]
    fn add_order(&self, m: usize, sum: Sums) -> Sums
        requires { m ≤ self.now.n }
        ensures { result ≡ add_order self.now.tables.now self.now.n m sum }
    {
        let f = self.tables;
        let k = self.place(m);
        let c = f.tide.c[k];
        let s = f.tide.s[k];
        let x = f.orders.cos[m];
        let y = f.orders.sin[m];
        let even = c * x + s * y;
        let order = numbers::float_of(m);
        Sums {
            v: sum.v + f.p[k] * even,
            lat: sum.lat + f.dp[k] * even,
            lon: sum.lon + f.p[k] * order * (s * x - c * y),
        }
    }

    // kept: this loop and that of `degree_sums` share only the `for`, and their steps `add_order` and `add_to` add other sums.
    // One function for both would be handed a start and a step, and they are no more than these.
    fn order_sums(&self) -> Sums
        ensures { result ≡ order_sums self.now.tables.now self.now.n (self.now.n + 1) }
    {
        let mut s = Sums {
            v: 0.0,
            lat: 0.0,
            lon: 0.0,
        };
        for m in 0..self.n + 1 {
            s = self.add_order(m, s);
        }
        s
    }

    #[tactic(auto, unfolding(crate::specs::Gravity::add_degree))]
    fn add_to(&self, q: f64, t: Totals) -> Totals
        ensures { result ≡ add_degree self.now.tables.now q self.now.n t }
    {
        let s = self.order_sums();
        let next = numbers::float_of(self.n + 1);
        Totals {
            power: t.power * q,
            r: t.r - next * t.power * s.v,
            lat: t.lat + t.power * s.lat,
            lon: t.lon + t.power * s.lon,
        }
    }
}

fn degree_sums(f: &Tables, q: f64) -> Totals
    ensures { result ≡ degree_sums f.now q 4 }
{
    let mut t = Totals {
        power: 1.0,
        r: 0.0,
        lat: 0.0,
        lon: 0.0,
    };
    for n in 0..4 {
        let degree = Degree { tables: f, n };
        t = degree.add_to(q, t);
    }
    t
}

#[tactic(auto, unfolding(crate::specs::Gravity::tables_of))]
fn tables_of(field: crate::SolidTide, lat: numbers::SineCosine, lon: f64) -> Tables
    ensures { result ≡ tables_of field lat lon }
{
    let p = crate::kernel::legendre(lat.sine, lat.cosine);
    Tables {
        tide: field,
        p,
        dp: crate::kernel::derived(p),
        orders: crate::kernel::orders_of(lon),
    }
}

// North, east and up at a latitude and longitude, to Earth-fixed axes.
#[tactic(auto, unfolding(crate::specs::Gravity::from_local))]
pub fn from_local(
    lat: numbers::SineCosine,
    lon: numbers::SineCosine,
    n: f64,
    e: f64,
    u: f64,
) -> vectors::Vector
    ensures { result ≡ from_local lat lon n e u }
{
    vectors::Vector {
        x: -lat.sine * lon.cosine * n - lon.sine * e + lat.cosine * lon.cosine * u,
        y: -lat.sine * lon.sine * n + lon.cosine * e + lat.cosine * lon.sine * u,
        z: lat.cosine * n + lat.sine * u,
    }
}

pub fn gravity(field: crate::SolidTide, x: vectors::Vector) -> vectors::Vector
    ensures { result ≡ tide_gravity field x }
{
    let at = crate::kernel::place_of(x);
    let lat = numbers::sine_cosine(at.lat);
    let lon = numbers::sine_cosine(at.lon);
    let t = degree_sums(&tables_of(field, lat, at.lon), R_E / at.r);
    let k = GM_E / at.r;
    from_local(
        lat,
        lon,
        k * t.lat / at.r,
        k * t.lon / (at.r * lat.cosine),
        k / at.r * t.r,
    )
}
