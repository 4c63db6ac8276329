// The spherical harmonic series of a field: its tables, and one evaluation streamed by rows, with no square root and no work slice.
#![tactic(auto)]

ghost use Rattle.std.specs.Prelude.{◌≡◌, ◌++◌, Float, ℕ, suc, ◌+◌, ◌*◌, ◌≤◌, ◌<◌, length, take};
ghost use Rattle.std.specs.Float.{binary64};
ghost use Rattle.root.specs.Root.{sqrt};
ghost use Rattle.laws.specs.Floats.{◌⊗◌};
ghost use Rattle.laws.specs.Tables.{tri, row, rows};
ghost use Rattle.legendre.specs.Legendre.{a_of, b_of, lower_of, upper_of, ratio, diagonal, unscale, derived_row};
ghost use Rattle.legendre.specs.Arrays.{at, from, Begins, Has};
ghost use Rattle.legendre.specs.Rows.{next_by, lent, legendre_by, derived_by, Holds};
ghost use Rattle.legendre.specs.Sums.{RowSums, degree_of, cosines, sines, degrees, AllSums};
ghost use Rattle.legendre.specs.Field.{totals as totals_of, size, Fits, fits_in, tables_in, evaluation_of, partials_with};
ghost use Rattle.legendre.specs.Prepared.{Gives, tabulated, prepared};
ghost use Rattle.legendre.specs.Tables.{derived_from, derived_with, legendre_with, derivative_with};

mod evaluation;
mod tables;

use evaluation::{Latitude, Terms};
use std::f64::consts::SQRT_2;
use tables::{Degree, Lent, Tables};

const SCALE: f64 = 1e-280;

fn degree_at(n: usize) -> Degree
    requires { n ≤ 180 }
    ensures { result.n ≡ n }
{
    Degree {
        n,
        start: numbers::triangle(n),
    }
}

// The factors of the recursion.
fn a_of(n: usize, m: usize) -> f64
    ensures { result ≡ a_of n m }
{
    if m == n {
        return 0.0;
    }
    let nf = numbers::float_of(n);
    let mf = numbers::float_of(m);
    root::root((2.0 * nf - 1.0) * (2.0 * nf + 1.0) / ((nf - mf) * (nf + mf)))
}

fn b_of(n: usize, m: usize) -> f64
    ensures { result ≡ b_of n m }
{
    if n.saturating_sub(m) <= 1 {
        return 0.0;
    }
    let nf = numbers::float_of(n);
    let mf = numbers::float_of(m);
    root::root(
        (2.0 * nf + 1.0) * (nf + mf - 1.0) * (nf - mf - 1.0)
            / ((nf - mf) * (nf + mf) * (2.0 * nf - 3.0)),
    )
}

// The factors of the derivative.
fn lower_of(n: usize, m: usize) -> f64
    ensures { result ≡ lower_of n m }
{
    let nf = numbers::float_of(n);
    let mf = numbers::float_of(m);
    let f = root::root((nf + mf) * (nf - mf + 1.0));
    if m == 1 {
        return SQRT_2 * f;
    }
    1.0 * f
}

fn upper_of(n: usize, m: usize) -> f64
    ensures { result ≡ upper_of n m }
{
    let nf = numbers::float_of(n);
    if m == 0 {
        return root::root(nf * (nf + 1.0) / 2.0);
    }
    let mf = numbers::float_of(m);
    root::root((nf - mf) * (nf + mf + 1.0))
}

// The row of a degree in a factor's table.
fn factor_row<F: Fn(usize, usize) -> f64>(factor: &F, degree: Degree, out: &mut [f64])
    requires callable { F.IsAlwaysCallable factor.now }
    requires room { degree.start + (degree.n + 1) ≤ length out.old }
    ensures { (f : ℕ → ℕ → Float) → Gives (F.post factor.now) f → take (degree.start + (degree.n + 1)) out.new ≡ take degree.start out.old
        ++ row (f degree.n) (degree.n + 1) }
{
    let n = degree.n;
    let k = degree.start;
    for m in 0..n + 1 {
        out[k + m] = factor(n, m);
    }
}

fn factor_rows<F: Fn(usize, usize) -> f64>(factor: &F, last: Degree, out: &mut [f64])
    requires callable { F.IsAlwaysCallable factor.now }
    requires room { length out.old ≡ size last.n }
    ensures { (f : ℕ → ℕ → Float) → Gives (F.post factor.now) f → out.new ≡ rows f (last.n + 1) }
{
    for n in 0..last.n + 1 {
        factor_row(factor, degree_at(n), out);
    }
}

// The table of a factor, where out has its length.
fn tabulate<F: Fn(usize, usize) -> f64>(factor: F, degree: usize, out: &mut [f64])
    requires { F.IsAlwaysCallable factor }
    ensures { (f : ℕ → ℕ → Float) → Gives (F.post factor) f → out.new ≡ tabulated f degree out.old }
{
    if degree <= 180 && out.len() == numbers::triangle(degree + 1) {
        factor_rows(&factor, degree_at(degree), out);
    }
}

// The tables of the recursion's factors a and b.
pub fn tabulate_a(degree: usize, out: &mut [f64])
    ensures { out.new ≡ tabulated a_of degree out.old }
{
    tabulate(a_of, degree, out);
}

pub fn tabulate_b(degree: usize, out: &mut [f64])
    ensures { out.new ≡ tabulated b_of degree out.old }
{
    tabulate(b_of, degree, out);
}

// The tables of the derivative's factors.
pub fn tabulate_lower(degree: usize, out: &mut [f64])
    ensures { out.new ≡ tabulated lower_of degree out.old }
{
    tabulate(lower_of, degree, out);
}

pub fn tabulate_upper(degree: usize, out: &mut [f64])
    ensures { out.new ≡ tabulated upper_of degree out.old }
{
    tabulate(upper_of, degree, out);
}

// The diagonal's next.
fn diagonal_next(m: usize, pmm: f64) -> f64
    requires { (0 < m) × (m ≤ 181) }
    ensures { result ≡ pmm ⊗ sqrt binary64 (ratio m) }
{
    if m == 1 {
        return pmm * root::root(3.0);
    }
    pmm * root::root(numbers::float_of(2 * m + 1) / numbers::float_of(2 * m))
}

fn diagonal_row(last: Degree, out: &mut [f64])
    requires { length out.old ≡ last.n + 1 }
    ensures { out.new ≡ row diagonal (last.n + 1) }
{
    let mut pmm = SCALE;
    for m in 0..last.n + 1 {
        out[m] = pmm;
        pmm = diagonal_next(m + 1, pmm);
    }
}

fn prepare_in(last: Degree, work: &mut [f64])
    requires { 8 * size last.n ≤ length work.old }
    ensures { work.new ≡ prepared last.n work.old }
{
    let l = numbers::triangle(last.n + 1);
    let l2 = 2 * l;
    let l3 = 3 * l;
    let l4 = 4 * l;
    let end = l4 + (last.n + 1);
    factor_rows(&lower_of, last, &mut work[l2..l3]);
    factor_rows(&upper_of, last, &mut work[l3..l4]);
    diagonal_row(last, &mut work[l4..end]);
}

// Fills what depends on the degree alone, in a work slice of at least 8·L numbers.
pub fn prepare(degree: usize, work: &mut [f64])
    ensures { work.new ≡ prepared degree work.old }
{
    if degree <= 180 && 8 * numbers::triangle(degree + 1) <= work.len() {
        prepare_in(degree_at(degree), work);
    }
}

// cos^m / 1e-280 by m.
fn unscale_row(last: Degree, u: f64, r: &mut [f64; 184])
    ensures { Has (last.n + 1) (unscale u) r.new }
{
    let mut x = 1.0 / SCALE;
    for m in 0..last.n + 1 {
        r[m] = x;
        x *= u;
    }
}

// Cosine and sine of m times the longitude, by m.
fn order_rows(last: Degree, lon: f64, x: &mut [f64; 184], y: &mut [f64; 184])
    ensures { Has (last.n + 1) (cosines lon) x.new × Has (last.n + 1) (sines lon) y.new }
{
    for m in 0..last.n + 1 {
        let z = numbers::sine_cosine(numbers::float_of(m) * lon);
        x[m] = z.cosine;
        y[m] = z.sine;
    }
}

// The row of the scaled recursion in the place of the row before last, and its products with the powers.
// kept: `degree.n ≤ latitude.now.tables.last.n` here and in two more contracts, since it ties two arguments: a struct of both would
// be made anew for each row, and say nothing else.
fn legendre_row(
    degree: Degree,
    latitude: &Latitude<'_, '_>,
    q1: &[f64; 184],
    q2: &mut [f64; 184],
    p: &mut [f64; 184],
)
    requires { degree.n ≤ latitude.now.tables.last.n }
    ensures begins { Begins (degree.n + 1) (next_by (lent latitude.now.tables) latitude.now.sine degree.n (at q1.now) (at q2.old)) q2.old q2.new }
    ensures has { Has (degree.n + 1) (λ (m : ℕ). next_by (lent latitude.now.tables) latitude.now.sine degree.n (at q1.now) (at q2.old) m
        ⊗ at latitude.now.powers.now m) p.new }
{
    let n = degree.n;
    let k = degree.start;
    let a = latitude.tables.a;
    let b = latitude.tables.b;
    let t = latitude.sine;
    let r = latitude.powers;
    for m in 0..n {
        let q = a[k + m] * t * q1[m] - b[k + m] * q2[m];
        q2[m] = q;
        p[m] = q * r[m];
    }
    let head = latitude.tables.heads[n];
    q2[n] = head;
    p[n] = head * r[n];
}

// The row of the derivative.
fn derived_row(degree: Degree, lower: &[f64], upper: &[f64], p: &[f64; 184], d: &mut [f64; 184])
    requires { (degree.start + degree.n < length lower.now) × (degree.start + degree.n < length upper.now) }
    ensures { Has (degree.n + 1) (derived_row degree.n (from lower.now degree.start) (from upper.now degree.start) (at p.now)) d.new }
{
    let n = degree.n;
    let k = degree.start;
    if n == 0 {
        d[0] = 0.0;
        return;
    }
    d[0] = upper[k] * p[1];
    for m in 1..n {
        d[m] = -0.5 * (lower[k + m] * p[m - 1] - upper[k + m] * p[m + 1]);
    }
    d[n] = -0.5 * (lower[k + n] * p[n - 1] - 0.0);
}

// A row of the Legendre functions, and of their derivatives.
#[derive(Drop)]
struct Values {
    p: [f64; 184],
    d: [f64; 184],
}

// The row of a degree, from the scaled rows before it.
fn both_rows(
    degree: Degree,
    latitude: &Latitude<'_, '_>,
    q1: &[f64; 184],
    q2: &mut [f64; 184],
    values: &mut Values,
)
    requires { (degree.n ≤ latitude.now.tables.last.n) × Holds (lent latitude.now.tables) latitude.now.sine (suc degree.n) q1.now
        × Holds (lent latitude.now.tables) latitude.now.sine degree.n q2.old }
    ensures scaled { Holds (lent latitude.now.tables) latitude.now.sine (suc (suc degree.n)) q2.new }
    ensures functions { Has (degree.n + 1) (legendre_by (lent latitude.now.tables) latitude.now.sine latitude.now.cosine degree.n) values.new.p }
    ensures derivatives { Has (degree.n + 1) (derived_by (lent latitude.now.tables) latitude.now.sine latitude.now.cosine degree.n) values.new.d }
{
    legendre_row(degree, latitude, q1, q2, &mut values.p);
    derived_row(
        degree,
        latitude.tables.lower,
        latitude.tables.upper,
        &values.p,
        &mut values.d,
    );
}

#[derive(Clone, Copy)]
pub struct Sums {
    pub v: f64,
    pub lat: f64,
    pub lon: f64,
}

// The sums of a degree over its orders.
fn row_sums(degree: Degree, terms: &Terms<'_, '_, '_>, values: &Values) -> Sums
    requires { degree.n ≤ terms.now.latitude.tables.last.n }
    ensures { RowSums (degree_of (from terms.now.c.now (tri degree.n)) (from terms.now.s.now (tri degree.n)) (at terms.now.x.now)
        (at terms.now.y.now) (at values.now.p) (at values.now.d)) (degree.n + 1) result.v result.lat result.lon }
{
    let k = degree.start;
    let c = terms.c;
    let s = terms.s;
    let x = terms.x;
    let y = terms.y;
    let mut v = 0.0;
    let mut lat = 0.0;
    let mut lon = 0.0;
    // m as a float: counting on is cheaper here than a conversion in each turn
    let mut order = 0.0;
    for m in 0..degree.n + 1 {
        let cm = c[k + m];
        let sm = s[k + m];
        let xm = x[m];
        let ym = y[m];
        let pm = values.p[m];
        let even = cm * xm + sm * ym;
        v += pm * even;
        lat += values.d[m] * even;
        lon += pm * order * (sm * xm - cm * ym);
        order += 1.0;
    }
    Sums { v, lat, lon }
}

// The four sums, before the last factors.
// kept: a type beside Partials, though both are four numbers. A sum is no potential before GM/r has come to it: with one type an
// evaluation could hand out its sums, and a reader of `finished`, which takes these and gives those, would see the same type twice.
#[derive(Clone, Copy)]
pub struct Totals {
    pub v: f64,
    pub r: f64,
    pub lat: f64,
    pub lon: f64,
}

// The sums so far, and the ratio's power.
#[derive(Clone, Copy)]
pub struct Running {
    pub total: Totals,
    pub power: f64,
}

// One degree: its row in the place of the row before last, and its sums added.
fn one_row(
    degree: Degree,
    terms: &Terms<'_, '_, '_>,
    q1: &[f64; 184],
    q2: &mut [f64; 184],
    values: &mut Values,
    sum: Running,
) -> Running
    requires { (degree.n ≤ terms.now.latitude.tables.last.n)
        × Holds (lent terms.now.latitude.tables) terms.now.latitude.sine (suc degree.n) q1.now
        × Holds (lent terms.now.latitude.tables) terms.now.latitude.sine degree.n q2.old
        × AllSums (evaluation_of terms.now) terms.now.ratio degree.n sum.total.v sum.total.r sum.total.lat sum.total.lon sum.power }
    ensures { Holds (lent terms.now.latitude.tables) terms.now.latitude.sine (suc (suc degree.n)) q2.new
        × AllSums (evaluation_of terms.now) terms.now.ratio (degree.n + 1) result.total.v result.total.r result.total.lat result.total.lon result.power }
{
    let w = numbers::float_of(degree.n + 1);
    both_rows(degree, &terms.latitude, q1, q2, values);
    let z = row_sums(degree, terms, values);
    let total = Totals {
        v: sum.total.v + sum.power * z.v,
        r: sum.total.r - w * sum.power * z.v,
        lat: sum.total.lat + sum.power * z.lat,
        lon: sum.total.lon + sum.power * z.lon,
    };
    Running {
        total,
        power: sum.power * terms.ratio,
    }
}

// All degrees, two a turn: qa holds the rows of even degree, qb those of odd.
fn streamed(terms: &Terms<'_, '_, '_>) -> Totals
    ensures { result ≡ totals_of (degrees (evaluation_of terms.now)) terms.now.ratio (terms.now.latitude.tables.last.n + 1) }
{
    let last = terms.latitude.tables.last.n;
    let mut qa = [0.0; 184];
    let mut qb = [0.0; 184];
    let mut values = Values {
        p: [0.0; 184],
        d: [0.0; 184],
    };
    let none = Totals {
        v: 0.0,
        r: 0.0,
        lat: 0.0,
        lon: 0.0,
    };
    let mut sum = Running {
        total: none,
        power: 1.0,
    };
    for n in (0..last + 1).step_by(2) {
        sum = one_row(degree_at(n), terms, &qb, &mut qa, &mut values, sum);
        if n == last {
            return sum.total;
        }
        sum = one_row(degree_at(n + 1), terms, &qa, &mut qb, &mut values, sum);
    }
    sum.total
}

// The potential and its derivatives by radius, latitude and longitude.
#[derive(Clone, Copy)]
pub struct Partials {
    pub v: f64,
    pub dr: f64,
    pub dlat: f64,
    pub dlon: f64,
}

// Tables of L numbers, a work slice of at least 8·L.
fn fits(degree: usize, a: usize, b: usize, work: usize) -> bool
    ensures { result ≡ fits_in degree a b work }
{
    if degree > 180 {
        return false;
    }
    let l = numbers::triangle(degree + 1);
    a == l && (b == l && 8 * l <= work)
}

// The tables a and b, and those that stand in the work slice behind C and S.
fn tables_in<'a>(given: &Lent<'a>) -> Tables<'a>
    ensures kept { result.last.n ≡ given.now.last.n }
    ensures value { lent result ≡ tables_in given.now.last.n given.now.a.now given.now.b.now given.now.work.now }
{
    let l = numbers::triangle(given.last.n + 1);
    let l2 = 2 * l;
    let l3 = 3 * l;
    let l4 = 4 * l;
    let end = l4 + (given.last.n + 1);
    Tables {
        last: given.last,
        a: given.a,
        b: given.b,
        lower: &given.work[l2..l3],
        upper: &given.work[l3..l4],
        heads: &given.work[l4..end],
    }
}

fn partials_in(given: &Lent<'_>, gm: f64, radius: f64, r: f64, lat: f64, lon: f64) -> Partials
    ensures { result ≡ partials_with given.now.last.n gm radius given.now.a.now given.now.b.now given.now.work.now r lat lon }
{
    let w = numbers::sine_cosine(lat);
    let mut powers = [0.0; 184];
    let mut x = [0.0; 184];
    let mut y = [0.0; 184];
    unscale_row(given.last, w.cosine, &mut powers);
    order_rows(given.last, lon, &mut x, &mut y);
    let tables = tables_in(given);
    let latitude = Latitude {
        tables,
        sine: w.sine,
        cosine: w.cosine,
        powers: &powers,
    };
    let l = numbers::triangle(given.last.n + 1);
    let l2 = 2 * l;
    let terms = Terms {
        latitude,
        ratio: radius / r,
        lon,
        x: &x,
        y: &y,
        c: &given.work[0..l],
        s: &given.work[l..l2],
    };
    let z = streamed(&terms);
    let gmr = gm / r;
    Partials {
        v: gmr * z.v,
        dr: gmr / r * z.r,
        dlat: gmr * z.lat,
        dlon: gmr * z.lon,
    }
}

// One evaluation: C, S and the prepared tables stand in the work slice, a and b are the recursion's tables. +0.0 where a length does not fit.
pub fn evaluate(
    degree: usize,
    gm: f64,
    radius: f64,
    a: &[f64],
    b: &[f64],
    work: &[f64],
    r: f64,
    lat: f64,
    lon: f64,
) -> Partials
    ensures { result ≡ partials_with degree gm radius a.now b.now work.now r lat lon }
{
    if fits(degree, a.len(), b.len(), work.len()) {
        let given = Lent {
            last: degree_at(degree),
            a,
            b,
            work,
        };
        return partials_in(&given, gm, radius, r, lat, lon);
    }
    Partials {
        v: 0.0,
        dr: 0.0,
        dlat: 0.0,
        dlon: 0.0,
    }
}

// The first numbers of an array as the row of a degree in a table.
fn store_row(degree: Degree, x: &[f64; 184], out: &mut [f64])
    requires { degree.start + (degree.n + 1) ≤ length out.old }
    ensures { take (degree.start + (degree.n + 1)) out.new ≡ take degree.start out.old ++ row (at x.now) (degree.n + 1) }
{
    let k = degree.start;
    for m in 0..degree.n + 1 {
        out[k + m] = x[m];
    }
}

// And back.
fn load_row(degree: Degree, p: &[f64], x: &mut [f64; 184])
    requires { degree.start + degree.n < length p.now }
    ensures { Has (degree.n + 1) (from p.now degree.start) x.new }
{
    let k = degree.start;
    for m in 0..degree.n + 1 {
        x[m] = p[k + m];
    }
}

// The derivative of the table p, row by row.
fn derive_rows(last: Degree, lower: &[f64], upper: &[f64], p: &[f64], dp: &mut [f64])
    requires { (length lower.now ≡ size last.n) × (length upper.now ≡ size last.n) × (length p.now ≡ size last.n) × (length dp.old ≡ size last.n) }
    ensures { dp.new ≡ rows (derived_from lower.now upper.now p.now) (last.n + 1) }
{
    let mut x = [0.0; 184];
    let mut d = [0.0; 184];
    for n in 0..last.n + 1 {
        let degree = degree_at(n);
        load_row(degree, p, &mut x);
        derived_row(degree, lower, upper, &x, &mut d);
        store_row(degree, &d, dp);
    }
}

fn derive_in(degree: usize, p: &[f64], work: &[f64], dp: &mut [f64])
    requires { Fits degree (length p.now) (length dp.old) (length work.now) }
    ensures { dp.new ≡ derived_with degree p.now work.now dp.old }
{
    let l = numbers::triangle(degree + 1);
    let l2 = 2 * l;
    let l3 = 3 * l;
    let l4 = 4 * l;
    derive_rows(degree_at(degree), &work[l2..l3], &work[l3..l4], p, dp);
}

// The derivative of a table by the factors of a prepared work slice.
pub fn derive(degree: usize, p: &[f64], work: &[f64], dp: &mut [f64])
    ensures { dp.new ≡ derived_with degree p.now work.now dp.old }
{
    if fits(degree, p.len(), dp.len(), work.len()) {
        derive_in(degree, p, work, dp);
    }
}

// The row of a degree in the Legendre table and in its derivative.
fn compute_one(
    degree: Degree,
    latitude: &Latitude<'_, '_>,
    q1: &[f64; 184],
    q2: &mut [f64; 184],
    values: &mut Values,
    p: &mut [f64],
    dp: &mut [f64],
)
    requires { (degree.n ≤ latitude.now.tables.last.n) × Holds (lent latitude.now.tables) latitude.now.sine (suc degree.n) q1.now
        × Holds (lent latitude.now.tables) latitude.now.sine degree.n q2.old
        × (tri degree.n + (degree.n + 1) ≤ length p.old) × (tri degree.n + (degree.n + 1) ≤ length dp.old) }
    ensures { Holds (lent latitude.now.tables) latitude.now.sine (suc (suc degree.n)) q2.new
        × (take (tri degree.n + (degree.n + 1)) p.new ≡ take (tri degree.n) p.old
        ++ row (legendre_by (lent latitude.now.tables) latitude.now.sine latitude.now.cosine degree.n) (degree.n + 1))
        × (take (tri degree.n + (degree.n + 1)) dp.new ≡ take (tri degree.n) dp.old
        ++ row (derived_by (lent latitude.now.tables) latitude.now.sine latitude.now.cosine degree.n) (degree.n + 1)) }
{
    both_rows(degree, latitude, q1, q2, values);
    store_row(degree, &values.p, p);
    store_row(degree, &values.d, dp);
}

// All rows, two a turn.
fn compute_rows(latitude: &Latitude<'_, '_>, p: &mut [f64], dp: &mut [f64])
    requires { (length p.old ≡ size latitude.now.tables.last.n) × (length dp.old ≡ size latitude.now.tables.last.n) }
    ensures { (p.new ≡ rows (legendre_by (lent latitude.now.tables) latitude.now.sine latitude.now.cosine) (latitude.now.tables.last.n + 1))
        × (dp.new ≡ rows (derived_by (lent latitude.now.tables) latitude.now.sine latitude.now.cosine) (latitude.now.tables.last.n + 1)) }
{
    let last = latitude.tables.last.n;
    let mut qa = [0.0; 184];
    let mut qb = [0.0; 184];
    let mut values = Values {
        p: [0.0; 184],
        d: [0.0; 184],
    };
    for n in (0..last + 1).step_by(2) {
        compute_one(degree_at(n), latitude, &qb, &mut qa, &mut values, p, dp);
        if n == last {
            return;
        }
        compute_one(degree_at(n + 1), latitude, &qa, &mut qb, &mut values, p, dp);
    }
}

fn compute_in(given: &Lent<'_>, lat: f64, p: &mut [f64], dp: &mut [f64])
    requires { (length p.old ≡ size given.now.last.n) × (length dp.old ≡ size given.now.last.n) }
    ensures { (p.new ≡ legendre_with given.now.last.n given.now.a.now given.now.b.now given.now.work.now lat p.old dp.old)
        × (dp.new ≡ derivative_with given.now.last.n given.now.a.now given.now.b.now given.now.work.now lat p.old dp.old) }
{
    let w = numbers::sine_cosine(lat);
    let mut powers = [0.0; 184];
    unscale_row(given.last, w.cosine, &mut powers);
    let tables = tables_in(given);
    let latitude = Latitude {
        tables,
        sine: w.sine,
        cosine: w.cosine,
        powers: &powers,
    };
    compute_rows(&latitude, p, dp);
}

// The Legendre table at a latitude and its derivative, by a prepared work slice and the recursion's tables.
// kept: five lists, those of document 01's call in crate `fields`, whose kernel this is. Behind the tests of the lengths the three that
// are read are one `Lent`; the other two are written, each by itself.
pub fn compute(
    degree: usize,
    a: &[f64],
    b: &[f64],
    work: &[f64],
    lat: f64,
    p: &mut [f64],
    dp: &mut [f64],
)
    ensures { (p.new ≡ legendre_with degree a.now b.now work.now lat p.old dp.old)
        × (dp.new ≡ derivative_with degree a.now b.now work.now lat p.old dp.old) }
{
    if fits(degree, a.len(), b.len(), work.len()) && fits(degree, p.len(), dp.len(), work.len()) {
        let given = Lent {
            last: degree_at(degree),
            a,
            b,
            work,
        };
        compute_in(&given, lat, p, dp);
    }
}
