// The fully normalised Legendre functions of `compute_with_derivative`: closed forms to degree 3 (W. A. Heiskanen and H. Moritz, Physical Geodesy, 1967,
// §1-14), and two sums of squares to degree 180 that follow from the addition theorem (§1-15).
ghost use Rattle.std.specs.Prelude.{◌≤◌};

use crate::table::{Heading, Tally};
use slices::Refusal;
use std::f64::consts::PI;

const DEGREE: f64 = PI / 180.0;

// ---- closed forms

// P(n, m) for degrees 1 to 3 at the latitude of this sine and cosine, (n, m) at n (n + 1) / 2 + m.
fn closed(s: f64, c: f64) -> [f64; 10] {
    [
        1.0,
        root::root(3.0) * s,
        root::root(3.0) * c,
        root::root(5.0) / 2.0 * (3.0 * s * s - 1.0),
        root::root(15.0) * s * c,
        root::root(15.0) / 2.0 * c * c,
        root::root(7.0) / 2.0 * s * (5.0 * s * s - 3.0),
        root::root(42.0) / 4.0 * c * (5.0 * s * s - 1.0),
        root::root(105.0) / 2.0 * s * c * c,
        root::root(70.0) / 4.0 * c * c * c,
    ]
}

// What the engine gives to degree 3.
fn to_degree_3(lat: f64) -> Result<[f64; 10], Refusal> {
    let mut a = [0.0; 10];
    let mut b = [0.0; 10];
    let mut p = [0.0; 10];
    let mut dp = [0.0; 10];
    let mut scratch = [0.0; 80];
    fields::legendre_new(3, &mut a, &mut b, &mut scratch)?;
    fields::compute_with_derivative(3, &a, &b, lat, &mut p, &mut dp, &mut scratch)?;
    Ok(p)
}

// The function at k. Rounding to 2.2e-16 a few times leaves 1e-14.
fn form(
    t: Tally,
    what: &str,
    k: usize,
    published: [f64; 10],
    ours: Result<[f64; 10], Refusal>,
) -> Tally
    requires { k ≤ 9 }
{
    crate::table::row(t, what, 12, published[k], ours.map(|p| p[k]), 1e-14)
}

fn forms_at(t: Tally, lat: f64) -> Tally {
    let sc = numbers::sine_cosine(lat);
    let q = closed(sc.sine, sc.cosine);
    let ours = to_degree_3(lat);
    let a = form(t, "P(1,0)", 1, q, ours);
    let b = form(a, "P(1,1)", 2, q, ours);
    let c = form(b, "P(2,0)", 3, q, ours);
    let d = form(c, "P(2,1)", 4, q, ours);
    let e = form(d, "P(2,2)", 5, q, ours);
    let f = form(e, "P(3,0)", 6, q, ours);
    let g = form(f, "P(3,1)", 7, q, ours);
    let h = form(g, "P(3,2)", 8, q, ours);
    form(h, "P(3,3)", 9, q, ours)
}

pub fn closed_forms(t: Tally) -> Tally {
    crate::text::say(Heading(
        "Normalised Legendre functions at latitude 30 degrees, closed forms (Heiskanen and Moritz 1967)",
    ));
    let north = forms_at(t, 30.0 * DEGREE);
    crate::text::say(Heading("The same at latitude -65 degrees"));
    forms_at(north, -65.0 * DEGREE)
}

// ---- sums of squares

fn squares(values: &[f64]) -> f64 {
    values.iter().fold(0.0, |sum, x| sum + x * x)
}

// The sum over all orders of degree n: of P(n, m)^2, or of the squares of the derivatives.
fn published_sum(n: f64, derived: bool) -> f64 {
    let whole = 2.0 * n + 1.0;
    if derived {
        whole * (n * (n + 1.0) / 2.0)
    } else {
        whole
    }
}

// kept: `a, b` are two operands here and in two more functions; below they are the tables that document 01's call takes one by one.
// Of two ratios the one farther from 1; a NaN stays.
fn farther(a: f64, b: f64) -> f64 {
    if numbers::magnitude(a - 1.0) < numbers::magnitude(b - 1.0) {
        return b;
    }
    if b.is_nan() { b } else { a }
}

// Of the degrees 1 to 180 the ratio of a table's sum to the published one that lies farthest from 1; NaN where the table is too short.
fn farthest(table: &[f64], derived: bool) -> f64 {
    let mut worst = 1.0;
    let mut degree = 1.0;
    let mut start = 1;
    for n in 1..181 {
        let end = start + n + 1;
        let Some(row) = table.get(start..end) else {
            return f64::NAN;
        };
        worst = farther(worst, squares(row) / published_sum(degree, derived));
        degree += 1.0;
        start = end;
    }
    worst
}

// Two rows at a latitude, in degrees. A recursion of 180 steps, each rounded to 2.2e-16 a few times, leaves 1e-12 near the pole.
fn sums_at(
    t: Tally,
    what: &str,
    tables: Result<(), Refusal>,
    a: &[f64],
    b: &[f64],
    lat: f64,
) -> Tally {
    let mut p = [0.0; 16471];
    let mut dp = [0.0; 16471];
    let mut scratch = [0.0; 131768];
    let computed = fields::compute_with_derivative(
        180,
        a,
        b,
        lat * DEGREE,
        &mut p,
        &mut dp,
        &mut scratch,
    );
    let answer = tables.and(computed);
    let values = answer.map(|()| farthest(&p, false));
    let derivatives = answer.map(|()| farthest(&dp, true));
    let first = crate::table::row(t, what, 14, 1.0, values, 1e-12);
    crate::table::row(first, "  derivatives", 14, 1.0, derivatives, 1e-12)
}

// With the tables of degree 180, o says whether they were filled.
fn sums_with(t: Tally, o: Result<(), Refusal>, a: &[f64], b: &[f64]) -> Tally {
    let c = sums_at(t, "latitude -75", o, a, b, -75.0);
    let d = sums_at(c, "latitude -20", o, a, b, -20.0);
    let e = sums_at(d, "latitude 5", o, a, b, 5.0);
    let f = sums_at(e, "latitude 45", o, a, b, 45.0);
    sums_at(f, "latitude 89", o, a, b, 89.0)
}

pub fn sums(t: Tally) -> Tally {
    let mut a = [0.0; 16471];
    let mut b = [0.0; 16471];
    let mut scratch = [0.0; 131768];
    crate::text::say(Heading(
        "Sum over m of P(n,m)^2 / (2n+1), of P'(n,m)^2 / (n(n+1)(2n+1)/2): of n = 1 to 180 the farthest from 1",
    ));
    let outcome = fields::legendre_new(180, &mut a, &mut b, &mut scratch);
    sums_with(t, outcome, &a, &b)
}
