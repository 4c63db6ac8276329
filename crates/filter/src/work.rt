// The filter's work on lent slices whose lengths fit.
ghost use Rattle.std.specs.Prelude.{◌≡◌, not, [], ◌∷◌, reverse, ℕ, ◌+◌, ◌-◌, ◌≤◌, ◌<◌, min, length, take, drop, get_or};
ghost use Rattle.std.specs.Float.{nan};
ghost use Rattle.laws.specs.Runs.{splits, passed};
ghost use Rattle.filter.specs.Sections.{quality as quality_of, section as section_of, high_pass, low_pass, butterworth};
ghost use Rattle.filter.specs.Sections.{coefficients as coefficients_of, sections_of};
ghost use Rattle.filter.specs.Filter.{rest, through_one, through, reflected, padded, both_ways, filtfilt as filtfilt_of, pass_by, band_pass};

use crate::{Biquad, BiquadMemory};
use numbers;
use slices;
use std::f64::consts::PI;

#[tactic(auto, unfolding(crate::specs::Sections::quality))]
fn quality(angle: f64) -> f64
    ensures { result ≡ quality_of angle }
{
    1.0 / (2.0 * numbers::cosine(angle))
}

// The section whose numerator is b0, b1, b0.
#[tactic(auto, unfolding(crate::specs::Sections::section))]
fn section(b0: f64, b1: f64, w: f64, q: f64) -> Biquad
    ensures { result ≡ section_of b0 b1 w q }
{
    let alpha = numbers::sine(w) / (2.0 * q);
    let a0 = 1.0 + alpha;
    Biquad {
        b0: b0 / a0,
        b1: b1 / a0,
        b2: b0 / a0,
        a1: -2.0 * numbers::cosine(w) / a0,
        a2: (1.0 - alpha) / a0,
    }
}

fn high_pass(w: f64, q: f64) -> Biquad
    ensures { result ≡ high_pass w q }
{
    let b = 1.0 + numbers::cosine(w);
    section(b / 2.0, -b, w, q)
}

fn low_pass(w: f64, q: f64) -> Biquad
    ensures { result ≡ low_pass w q }
{
    let b = 1.0 - numbers::cosine(w);
    section(b / 2.0, b, w, q)
}

fn flat(a: Biquad, b: Biquad, c: Biquad, d: Biquad) -> [f64; 20]
    ensures { result ≡ coefficients_of (a ∷ b ∷ c ∷ d ∷ []) }
{
    [
        a.b0, a.b1, a.b2, a.a1, a.a2, b.b0, b.b1, b.b2, b.a1, b.a2, c.b0, c.b1, c.b2, c.a1, c.a2,
        d.b0, d.b1, d.b2, d.a1, d.a2,
    ]
}

// The sections of a Butterworth band-pass, five numbers each.
pub fn coefficients(low: f64, high: f64, dt: f64) -> [f64; 20]
    ensures { result ≡ coefficients_of (butterworth low high dt) }
{
    let first = quality(PI / 8.0);
    let second = quality(3.0 * PI / 8.0);
    let rise = 2.0 * PI * low * dt;
    let fall = 2.0 * PI * high * dt;
    flat(
        high_pass(rise, first),
        high_pass(rise, second),
        low_pass(fall, first),
        low_pass(fall, second),
    )
}

fn run_section(section: Biquad, x: &mut [f64])
    ensures { x.new ≡ through_one section rest x.old }
{
    let mut m = BiquadMemory::new();
    for v in x.iter_mut() {
        let s = m.step(section, *v);
        m = s.memory;
        *v = s.sample;
    }
}

// Four sections in one pass, so that their steps overlap.
fn run_four(a: Biquad, b: Biquad, c: Biquad, d: Biquad, x: &mut [f64])
    ensures { x.new ≡ through (a ∷ b ∷ c ∷ d ∷ []) x.old }
{
    let mut k = BiquadMemory::new();
    let mut l = k;
    let mut m = k;
    let mut n = k;
    for v in x.iter_mut() {
        let first = k.step(a, *v);
        let second = l.step(b, first.sample);
        let third = m.step(c, second.sample);
        let fourth = n.step(d, third.sample);
        k = first.memory;
        l = second.memory;
        m = third.memory;
        n = fourth.memory;
        *v = fourth.sample;
    }
}

// The section whose five numbers stand from `at` on.
fn section_at(sections: &[f64], at: usize) -> Biquad
    requires { at + 5 ≤ length sections.now }
    ensures { sections_of (drop at sections.now) ≡ result ∷ sections_of (drop (at + 5) sections.now) }
{
    Biquad {
        b0: sections[at],
        b1: sections[at + 1],
        b2: sections[at + 2],
        a1: sections[at + 3],
        a2: sections[at + 4],
    }
}

// Each section of a flat list of coefficients, five to a section, over all of x.
pub fn run_sections(sections: &[f64], x: &mut [f64])
    ensures { x.new ≡ through (sections_of sections.now) x.old }
{
    let fours = sections.len() / 20;
    for k in 0..fours {
        let at = 20 * k;
        let a = section_at(sections, at);
        let b = section_at(sections, at + 5);
        let c = section_at(sections, at + 10);
        let d = section_at(sections, at + 15);
        run_four(a, b, c, d, x);
    }
    for k in 4 * fours..sections.len() / 5 {
        run_section(section_at(sections, 5 * k), x);
    }
}

// Twice x[about] minus each of the values before x[end], from the last of them back.
fn reflect(x: &[f64], about: usize, end: usize, out: &mut [f64])
    requires { (about < length x.now) × (length out.old ≤ end) × (end ≤ length x.now) }
    ensures { out.new ≡ reflected (get_or x.now about nan)
        (reverse (take (length out.old) (drop (end - length out.old) x.now))) }
{
    let v = 2.0 * x[about];
    for k in 0..out.len() {
        out[k] = v - x[end - 1 - k];
    }
}

// x, padded oddly by p at both ends, into y.
fn pad_oddly(x: &[f64], p: usize, y: &mut [f64])
    requires { (p < length x.now) × (length y.old ≡ p + (length x.now + p)) }
    ensures { y.new ≡ padded p x.now }
{
    let n = x.len();
    let m = p + n;
    reflect(x, 0, p + 1, &mut y[0..p]);
    slices::copy(x, &mut y[p..m]);
    reflect(x, n - 1, n - 1, &mut y[m..]);
}

// x forward and backward, in its place; y holds it padded by p.
fn both_ways(sections: &[f64], x: &mut [f64], p: usize, y: &mut [f64])
    requires { (p < length x.old) × (length y.old ≡ p + (length x.old + p)) }
    ensures { x.new ≡ both_ways (sections_of sections.now) p x.old }
{
    let m = p + x.len();
    pad_oddly(x, p, y);
    run_sections(sections, y);
    slices::reverse(y);
    run_sections(sections, y);
    slices::reverse(y);
    slices::copy(&y[p..m], x);
}

// By how much a list of n samples is padded.
fn padding(n: usize, pad: usize) -> usize
    requires { 0 < n }
    ensures { (result ≡ min pad (n - 1)) × (result < n) }
{
    if n - 1 < pad { n - 1 } else { pad }
}

// x forward and backward, in its place, padded by `pad` or by all its values but one.
// kept: `length x.old + length x.old + length x.old ≤ length scratch.old` here and below: a struct of both would be made anew for each run, with the same line.
pub fn filtfilt(sections: &[f64], x: &mut [f64], pad: usize, scratch: &mut [f64])
    requires { (0 < length x.old) × (length x.old + length x.old + length x.old ≤ length scratch.old) }
    ensures { x.new ≡ filtfilt_of (sections_of sections.now) pad x.old }
{
    let n = x.len();
    let p = padding(n, pad);
    let e = p + (n + p);
    both_ways(sections, x, p, &mut scratch[0..e]);
}

// One run: 64 samples or fewer give +0.0.
#[tactic(auto, using(crate::proofs::Turns::pass_long, crate::proofs::Turns::cleared_short))]
fn pass_run(sections: &[f64], x: &mut [f64], scratch: &mut [f64])
    requires { length x.old + length x.old + length x.old ≤ length scratch.old }
    ensures { x.new ≡ pass_by (sections_of sections.now) x.old }
{
    if 64 < x.len() {
        filtfilt(sections, x, 1500, scratch);
    } else {
        slices::clear(x);
    }
}

// Whether the run of t goes on to u, the time after it.
#[tactic(auto, unfolding(laws::specs::Runs::splits))]
pub fn goes_on(t: &f64, u: &f64) -> bool
    ensures { result ≡ not (splits t.now u.now) }
{
    !(*u - *t > 3.0)
}

fn pass_runs(sections: &[f64], times: &[f64], x: &mut [f64], scratch: &mut [f64])
    requires { (length times.now ≡ length x.old) × (length x.old + length x.old + length x.old ≤ length scratch.old) }
    ensures { x.new ≡ passed (pass_by (sections_of sections.now)) times.now x.old }
{
    // kept: the start is counted, since the samples of a run lie in another list than its times
    let mut start = 0;
    for run in times.chunk_by(goes_on) {
        let end = start + run.len();
        pass_run(sections, &mut x[start..end], scratch);
        start = end;
    }
}

// The band from 1 to 10 mHz of samples 2 s apart, in their place.
pub fn band_pass(times: &[f64], x: &mut [f64], scratch: &mut [f64])
    requires { (length times.now ≡ length x.old) × (length x.old + length x.old + length x.old ≤ length scratch.old) }
    ensures { x.new ≡ band_pass times.now x.old }
{
    let sections = coefficients(1e-3, 10e-3, 2.0);
    pass_runs(&sections, times, x, scratch);
}
