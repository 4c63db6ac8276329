// The sections of `butterworth_band` at their corners and off them: a Butterworth filter of order n passes the power 1 / (1 + x^2n), one half at its corner
// (S. Butterworth, Experimental Wireless 7, 1930), where the bilinear transform of the RBJ cookbook makes x the ratio of tan(w / 2) to that of the corner.
ghost use Rattle.std.specs.Prelude.{◌≤◌};

use crate::table::{Heading, Tally};
use slices::Refusal;
use std::f64::consts::PI;

// Where each side's two sections begin.
const HIGH_PASS: usize = 0;

const LOW_PASS: usize = 10;

// |b0 + b1/z + b2/z²|² at z = e^iw.
fn trinomial(b0: f64, b1: f64, b2: f64, w: f64) -> f64 {
    let one = numbers::sine_cosine(w);
    let two = numbers::sine_cosine(2.0 * w);
    let re = b0 + b1 * one.cosine + b2 * two.cosine;
    let im = b1 * one.sine + b2 * two.sine;
    re * re + im * im
}

// The power that the section at k passes at the angular frequency w.
fn section_power(s: [f64; 20], k: usize, w: f64) -> f64
    requires { k ≤ 15 }
{
    trinomial(s[k], s[k + 1], s[k + 2], w) / trinomial(1.0, s[k + 3], s[k + 4], w)
}

fn half_tangent(w: f64) -> f64 {
    let half = numbers::sine_cosine(w / 2.0);
    half.sine / half.cosine
}

// The power that order 4 passes.
fn butterworth(x: f64) -> f64 {
    1.0 / (1.0 + numbers::power(x, 8))
}

// The power that the two sections from k on pass.
fn side_power(s: [f64; 20], k: usize, w: f64) -> f64
    requires { k ≤ 10 }
{
    section_power(s, k, w) * section_power(s, k + 5, w)
}

// A section's sums cancel to (2 pi f dt)^2, at least 3.9e-5 here, so that some roundings of 2.2e-16 leave 1e-10.
fn power_row(t: Tally, what: &str, published: f64, ours: Result<f64, Refusal>) -> Tally {
    crate::table::row(t, what, 12, published, ours, 1e-10)
}

// Each side of a design from low to high (Hz), for samples dt apart (s): at its corner, and an octave away.
fn design(t: Tally, low: f64, high: f64, dt: f64) -> Tally {
    let band = filter::butterworth_band(low, high, dt);
    let rise = 2.0 * PI * low * dt;
    let fall = 2.0 * PI * high * dt;
    let below = butterworth(half_tangent(rise) / half_tangent(rise / 2.0));
    let above = butterworth(half_tangent(2.0 * fall) / half_tangent(fall));
    let at_rise = band.map(|s| side_power(s, HIGH_PASS, rise));
    let off_rise = band.map(|s| side_power(s, HIGH_PASS, rise / 2.0));
    let at_fall = band.map(|s| side_power(s, LOW_PASS, fall));
    let off_fall = band.map(|s| side_power(s, LOW_PASS, 2.0 * fall));
    let a = power_row(t, "low corner", 0.5, at_rise);
    let b = power_row(a, "half the low corner", below, off_rise);
    let c = power_row(b, "high corner", 0.5, at_fall);
    power_row(c, "twice the high corner", above, off_fall)
}

pub fn group(t: Tally) -> Tally {
    crate::text::say(Heading(
        "Power passed by the band of 1 to 10 mHz, samples 2 s apart (Butterworth 1930; RBJ cookbook)",
    ));
    let a = design(t, 1e-3, 10e-3, 2.0);
    crate::text::say(Heading("The same for 0.5 to 20 mHz, samples 5 s apart"));
    let b = design(a, 0.5e-3, 20e-3, 5.0);
    crate::text::say(Heading("The same for 3 to 50 mHz, samples 1 s apart"));
    design(b, 3e-3, 50e-3, 1.0)
}
