// Module 7 of document 01: the zero-phase band-pass filter. Each call here tests its arguments and its answer; `work` does the work.
#![tactic(auto)]

ghost use Rattle.std.specs.Prelude.{◌≡◌, [], ◌∷◌, length};
ghost use Rattle.slices.specs.Calls.{left};
ghost use Rattle.filter.specs.Filter.{rest, step_of};
ghost use Rattle.filter.specs.Calls.{judged_band, band_call, filter_refusal, handed_out, run_call, filtfilt_call, band_refusal, band_pass_call};

use numbers;
use slices;
use slices::Refusal;

pub mod kernel;
mod work;

// A biquad section, normalised by a0.
#[derive(Clone, Copy)]
pub struct Biquad {
    pub b0: f64,
    pub b1: f64,
    pub b2: f64,
    pub a1: f64,
    pub a2: f64,
}

// What a section remembers: the last two samples in and out.
#[derive(Clone, Copy)]
pub struct BiquadMemory {
    pub x1: f64,
    pub x2: f64,
    pub y1: f64,
    pub y2: f64,
}

#[derive(Clone, Copy)]
pub struct Step {
    pub memory: BiquadMemory,
    pub sample: f64,
}

impl BiquadMemory {
    pub fn new() -> Self
        ensures { result ≡ rest }
    {
        Self {
            x1: 0.0,
            x2: 0.0,
            y1: 0.0,
            y2: 0.0,
        }
    }

    #[tactic(auto, unfolding(crate::specs::Filter::sample_of))]
    pub fn step(self, section: Biquad, v: f64) -> Step
        ensures { result ≡ step_of section self v }
    {
        let y = section.b0 * v + section.b1 * self.x1 + section.b2 * self.x2
            - section.a1 * self.y1
            - section.a2 * self.y2;
        Step {
            memory: BiquadMemory {
                x1: v,
                x2: self.x1,
                y1: y,
                y2: self.y1,
            },
            sample: y,
        }
    }
}

#[tactic(auto, unfolding(crate::specs::Calls::judged_band))]
fn judged(sections: [f64; 20]) -> Result<[f64; 20], Refusal>
    ensures { result ≡ judged_band sections }
{
    if slices::all_finite(&sections) {
        Ok(sections)
    } else {
        Err(Refusal::NotFinite)
    }
}

// The sections of a Butterworth band-pass from `low` to `high` (Hz), for samples dt apart (s): four, five numbers each.
#[tactic(auto, unfolding(crate::specs::Calls::band_call))]
pub fn butterworth_band(low: f64, high: f64, dt: f64) -> Result<[f64; 20], Refusal>
    ensures { result ≡ band_call low high dt }
{
    if numbers::is_finite(low) && (numbers::is_finite(high) && numbers::is_finite(dt)) {
        judged(work::coefficients(low, high, dt))
    } else {
        Err(Refusal::Value)
    }
}

#[tactic(auto, unfolding(crate::specs::Calls::filter_refusal))]
fn filter_refusal(sections: &[f64], x: &[f64], places: usize, room: usize) -> Result<(), Refusal>
    ensures { result ≡ filter_refusal sections.now x.now places room }
{
    let n = x.len();
    let k = sections.len();
    slices::tested(k <= 40, Refusal::Count)?;
    slices::tested(1 <= n, Refusal::Count)?;
    slices::tested(n <= 100000, Refusal::Count)?;
    slices::tested(k % 5 == 0, Refusal::Length)?;
    slices::tested(places == n, Refusal::Length)?;
    slices::tested(8 * n <= room, Refusal::Length)?;
    slices::tested(slices::all_finite(sections), Refusal::Value)?;
    slices::tested(slices::all_finite(x), Refusal::Value)?;
    Ok(())
}

// The numbers worked out, where all are finite; the scratch is cleared.
fn hand_out(out: &mut [f64], scratch: &mut [f64]) -> Result<(), Refusal>
    ensures { left result (out.new ∷ []) scratch.new ≡ handed_out out.old scratch.old }
{
    slices::clear(scratch);
    if slices::all_finite(&out[..]) {
        return Ok(());
    }
    slices::clear(out);
    Err(Refusal::NotFinite)
}

// x through each section, in place.
pub fn run(sections: &[f64], x: &mut [f64], scratch: &mut [f64]) -> Result<(), Refusal>
    ensures { left result (x.new ∷ []) scratch.new ≡ run_call sections.now x.old scratch.old }
{
    filter_refusal(sections, &x[..], x.len(), scratch.len())?;
    work::run_sections(sections, x);
    hand_out(x, scratch)
}

// Forward and backward through the sections, padded oddly.
pub fn filtfilt(
    sections: &[f64],
    x: &[f64],
    pad: usize,
    out: &mut [f64],
    scratch: &mut [f64],
) -> Result<(), Refusal>
    ensures { left result (out.new ∷ []) scratch.new ≡ filtfilt_call sections.now x.now pad out.old
        scratch.old }
{
    filter_refusal(sections, x, out.len(), scratch.len())?;
    slices::copy(x, out);
    work::filtfilt(sections, out, pad, scratch);
    hand_out(out, scratch)
}

#[tactic(auto, unfolding(crate::specs::Calls::band_refusal))]
fn band_refusal(times: &[f64], x: &[f64], places: usize, room: usize) -> Result<(), Refusal>
    ensures { result ≡ band_refusal times.now x.now places room }
{
    let n = times.len();
    slices::tested(n <= 100000, Refusal::Count)?;
    slices::tested(x.len() == n, Refusal::Length)?;
    slices::tested(places == n, Refusal::Length)?;
    slices::tested(8 * n <= room, Refusal::Length)?;
    slices::tested(slices::all_times(times), Refusal::Value)?;
    slices::tested(slices::all_finite(x), Refusal::Value)?;
    slices::tested(slices::rising(times), Refusal::Order)?;
    Ok(())
}

// The band from 1 to 10 mHz of samples 2 s apart, run by run.
pub fn band_pass(
    times: &[f64],
    x: &[f64],
    out: &mut [f64],
    scratch: &mut [f64],
) -> Result<(), Refusal>
    ensures { left result (out.new ∷ []) scratch.new ≡ band_pass_call times.now x.now out.old
        scratch.old }
{
    band_refusal(times, x, out.len(), scratch.len())?;
    slices::copy(x, out);
    work::band_pass(times, out, scratch);
    hand_out(out, scratch)
}
