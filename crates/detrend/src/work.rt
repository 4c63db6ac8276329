// The work on one list of samples. A work area of n samples holds n times, n values and the rows of a fit, six numbers each, one after the other: so n is an
// eighth of its length.
ghost use Rattle.std.specs.Prelude.{◌≡◌, true, ◌+◌, ◌*◌, ◌/◌, ◌-◌, ◌≤◌, ◌<◌, length, drop};
ghost use borrow.Rule.Slice.PartMut.{mid_of, put_mid};
ghost use Rattle.laws.specs.Checks.{rising};
ghost use Rattle.detrend.specs.Fit.{row_of, rows_of, all_zero};
ghost use Rattle.detrend.specs.Revolutions.{count_before};
ghost use Rattle.detrend.specs.Ranges.{ranges_fit};
ghost use Rattle.detrend.specs.Work.{less_rows, Detrended, Window, Removed, DetrendedAll};

use crate::Parts;
use std::f64::consts::PI;

// A bias, a trend, and cosines and sines of one and two turns a revolution.
#[tactic(auto, using(slices::proofs::SliceLoops::copied_all), unfolding(crate::specs::Fit::row_of, numbers::specs::Numbers::sine_cosine))]
fn write_row(row: &mut [f64], t: f64, start: f64, period: f64)
    requires { length row.old ≡ 6 }
    ensures { row.new ≡ row_of start period t }
{
    let since = t - start;
    let angle = 2.0 * PI * since / period;
    let once = numbers::sine_cosine(angle);
    let twice = numbers::sine_cosine(2.0 * angle);
    slices::copy(
        &[
            1.0,
            since / period,
            once.cosine,
            once.sine,
            twice.cosine,
            twice.sine,
        ],
        row,
    );
}

// The rows of the count times from `from` on, written from `to` on.
fn fill_rows(s: &mut [f64], from: usize, count: usize, to: usize, start: f64, period: f64)
    requires { (from + count ≤ to) × (to + 6 * count ≤ length s.old) }
    ensures { s.new ≡ put_mid to (6 * count) s.old (rows_of start period (mid_of from count s.old)) }
{
    for i in 0..count {
        let at = to + 6 * i;
        let t = s[from + i];
        write_row(&mut s[at..at + 6], t, start, period);
    }
}

#[tactic(auto, unfolding(crate::specs::Fit::all_zero))]
fn all_zero(values: &[f64]) -> bool
    ensures { result ≡ all_zero values.now }
{
    values.iter().all(|v| *v == 0.0)
}

// The count values from `from` on, each less what its row, from `rows` on, gives.
fn subtract_fit(s: &mut [f64], from: usize, count: usize, rows: usize, beta: &[f64])
    requires { (from + count ≤ rows) × (rows + 6 * count ≤ length s.old) × (length beta.now ≡ 6) }
    ensures { s.new ≡ put_mid from count s.old
        (less_rows beta.now (mid_of rows (6 * count) s.old) (mid_of from count s.old)) }
{
    for i in 0..count {
        let at = rows + 6 * i;
        let v = least_squares::fitted(&s[at..at + 6], beta);
        let k = from + i;
        s[k] = s[k] - v;
    }
}

// The count samples of a work area from the one at `first` on, detrended as one revolution.
fn detrend_part(s: &mut [f64], first: usize, count: usize, start: f64, period: f64)
    requires { first + count ≤ length s.old / 8 }
    ensures { Detrended (length s.old / 8) first count start period s.old s.new }
{
    let n = s.len() / 8;
    let from = n + first;
    let end = from + count;
    if all_zero(&s[from..end]) {
        return;
    }
    let rows = n + n;
    let last = rows + 6 * count;
    fill_rows(s, first, count, rows, start, period);
    if let Some(beta) = least_squares::kernel::estimate::<6>(&s[rows..last], &s[from..end]) {
        subtract_fit(s, from, count, rows, &beta);
    }
}

// Where the times from `first` on reach b. A step for each time, as the walk over a list's nodes goes over its times once.
fn count_from(times: &[f64], first: usize, b: f64) -> usize
    requires { first ≤ length times.now }
    ensures { (result ≡ first + count_before b (drop first times.now)) × (first ≤ result) × (result ≤ length times.now) }
{
    for i in first..times.len() {
        if !(times[i] < b) {
            return i;
        }
    }
    times.len()
}

// The revolution from node a to node b, whose samples begin at `first`: detrended where it has 50. Where the next begins.
#[tactic(auto, using(crate::proofs::RevolutionWalk::window_long, crate::proofs::RevolutionWalk::window_short))]
fn window(s: &mut [f64], first: usize, a: f64, b: f64) -> usize
    requires { first ≤ length s.old / 8 }
    ensures { Window (length s.old / 8) first a b s.old result s.new }
{
    let n = s.len() / 8;
    let end = count_from(&s[0..n], first, b);
    let count = end - first;
    if 50 <= count {
        detrend_part(s, first, count, a, b - a);
    }
    end
}

// Each revolution in turn, from node to node.
pub fn remove_all(s: &mut [f64], nodes: &[f64])
    requires { 0 < length nodes.now }
    ensures { Removed (length s.old / 8) nodes.now s.old s.new }
{
    let n = s.len() / 8;
    let mut first = count_from(&s[0..n], 0, nodes[0]);
    for k in 1..nodes.len() {
        first = window(s, first, nodes[k - 1], nodes[k]);
    }
}

// Each part in turn, detrended as one revolution.
pub fn detrend_all(s: &mut [f64], parts: Parts<'_>)
    requires { (length parts.ends.now ≡ length parts.firsts.now) × (length parts.starts.now ≡ length parts.firsts.now)
        × (length parts.periods.now ≡ length parts.firsts.now) × (ranges_fit parts.firsts.now parts.ends.now (length s.old / 8) ≡ true) }
    ensures { DetrendedAll (length s.old / 8) parts.entry.firsts.now parts.entry.ends.now parts.entry.starts.now
        parts.entry.periods.now s.old s.new }
{
    for k in 0..parts.firsts.len() {
        let first = parts.firsts[k];
        let count = parts.ends[k] - first;
        detrend_part(s, first, count, parts.starts[k], parts.periods[k]);
    }
}

// How many of the rising times lie before b, by halving.
pub fn count_before(times: &[f64], b: f64) -> usize
    requires { rising times.now ≡ true }
    ensures { (result ≡ count_before b times.now) × (result ≤ length times.now) }
{
    times.partition_point(|t| *t < b)
}
