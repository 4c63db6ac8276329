// The horizon and the final count of lists that have passed the tests of a submission.
ghost use Rattle.std.specs.Prelude.{◌≡◌, ◌+◌, ◌<◌, length};
ghost use Rattle.finality.specs.Sheet.{horizon_of, count_to, count as count_of};
ghost use Rattle.horizon.specs.Horizon.{end_at, counted as counted_by};
ghost use Rattle.horizon.specs.Lent.{ends_in};

use crate::Tracks;

// The largest node that every list reaches far enough beyond, the nodes being in order.
pub fn horizon(nodes: &[f64], tracks: Tracks<'_>) -> Option<f64>
    ensures { result ≡ horizon_of (ends_in tracks.entry) nodes.now }
{
    for z in nodes.iter().rev() {
        if tracks.reach_beyond(*z) {
            return Some(*z);
        }
    }
    None
}

// The last epoch of the run in which epoch i stands, from that of the next epoch's run.
fn run_last(times: &[f64], i: usize, last: f64) -> f64
    requires { i < length times.now }
    ensures { (i + 1 < length times.now → last ≡ end_at times.now (i + 1)) → result ≡ end_at times.now i }
{
    let next = i + 1;
    if next < times.len() && !(times[next] - times[i] > 3.0) {
        return last;
    }
    times[i]
}

// One epoch more, where its run ends more than 3.0 s before z.
#[tactic(auto, unfolding(crate::specs::Horizon::counted, laws::specs::Runs::splits))]
fn counted(last: f64, z: f64, count: usize) -> usize
    requires { count < 18446744073709551615 }
    ensures { result ≡ counted_by last z count }
{
    if z - last > 3.0 { count + 1 } else { count }
}

// How many of the times stand in a run that ends more than 3.0 s before z, counted from the last to the first.
fn count_before(times: &[f64], z: f64) -> usize
    ensures { result ≡ count_of z times.now }
{
    let mut last = z;
    let mut count = 0;
    for i in (0..times.len()).rev() {
        last = run_last(times, i, last);
        count = counted(last, z, count);
    }
    count
}

// F: how many of the kept epochs at these times no appended data can change.
pub fn final_count(horizon: Option<f64>, times: &[f64]) -> usize
    ensures { result ≡ count_to horizon times.now }
{
    match horizon {
        Some(z) => count_before(times, z),
        None => 0,
    }
}
