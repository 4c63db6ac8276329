// What the whole path runs, with no tests of the numbers and no bound on their count.
ghost use Rattle.std.specs.Prelude.{◌≡◌, length};
ghost use Rattle.laws.specs.Runs.{runs_of};
ghost use Rattle.filter.specs.Calls.{band_fits, band_passed, long_runs};

#[tactic(auto, unfolding(crate::specs::Calls::band_fits))]
fn fits(times: usize, values: usize, places: usize, room: usize) -> bool
    ensures { result ≡ band_fits times values places room }
{
    times == values && (places == values && values <= room / 3)
}

// Each run of x, passed into out; nothing where a length does not fit.
#[tactic(auto, using(slices::proofs::SliceLoops::copied_all), unfolding(crate::specs::Calls::band_fits, crate::specs::Calls::band_passed))]
pub fn band_pass(times: &[f64], x: &[f64], out: &mut [f64], scratch: &mut [f64])
    ensures { out.new ≡ band_passed times.now x.now out.old (length scratch.old) }
{
    if fits(times.len(), x.len(), out.len(), scratch.len()) {
        slices::copy(x, out);
        crate::work::band_pass(times, out, scratch);
    }
}

// How many runs there are, and how many of them are longer than 64 samples.
#[derive(Clone, Copy)]
pub struct RunCounts {
    pub runs: usize,
    pub long: usize,
}

pub fn count_runs(times: &[f64]) -> RunCounts
    ensures { (result.runs ≡ length (runs_of times.now)) × (result.long ≡ long_runs (runs_of times.now)) }
{
    let mut runs = 0;
    let mut long = 0;
    for run in times.chunk_by(crate::work::goes_on) {
        runs += 1;
        long += usize::from(64 < run.len());
    }
    RunCounts { runs, long }
}
