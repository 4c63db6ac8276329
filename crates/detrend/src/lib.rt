// Detrending by revolutions.
#![tactic(auto)]

pub mod kernel;
mod parts;
mod work;

ghost use Rattle.std.specs.Prelude.{◌≡◌, true, [], ◌∷◌, ◌*◌, ◌≤◌, ◌-◌, ◌<◌, length};
ghost use Rattle.laws.specs.Checks.{rising};
ghost use Rattle.slices.specs.Calls.{first_failed, left};
ghost use Rattle.detrend.specs.Revolutions.{detrended_of};
ghost use Rattle.detrend.specs.Ranges.{ranges_fit};
ghost use Rattle.detrend.specs.Calls.{detrend_numbers, detrend_refusal, detrend_call, revolutions_refusal, Listed, listed, revolutions_call};

pub use parts::Parts;
use slices::Refusal;

// Times and values go into the scratch, and the values come back.
fn detrend_in(times: &[f64], values: &mut [f64], parts: Parts<'_>, scratch: &mut [f64])
    requires { (length times.now ≡ length values.old) × (8 * length values.old ≤ length scratch.old) × (length parts.ends.now ≡ length parts.firsts.now)
        × (length parts.starts.now ≡ length parts.firsts.now) × (length parts.periods.now ≡ length parts.firsts.now)
        × (ranges_fit parts.firsts.now parts.ends.now (length times.now) ≡ true) }
    ensures { values.new ≡ detrended_of parts.entry.firsts.now parts.entry.ends.now parts.entry.starts.now
        parts.entry.periods.now times.now values.old }
{
    let n = times.len();
    let m = n + n;
    let area = &mut scratch[0..8 * n];
    slices::copy(times, &mut area[0..n]);
    slices::copy(values, &mut area[n..m]);
    work::detrend_all(area, parts);
    slices::copy(&area[n..m], values);
}

#[tactic(auto, unfolding(crate::specs::Calls::detrend_numbers))]
fn detrend_numbers(
    times: &[f64],
    values: &[f64],
    starts: &[f64],
    periods: &[f64],
) -> Result<(), Refusal>
    ensures { result ≡ first_failed (detrend_numbers times.now values.now starts.now periods.now) }
{
    slices::tested(slices::all_times(times), Refusal::Value)?;
    slices::tested(slices::all_finite(values), Refusal::Value)?;
    slices::tested(slices::all_times(starts), Refusal::Value)?;
    slices::tested(slices::all_finite(periods), Refusal::Value)?;
    slices::tested(slices::rising(times), Refusal::Order)?;
    slices::tested(slices::rising(starts), Refusal::Order)?;
    Ok(())
}

#[tactic(auto, unfolding(crate::specs::Calls::detrend_refusal))]
fn detrend_refusal(
    times: &[f64],
    values: &[f64],
    parts: Parts<'_>,
    room: usize,
) -> Result<(), Refusal>
    ensures { result ≡ detrend_refusal times.now values.now parts.entry.firsts.now parts.entry.ends.now
        parts.entry.starts.now parts.entry.periods.now room }
{
    let n = times.len();
    let k = parts.firsts.len();
    slices::tested(n <= 100000, Refusal::Count)?;
    slices::tested(parts.starts.len() <= 63, Refusal::Count)?;
    slices::tested(parts.all_fit(n), Refusal::Count)?;
    slices::tested(values.len() == n, Refusal::Length)?;
    slices::tested(parts.ends.len() == k, Refusal::Length)?;
    slices::tested(parts.starts.len() == k, Refusal::Length)?;
    slices::tested(parts.periods.len() == k, Refusal::Length)?;
    slices::tested(8 * n <= room, Refusal::Length)?;
    detrend_numbers(times, values, parts.starts, parts.periods)
}

// The values of each revolution less a bias, a trend and the waves of one and two turns, by least squares.
pub fn detrend(
    times: &[f64],
    values: &mut [f64],
    parts: Parts<'_>,
    scratch: &mut [f64],
) -> Result<(), Refusal>
    ensures { left result (values.new ∷ []) scratch.new ≡ detrend_call times.now values.old
        parts.entry.firsts.now parts.entry.ends.now parts.entry.starts.now parts.entry.periods.now
        scratch.old }
{
    detrend_refusal(times, values, parts, scratch.len())?;
    detrend_in(times, values, parts, scratch);
    slices::clear(scratch);
    if slices::all_finite(values) {
        return Ok(());
    }
    slices::clear(values);
    Err(Refusal::NotFinite)
}

// kept: here and in `revolutions` the four outputs are lent one by one: a struct of them would be made for this function alone, whose contract and loop would
// have to promise of each field that it is still the same reference (its ghost name).
// The revolutions of 50 epochs or more go to the heads of the four lists, zeros behind them; how many there are.
fn list_revolutions(
    times: &[f64],
    nodes: &[f64],
    firsts: &mut [usize],
    ends: &mut [usize],
    starts: &mut [f64],
    periods: &mut [f64],
) -> usize
    requires { (rising times.now ≡ true) × (length firsts.old ≡ length nodes.now - 1) × (length ends.old ≡ length nodes.now - 1)
        × (length starts.old ≡ length nodes.now - 1) × (length periods.old ≡ length nodes.now - 1) }
    ensures { Listed times.now nodes.now result firsts.new ends.new starts.new periods.new }
{
    firsts.fill(0);
    ends.fill(0);
    slices::clear(starts);
    slices::clear(periods);
    let mut count = 0;
    for k in 0..nodes.len().saturating_sub(1) {
        let a = nodes[k];
        let b = nodes[k + 1];
        let first = work::count_before(times, a);
        let end = work::count_before(times, b);
        if first + 50 <= end {
            firsts[count] = first;
            ends[count] = end;
            starts[count] = a;
            periods[count] = b - a;
            count += 1;
        }
    }
    count
}

#[tactic(auto, unfolding(crate::specs::Calls::revolutions_refusal))]
fn revolutions_refusal(
    times: &[f64],
    nodes: &[f64],
    firsts: usize,
    ends: usize,
    starts: usize,
    periods: usize,
) -> Result<(), Refusal>
    ensures { result ≡ revolutions_refusal times.now nodes.now firsts ends starts periods }
{
    let k = nodes.len().saturating_sub(1);
    slices::tested(times.len() <= 100000, Refusal::Count)?;
    slices::tested(nodes.len() <= 64, Refusal::Count)?;
    slices::tested(firsts == k, Refusal::Length)?;
    slices::tested(ends == k, Refusal::Length)?;
    slices::tested(starts == k, Refusal::Length)?;
    slices::tested(periods == k, Refusal::Length)?;
    slices::tested(slices::all_times(times), Refusal::Value)?;
    slices::tested(slices::all_times(nodes), Refusal::Value)?;
    slices::tested(slices::rising(times), Refusal::Order)?;
    slices::tested(slices::rising(nodes), Refusal::Order)?;
    Ok(())
}

// The ranges, starts and periods of the revolutions between neighbouring nodes.
pub fn revolutions(
    times: &[f64],
    nodes: &[f64],
    firsts: &mut [usize],
    ends: &mut [usize],
    starts: &mut [f64],
    periods: &mut [f64],
) -> Result<usize, Refusal>
    ensures { listed result firsts.new ends.new starts.new periods.new ≡ revolutions_call times.now
        nodes.now firsts.old ends.old starts.old periods.old }
{
    revolutions_refusal(
        times,
        nodes,
        firsts.len(),
        ends.len(),
        starts.len(),
        periods.len(),
    )?;
    Ok(list_revolutions(times, nodes, firsts, ends, starts, periods))
}
