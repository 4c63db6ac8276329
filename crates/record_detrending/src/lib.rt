// Detrending of a list of epoch records: times and residuals go into the scratch, are detrended there, and the residuals come back.
#![tactic(auto)]

ghost use Rattle.std.specs.Prelude.{◌≡◌, ◌+◌, ◌*◌, ◌≤◌, ◌<◌, length, take};
ghost use borrow.Rule.Slice.PartMut.{mid_of};
ghost use Rattle.epoch_record.specs.EpochRecord.{epoch_fits, put_back};
ghost use Rattle.std.specs.List.{list_all};
ghost use Rattle.laws.specs.Checks.{rising as rising_of};
ghost use Rattle.epoch_record.specs.EpochRecord.{times_of};
ghost use Rattle.record_detrending.specs.Records.{read_into, settled_of};
ghost use Rattle.record_detrending.specs.Calls.{remove_refusal, left_records, handed_records, remove_call};

use epoch_record::Epoch;
use slices::Refusal;

#[tactic(auto, unfolding(epoch_record::specs::EpochRecord::epoch_fits))]
fn epoch_fits(e: Epoch) -> bool
    ensures { result ≡ epoch_fits e }
{
    let places = slices::all_finite(&e.mid) && slices::all_finite(&e.vel);
    let numbers = slices::all_finite(&e.terms) && places;
    slices::is_time(e.t) && (numbers::is_finite(e.residual) && numbers)
}

fn all_fit(epochs: &[Epoch]) -> bool
    ensures { result ≡ list_all epoch_fits epochs.now }
{
    epochs.iter().all(|e| epoch_fits(*e))
}

// Each time below the next.
fn rising(epochs: &[Epoch]) -> bool
    ensures { result ≡ rising_of (times_of epochs.now) }
{
    epochs.is_sorted_by(|a, b| a.t < b.t)
}

#[tactic(auto, unfolding(crate::specs::Calls::remove_refusal))]
fn refusal(epochs: &[Epoch], nodes: &[f64], room: usize) -> Result<(), Refusal>
    ensures { result ≡ remove_refusal epochs.now nodes.now room }
{
    slices::tested(epochs.len() <= 100000, Refusal::Count)?;
    slices::tested(nodes.len() <= 64, Refusal::Count)?;
    slices::tested(epochs.len() <= room / 8, Refusal::Length)?;
    slices::tested(all_fit(epochs), Refusal::Value)?;
    slices::tested(slices::all_times(nodes), Refusal::Value)?;
    slices::tested(rising(epochs), Refusal::Order)?;
    slices::tested(slices::rising(nodes), Refusal::Order)?;
    Ok(())
}

// Times from place 0 on, residuals behind them.
fn read(epochs: &[Epoch], work: &mut [f64])
    requires { length epochs.now + length epochs.now ≤ length work.old }
    ensures { work.new ≡ read_into epochs.now work.old }
{
    let n = epochs.len();
    for i in 0..n {
        work[i] = epochs[i].t;
        work[n + i] = epochs[i].residual;
    }
}

// The n numbers from n on, in the places of the first n.
fn lower(work: &mut [f64], n: usize)
    requires { n + n ≤ length work.old }
    ensures { take n work.new ≡ mid_of n n work.old }
{
    let (front, back) = work.split_at_mut(n);
    front.copy_from_slice(&back[0..n]);
}

// The detrended values come to the head of the work area, +0.0 behind them; +0.0 throughout where one is not finite.
fn settle(work: &mut [f64], n: usize, nodes: &[f64]) -> Result<(), Refusal>
    requires { 8 * n ≤ length work.old }
    ensures { (result ≡ (settled_of nodes.now n work.old).answer) ×
        (work.new ≡ (settled_of nodes.now n work.old).work) }
{
    detrend::kernel::remove_within(work, n, nodes);
    let m = n + n;
    if slices::all_finite(&work[n..m]) {
        lower(work, n);
        let end = work.len();
        slices::clear(&mut work[n..end]);
        return Ok(());
    }
    slices::clear(work);
    Err(Refusal::NotFinite)
}

#[tactic(auto, using(crate::proofs::PuttingBack::put_upto_done))]
fn put_back(epochs: &mut [Epoch], values: &[f64])
    requires { length epochs.old ≤ length values.now }
    ensures { epochs.new ≡ put_back epochs.old values.now }
{
    for i in 0..epochs.len() {
        epochs[i].residual = values[i];
    }
}

fn remove_in(epochs: &mut [Epoch], nodes: &[f64], scratch: &mut [f64]) -> Result<(), Refusal>
    requires { 8 * length epochs.old ≤ length scratch.old }
    ensures { left_records result epochs.new scratch.new ≡ handed_records epochs.old nodes.now
        scratch.old }
{
    read(epochs, scratch);
    let answer = settle(scratch, epochs.len(), nodes);
    put_back(epochs, scratch);
    slices::clear(scratch);
    answer
}

// Each revolution's fit removed from the residuals of the records.
#[tactic(auto, unfolding(crate::specs::Calls::remove_call))]
pub fn remove_per_revolution(
    epochs: &mut [Epoch],
    nodes: &[f64],
    scratch: &mut [f64],
) -> Result<(), Refusal>
    ensures { left_records result epochs.new scratch.new ≡ remove_call epochs.old nodes.now scratch.old }
{
    refusal(epochs, nodes, scratch.len())?;
    remove_in(epochs, nodes, scratch)
}
