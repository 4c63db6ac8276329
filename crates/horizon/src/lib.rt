// Document 01, module 9: the horizon, how many entries are final, and those entries of the caller's own list.
#![tactic(auto)]

ghost use Rattle.std.specs.Prelude.{◌≡◌, true};
ghost use Rattle.horizon.specs.Horizon.{final_entries};
ghost use Rattle.horizon.specs.Calls.{counts_within, refusal_of, horizon_call, final_count_call};
ghost use Rattle.horizon.specs.Lent.{given_in};

pub mod kernel;
mod tracks;

use slices::Refusal;
pub use tracks::Tracks;

// Whether there are not too many of each: nodes, states and accelerometer values of both satellites, fields, observations, kept epochs.
// kept: counts one by one, for a caller that has no lists yet.
#[tactic(auto, unfolding(crate::specs::Calls::counts_within))]
pub fn counts_within(
    nodes: usize,
    cstates: usize,
    dstates: usize,
    caccs: usize,
    daccs: usize,
    fields: usize,
    observed: usize,
    kept: usize,
) -> bool
    ensures { result ≡ counts_within nodes cstates dstates caccs daccs fields observed kept }
{
    let times = (nodes <= 64 && fields <= 32) && (observed <= 100000 && kept <= 100000);
    let states = cstates <= 200000 && dstates <= 200000;
    let accs = caccs <= 200000 && daccs <= 200000;
    times && (states && accs)
}

fn refusal(nodes: &[f64], tracks: Tracks<'_>, kept: &[f64]) -> Result<(), Refusal>
    ensures { result ≡ refusal_of true (given_in nodes.now tracks.entry) kept.now }
{
    slices::tested(tracks.are_counted(nodes.len(), kept.len()), Refusal::Count)?;
    slices::tested(tracks.are_fine(nodes, kept), Refusal::Value)?;
    slices::tested(tracks.rise(nodes, kept), Refusal::Order)?;
    Ok(())
}

// The largest node that every list reaches far enough beyond.
pub fn horizon(nodes: &[f64], tracks: Tracks<'_>) -> Result<Option<f64>, Refusal>
    ensures { result ≡ horizon_call (given_in nodes.now tracks.entry) }
{
    refusal(nodes, tracks, &[])?;
    Ok(kernel::horizon(nodes, tracks))
}

// F: how many of the kept epochs at these times no appended data can change.
pub fn final_count(nodes: &[f64], tracks: Tracks<'_>, kept: &[f64]) -> Result<usize, Refusal>
    ensures { result ≡ final_count_call (given_in nodes.now tracks.entry) kept.now }
{
    refusal(nodes, tracks, kept)?;
    Ok(kernel::final_count(kernel::horizon(nodes, tracks), kept))
}

// The first `count` entries of the list that is lent, in their own place; none where it has not so many.
#[tactic(auto, unfolding(crate::specs::Horizon::final_entries))]
pub fn final_entries(list: &[f64], count: usize) -> &[f64]
    ensures result_value { result.now ≡ final_entries list.now count }
    ensures same_place { result.ref_ptr ≡ list.entry.ref_ptr }
{
    if count <= list.len() {
        &list[..count]
    } else {
        &list[..0]
    }
}
