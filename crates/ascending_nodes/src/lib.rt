// The times at which an orbit crosses the equator northward.
#![tactic(auto)]

mod orbit;

ghost use Rattle.std.specs.Prelude.{◌≡◌, [], ◌∷◌};
ghost use Rattle.slices.specs.Calls.{left, tested};
ghost use Rattle.ascending_nodes.specs.Calls.{nodes_refusal, nodes_call};

use orbit::Orbit;
use slices::Refusal;

#[tactic(auto, unfolding(crate::specs::Calls::nodes_refusal))]
fn nodes_refusal(keys: &[i64], states: &[f64], places: usize) -> Result<(), Refusal>
    ensures { result ≡ nodes_refusal keys.now states.now places }
{
    let n = keys.len();
    slices::tested(n <= 200000, Refusal::Count)?;
    slices::tested(states.len() == 6 * n, Refusal::Length)?;
    slices::tested(places == n, Refusal::Length)?;
    slices::tested(slices::all_keys(keys), Refusal::Value)?;
    slices::tested(slices::all_finite(states), Refusal::Value)?;
    slices::tested(slices::rising_keys(keys), Refusal::Order)?;
    Ok(())
}

// The ascending nodes of the states at the keys, six numbers each.
pub fn ascending_nodes(keys: &[i64], states: &[f64], out: &mut [f64]) -> Result<usize, Refusal>
    ensures { left result (out.new ∷ []) [] ≡ nodes_call keys.now states.now out.old }
{
    nodes_refusal(keys, states, out.len())?;
    let count = Orbit { keys, states }.fill_nodes(out);
    if slices::all_finite(out) {
        return Ok(count);
    }
    slices::clear(out);
    Err(Refusal::NotFinite)
}
