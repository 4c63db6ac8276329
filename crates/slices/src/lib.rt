// What every public call shares: why one is refused, what is tested of lent slices, and what is done to them.
#![tactic(auto)]

ghost use Rattle.std.specs.Prelude.{◌≡◌, true, reverse as reversed};
ghost use Rattle.std.specs.Float.Ieee.Scale.{finite};
ghost use Rattle.std.specs.List.{list_all};
ghost use Rattle.laws.specs.Checks.{is_key, is_time, rising as rising_of, rising_seconds};
ghost use Rattle.laws.specs.Loops.{cleared};
ghost use Rattle.slices.specs.Calls.{tested as tested_of};
ghost use Rattle.slices.specs.Slices.{copied, lookup};

mod refusal;

pub use refusal::Refusal;

// Accepted where the test is passed.
pub fn tested<E: Copy>(passes: bool, error: E) -> Result<(), E>
    ensures { result ≡ tested_of passes error }
{
    if passes { Ok(()) } else { Err(error) }
}

// +0.0 in each place.
pub fn clear(a: &mut [f64])
    ensures { a.new ≡ cleared a.old }
{
    a.fill(0.0);
}

// x goes into out, where it is as long.
// kept: a loop, which is compiled to `memcpy`; with `copy_from_slice` the archive for C would need `memmove` too. Other lengths change nothing, since a function
// that other crates can call asks for nothing.
#[tactic(auto, unfolding(crate::specs::Slices::copied))]
pub fn copy(x: &[f64], out: &mut [f64])
    ensures { out.new ≡ copied x.now out.old }
{
    if out.len() == x.len() {
        for k in 0..x.len() {
            out[k] = x[k];
        }
    }
}

pub fn reverse(a: &mut [f64])
    ensures { a.new ≡ reversed a.old }
{
    a.reverse();
}

pub fn all_finite(x: &[f64]) -> bool
    ensures { result ≡ list_all finite x.now }
{
    x.iter().all(|v| numbers::is_finite(*v))
}

// From 0 to 2^31, both included.
#[tactic(auto, unfolding(laws::specs::Checks::is_time))]
pub fn is_time(t: f64) -> bool
    ensures { result ≡ is_time t }
{
    0.0 <= t && t <= 2147483648.0
}

pub fn all_times(x: &[f64]) -> bool
    ensures { result ≡ list_all is_time x.now }
{
    x.iter().all(|t| is_time(*t))
}

// From 0 to 2^31, both included.
#[tactic(auto, unfolding(laws::specs::Checks::is_key))]
pub fn is_key(k: i64) -> bool
    ensures { result ≡ is_key k }
{
    0 <= k && k <= 2147483648
}

pub fn all_keys(keys: &[i64]) -> bool
    ensures { result ≡ list_all is_key keys.now }
{
    keys.iter().all(|k| is_key(*k))
}

// Each below the next.
// kept: `rising_keys` differs in the order, `lt` of floats here and of whole numbers there, with laws of their own, so one generic function would be handed the
// comparison and its laws.
pub fn rising(t: &[f64]) -> bool
    ensures { result ≡ rising_of t.now }
{
    t.is_sorted_by(|a, b| a < b)
}

// Each below the next.
pub fn rising_keys(keys: &[i64]) -> bool
    ensures { result ≡ rising_seconds keys.now }
{
    keys.is_sorted_by(|a, b| a < b)
}

// The place of a key in a rising list.
pub fn find(keys: &[i64], key: i64) -> Option<usize>
    ensures { rising_seconds keys.now ≡ true → result ≡ lookup keys.now key }
{
    keys.binary_search(&key).ok()
}
