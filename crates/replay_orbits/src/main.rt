// Replays the oracle's list of least squares, fits and fitted windows: each call is its number and its arguments, a word a line. A slice is its length,
// how many of its numbers are given, and these; the others are 0. Outputs stand at 3.0 or 3 and scratch at 7.0 before a call; of an output some numbers
// are told, and the sum of all patterns.
#![tactic(auto)]

use inputs::{Keyed, Model};
use integrate::kernel::Arc;
use replay::{Said, Word};

// The sum of all words, and the sum of its values after each word, modulo 2^64.
#[derive(Clone, Copy)]
struct Sums {
    sum: u64,
    sums: u64,
}

fn sums_of<T: Word>(values: &[T]) -> Sums {
    values.iter().fold(Sums { sum: 0, sums: 0 }, |before, x| {
        let sum = before.sum.wrapping_add(x.word());
        Sums {
            sum,
            sums: before.sums.wrapping_add(sum),
        }
    })
}

fn say_output(values: &[f64], between: u64) {
    replay::say_left(values, 3.0);
    sums_of(values).sum.say();
    replay::say_some(values, between);
}

fn say_list<T: Word + Said>(values: &[T], stood: T, between: u64) {
    replay::say_left(values, stood);
    let sums = sums_of(values);
    sums.sum.say();
    sums.sums.say();
    replay::say_some(values, between);
}

fn ols() {
    let mut x = [0.0; 101000];
    let mut z = [0.0; 101000];
    let mut b = [3.0; 20];
    let mut r = [3.0; 101000];
    let rows = replay::list(&mut x);
    let y = replay::list(&mut z);
    let columns = usize::read();
    let beta = replay::front(&mut b);
    let residuals = replay::front(&mut r);
    let between = replay::number();
    least_squares::ols(rows, y, columns, beta, residuals).say();
    say_output(beta, 0);
    say_output(residuals, between);
}

// kept: `replay_integrate` has this function too: `Arc` is a type of `integrate`, on which crate `replay` does not depend.
fn arc_of() -> Arc {
    let t0 = replay::float();
    let steps = usize::read();
    let node = replay::float();
    let period = replay::float();
    Arc {
        t0,
        steps,
        node,
        period,
    }
}

// The arc and the lengths of the output and of the scratch come next.
fn fit_orbit(model: Model<'_>, states: Keyed<'_>) {
    let mut x = [3.0; 31900];
    let mut w = [7.0; 170000];
    let arc = arc_of();
    let out = replay::front(&mut x);
    let scratch = replay::front(&mut w);
    let between = replay::number();
    fit::fit_orbit(model, states, arc, out, scratch)
        .answer()
        .say();
    say_output(out, between);
    replay::say_left(scratch, 7.0);
}

// The nodes and the lengths of the outputs and of the scratch come next.
fn fitted_orbits(model: Model<'_>, states: Keyed<'_>) {
    let mut n = [0.0; 70];
    let mut k = [3i64; 14000];
    let mut x = [3.0; 84000];
    let mut r = [3.0; 10];
    let mut w = [7.0; 350000];
    let nodes = replay::list(&mut n);
    let outkeys = replay::front(&mut k);
    let outstates = replay::front(&mut x);
    let rms = replay::front(&mut r);
    let scratch = replay::front(&mut w);
    let some_keys = replay::number();
    let some_states = replay::number();
    fitted_orbits::fitted_orbits(model, states, nodes, outkeys, outstates, rms, scratch)
        .map(|done| [done.states, done.windows])
        .say();
    say_list(outkeys, 3, some_keys);
    say_list(outstates, 3.0, some_states);
    say_list(rms, 3.0, 0);
    replay::say_left(scratch, 7.0);
}

// The states come next.
fn over(call: u64, model: Model<'_>) {
    let mut k = [0i64; 200010];
    let mut x = [0.0; 40000];
    let states = Keyed {
        keys: replay::list(&mut k),
        values: replay::list(&mut x),
    };
    match call {
        1 => fit_orbit(model, states),
        _ => fitted_orbits(model, states),
    }
}

fn fitted(call: u64) {
    let mut f = [0.0; 500];
    let mut x = [0.0; 250];
    let mut y = [0.0; 250];
    let mut t = [0.0; 40];
    let mut g = [0.0; 3000];
    let model = Model {
        degree: usize::read(),
        static_field: replay::list(&mut f),
        table_a: replay::list(&mut x),
        table_b: replay::list(&mut y),
        field_times: replay::list(&mut t),
        added: replay::list(&mut g),
    };
    over(call, model);
}

fn answer(call: u64) {
    match call {
        0 => ols(),
        _ => fitted(call),
    }
}

fn main() {
    for call in replay::each_call() {
        answer(call);
    }
}
