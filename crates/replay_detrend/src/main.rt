// Replays the oracle's list of revolutions, detrending and nodes: each call is its number and its arguments, a word a line. A slice is its length, how many of
// its numbers are given, and these; the others are 0. Outputs and scratch hold 7 before a call.
#![tactic(auto)]

use replay::Said;
use slices::Refusal;

fn say_revolutions(
    answer: Result<usize, Refusal>,
    firsts: &[usize],
    ends: &[usize],
    starts: &[f64],
    periods: &[f64],
) {
    replay::say_counted(answer);
    replay::say_all(firsts);
    replay::say_all(ends);
    replay::say_all(starts);
    replay::say_all(periods);
}

fn revolutions() {
    let mut t = [0.0; 400];
    let mut u = [0.0; 66];
    let mut x = [7usize; 66];
    let mut y = [7usize; 66];
    let mut v = [7.0; 66];
    let mut w = [7.0; 66];
    let times = replay::list(&mut t);
    let nodes = replay::list(&mut u);
    let firsts = replay::front(&mut x);
    let ends = replay::front(&mut y);
    let starts = replay::front(&mut v);
    let periods = replay::front(&mut w);
    let answer = detrend::revolutions(times, nodes, firsts, ends, starts, periods);
    say_revolutions(answer, firsts, ends, starts, periods);
}

fn detrending() {
    let mut t = [0.0; 400];
    let mut x = [0.0; 400];
    let mut f = [0usize; 66];
    let mut e = [0usize; 66];
    let mut s = [0.0; 66];
    let mut p = [0.0; 66];
    let mut w = [7.0; 3300];
    let times = replay::list(&mut t);
    let v = replay::count(400);
    replay::fill(&mut x, replay::count(400));
    let firsts = replay::list(&mut f);
    let ends = replay::list(&mut e);
    let starts = replay::list(&mut s);
    let periods = replay::list(&mut p);
    let scratch = replay::front(&mut w);
    let values = &mut x[..v];
    let parts = detrend::Parts {
        firsts,
        ends,
        starts,
        periods,
    };
    detrend::detrend(times, values, parts, scratch).say();
    replay::say_all(values);
    replay::say_left(scratch, 7.0);
}

fn remove(work: &mut [f64], n: usize, nodes: &[f64]) {
    detrend::kernel::remove_within(work, n, nodes);
    if n <= work.len() / 2 {
        replay::say_all(&work[..n + n]);
    }
}

// The kernel: n times, n values, and the rest of the work area.
fn remove_within() {
    let mut work = [7.0; 3300];
    let mut u = [0.0; 66];
    let n = replay::count(400);
    replay::fill(&mut work, replay::count(800));
    let nodes = replay::list(&mut u);
    remove(replay::front(&mut work), n, nodes);
}

fn ascending_nodes() {
    let mut k = [0i64; 60];
    let mut x = [0.0; 360];
    let mut y = [7.0; 60];
    let keys = replay::list(&mut k);
    let states = replay::list(&mut x);
    let out = replay::front(&mut y);
    replay::say_counted(ascending_nodes::ascending_nodes(keys, states, out));
    replay::say_all(out);
}

fn answer(call: u64) {
    match call {
        0 => revolutions(),
        1 => detrending(),
        2 => remove_within(),
        _ => ascending_nodes(),
    }
}

fn main() {
    for call in replay::each_call() {
        answer(call);
    }
}
