// Replays the oracle's list of horizons, final counts and arcs: each call is its number and its arguments, a word a line; a list is its length and its numbers.
// Printed are the number of the horizon's refusal, or 0 with 1 and the horizon, or with 0; then the number of F's, or 0 and F. Of a window the start, the
// steps, the node and the period of its arc.
#![tactic(auto)]

use horizon::Tracks;
use replay::Said;

// The horizon of nodes, keys of states and of accelerometer values, times of fields and observations; F of the kept times that come last.
fn final_count() {
    let mut u = [0.0; 65];
    let mut c = [0i64; 4];
    let mut d = [0i64; 4];
    let mut e = [0i64; 4];
    let mut f = [0i64; 4];
    let mut v = [0.0; 33];
    let mut w = [0.0; 4];
    let mut t = [0.0; 64];
    let nodes = replay::full_list(&mut u);
    let tracks = Tracks {
        states_c: replay::full_list(&mut c),
        states_d: replay::full_list(&mut d),
        acc_c: replay::full_list(&mut e),
        acc_d: replay::full_list(&mut f),
        fields: replay::full_list(&mut v),
        observed: replay::full_list(&mut w),
    };
    let kept = replay::full_list(&mut t);
    horizon::horizon(nodes, tracks).say();
    horizon::final_count(nodes, tracks, kept).say();
}

fn arc() {
    let from = replay::float();
    let to = replay::float();
    let arc = windows::kernel::arc_between(from, to);
    arc.t0.say();
    arc.steps.say();
    arc.node.say();
    arc.period.say();
}

fn answer(call: u64) {
    match call {
        0 => final_count(),
        _ => arc(),
    }
}

fn main() {
    for call in replay::each_call() {
        answer(call);
    }
}
