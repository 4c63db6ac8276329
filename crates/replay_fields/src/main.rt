// Replays the oracle's list of module 1: each call is its number and its arguments, a word a line; a slice is preceded by its
// length. Outputs stand at 3.0 and scratch at 7.0 before a call; of long tables every so many numbers are told.
#![tactic(auto)]

use replay::{Said, Word};
use slices::Refusal;

fn index() {
    let n = usize::read();
    let m = usize::read();
    fields::idx(n, m).say();
}

fn acceleration() {
    let v = replay::float();
    let dr = replay::float();
    let dlat = replay::float();
    let dlon = replay::float();
    let r = replay::float();
    let lat = replay::float();
    let p = legendre::Partials { v, dr, dlat, dlon };
    fields::acceleration_neu(p, r, lat)
        .map(|a| [a.north, a.east, a.up])
        .say();
}

fn say_tables(answer: Result<(), Refusal>, a: &[f64], b: &[f64], scratch: &[f64], between: u64) {
    answer.say();
    replay::say_some(a, between);
    replay::say_some(b, between);
    replay::say_left(scratch, 7.0);
}

// The lengths of a, b and the scratch, and how many numbers are passed over.
fn legendre_new() {
    let mut x = [3.0; 16500];
    let mut y = [3.0; 16500];
    let mut w = [7.0; 132000];
    let degree = usize::read();
    let a = replay::front(&mut x);
    let b = replay::front(&mut y);
    let scratch = replay::front(&mut w);
    let between = replay::number();
    let answer = fields::legendre_new(degree, a, b, scratch);
    say_tables(answer, a, b, scratch, between);
}

fn rescaled() {
    let mut f = [0.0; 4000];
    let mut x = [3.0; 2000];
    let mut y = [3.0; 2000];
    let mut w = [7.0; 16000];
    let degree = usize::read();
    let field = replay::full_list(&mut f);
    let cosines = replay::front(&mut x);
    let sines = replay::front(&mut y);
    let scratch = replay::front(&mut w);
    let gm = replay::float();
    let radius = replay::float();
    let answer = fields::rescaled(degree, field, gm, radius, cosines, sines, scratch);
    say_tables(answer, cosines, sines, scratch, 0);
}

fn derive() {
    let mut x = [0.0; 2000];
    let mut y = [3.0; 2000];
    let mut w = [7.0; 16000];
    let degree = usize::read();
    let p = replay::full_list(&mut x);
    let dp = replay::front(&mut y);
    let scratch = replay::front(&mut w);
    fields::derive(degree, p, dp, scratch).say();
    replay::say_all(dp);
    replay::say_left(scratch, 7.0);
}

// The tables come from `legendre_new`, and stand as they stood where it refuses; a's first number is replaced.
fn fill_tables(degree: usize, a: &mut [f64], b: &mut [f64]) {
    let mut scratch = [7.0; 132000];
    let _answer = fields::legendre_new(degree, a, b, &mut scratch);
    let first = replay::float();
    if !a.is_empty() {
        a[0] = first;
    }
}

// The lengths of p, dp and the scratch, the latitude, and how many numbers are passed over.
fn compute_by(degree: usize, a: &[f64], b: &[f64]) {
    let mut x = [3.0; 16500];
    let mut y = [3.0; 16500];
    let mut w = [7.0; 132000];
    let p = replay::front(&mut x);
    let dp = replay::front(&mut y);
    let scratch = replay::front(&mut w);
    let lat = replay::float();
    let between = replay::number();
    let answer = fields::compute_with_derivative(degree, a, b, lat, p, dp, scratch);
    say_tables(answer, p, dp, scratch, between);
}

fn compute() {
    let mut x = [0.0; 16500];
    let mut y = [0.0; 16500];
    let degree = usize::read();
    let a = replay::front(&mut x);
    let b = replay::front(&mut y);
    fill_tables(degree, a, b);
    compute_by(degree, a, b);
}

// So many places; the scratch of one is left to the next.
fn partials_by(degree: usize, field: &[f64], a: &[f64], b: &[f64]) {
    let mut w = [7.0; 132000];
    let scratch = replay::front(&mut w);
    for _ in 0..replay::count(1000) {
        let r = replay::float();
        let lat = replay::float();
        let lon = replay::float();
        fields::partials(degree, field, a, b, r, lat, lon, scratch)
            .map(|z| [z.v, z.dr, z.dlat, z.dlon])
            .say();
        replay::say_left(scratch, 7.0);
    }
}

fn partials() {
    let mut f = [0.0; 33000];
    let mut x = [0.0; 16500];
    let mut y = [0.0; 16500];
    let degree = usize::read();
    let field = replay::full_list(&mut f);
    let a = replay::front(&mut x);
    let b = replay::front(&mut y);
    fill_tables(degree, a, b);
    partials_by(degree, field, a, b);
}

fn answer(call: u64) {
    match call {
        0 => index(),
        1 => acceleration(),
        2 => legendre_new(),
        3 => rescaled(),
        4 => derive(),
        5 => compute(),
        _ => partials(),
    }
}

fn main() {
    for call in replay::each_call() {
        answer(call);
    }
}
