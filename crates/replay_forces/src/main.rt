// Replays the oracle's list of forces: each call is its number and its arguments, a word a line. An answer is 0 or the
// refusal's number, and then the numbers handed out.
#![tactic(auto)]

use replay::{Said, Word};
use slices::Refusal;
use vectors::Vector;

fn vector() -> Vector {
    let x = replay::float();
    let y = replay::float();
    let z = replay::float();
    Vector { x, y, z }
}

fn numbers_of(v: Vector) -> [f64; 3] {
    [v.x, v.y, v.z]
}

fn say_answer(answer: Result<Vector, Refusal>) {
    answer.map(numbers_of).say();
}

fn sun_moon() {
    forces::sun_moon(replay::float())
        .map(|places| [numbers_of(places.sun), numbers_of(places.moon)])
        .say();
}

fn third_body() {
    let x = vector();
    let body = vector();
    let gm = replay::float();
    say_answer(forces::third_body(x, body, gm));
}

// After a refusal the coefficients are told as +0.0.
fn solid_tide() {
    let sun = vector();
    let moon = vector();
    match forces::solid_tide(sun, moon) {
        Ok(tide) => {
            replay::say(0);
            tide.c.say();
            tide.s.say();
        }
        Err(refusal) => {
            refusal.say();
            [0.0; 20].say();
        }
    }
}

fn tides() {
    let t = replay::float();
    let x = vector();
    say_answer(forces::tides(t, x));
}

fn fictitious() {
    let x = vector();
    let v = vector();
    say_answer(forces::fictitious(x, v));
}

fn empirical() {
    let x = vector();
    let v = vector();
    let u = replay::float();
    let mut e = [0.0; 9];
    replay::fill(&mut e, 9);
    say_answer(forces::empirical(x, v, u, e));
}

// The scratch stands at 7.0 before the call.
fn gravity() {
    let mut f = [0.0; 500];
    let mut p = [0.0; 250];
    let mut q = [0.0; 250];
    let mut w = [7.0; 2000];
    let degree = usize::read();
    let field = replay::full_list(&mut f);
    let a = replay::full_list(&mut p);
    let b = replay::full_list(&mut q);
    let x = vector();
    let scratch = replay::front(&mut w);
    say_answer(forces::gravity(degree, field, a, b, x, scratch));
    replay::say_left(scratch, 7.0);
}

fn answer(call: u64) {
    match call {
        0 => sun_moon(),
        1 => third_body(),
        2 => solid_tide(),
        3 => tides(),
        4 => fictitious(),
        5 => empirical(),
        6 => say_answer(forces::j2_gravity(vector())),
        _ => gravity(),
    }
}

fn main() {
    for call in replay::each_call() {
        answer(call);
    }
}
