// The shelf's reports on fixed cases, the split of the longest stretch by extent, and the whole order `?` of the program `mark`. With no
// argument it prints their answers, and with a number the nanoseconds that each takes, in the best of some rounds of at least so many
// microseconds.
#![tactic(auto)]

use alphabet::letters::Letters;
use shelf::Shelf;
use shelf::refusal::Refusal;
use std::env;

mod cases;
mod order_lines;
mod room;
mod timing;

use cases::{Case, Texts};
use order_lines::Orders;
use room::{Room, SYMBOLS};
use timing::{PLACES, time};

// A shelf with the pattern of a case at each place that is asked.
fn shelf_of(case: &Case<'_>) -> anyhow::Result<Shelf<Letters>> {
    let mut shelf = Shelf::new(Letters::new());
    for place in 0..PLACES {
        shelf.file(place, case.pattern)?;
    }
    Ok(shelf)
}

// Prints the ends of the longest stretch, how many symbols are marked, how many tags have a part of that stretch, the sum of the numbers
// of the tests along its trail, and the sum of the bytes that `mark` prints.
fn print_answers(rt: &HostRuntime, case: &Case<'_>) -> anyhow::Result<()> {
    let shelf = shelf_of(case)?;
    let name = case.name;
    let marked = shelf.mark(0, case.line, &mut [0; SYMBOLS])?;
    match shelf.longest(0, case.line) {
        Ok((left, right)) => {
            let mut room = Room::new();
            room.split(&shelf, 0, case, (left, right))?;
            let parts = room.parts();
            let sum = room.sum();
            let printed = Orders::new(case).sum();
            println!(rt; "{name} {left} {right} {marked} {parts} {sum} {printed}")?;
        }
        Err(Refusal::NoMatch) => println!(rt; "{name} none {marked}")?,
        Err(refusal) => return Err(refusal.into()),
    }
    Ok(())
}

fn print_times(rt: &HostRuntime, case: &Case<'_>, least: u128) -> anyhow::Result<()> {
    let shelf = shelf_of(case)?;
    let name = case.name;
    let longest = time(rt, least, |place| {
        shelf.longest(place, case.line).map_or(0, |(_, end)| end)
    })?;
    let mut buffer = [0; SYMBOLS];
    let marks = time(rt, least, |place| {
        shelf.mark(place, case.line, &mut buffer).unwrap_or(0)
    })?;
    let ends = shelf.longest(0, case.line)?;
    let mut room = Room::new();
    let splits = time(rt, least, |place| {
        match room.split(&shelf, place, case, ends) {
            Ok(()) => room.number(),
            Err(_) => 0,
        }
    })?;
    let mut orders = Orders::new(case);
    let whole = time(rt, least, |place| orders.ask(place).len())?;
    println!(rt; "{name} {longest} {marks} {splits} {whole}")?;
    Ok(())
}

fn print(rt: &HostRuntime, cases: &[Case<'_>], least: Option<u128>) -> anyhow::Result<()> {
    for case in cases {
        match least {
            Some(least) => print_times(rt, case, least)?,
            None => print_answers(rt, case)?,
        }
    }
    Ok(())
}

fn run(rt: &HostRuntime) -> anyhow::Result<()> {
    let microseconds = env::args(rt)?
        .nth(1)
        .map(|text| text.parse::<u32>())
        .transpose()?;
    let least = microseconds.map(|number| u128::from(number) * 1000);
    let texts = Texts::new();
    print(rt, &texts.cases(), least)?;
    print(rt, &texts.longer_lines(), least)?;
    print(rt, &texts.larger_patterns(), least)
}

fn main(rt: HostRuntime) -> anyhow::Result<()> {
    run(&rt)
}
