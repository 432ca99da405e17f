// Compares the library with a second calculation over many tables.
#![tactic(auto)]

mod answer;
mod bench;
mod case;
mod compare;
mod damage;
mod dice;
mod example;
mod layout;
mod library;
mod numbered;
mod plan;
mod questions;
mod recipe;
mod run;
mod second;
mod shape;
mod tally;

fn main(rt: HostRuntime) -> anyhow::Result<()> {
    run::run(&rt)
}
