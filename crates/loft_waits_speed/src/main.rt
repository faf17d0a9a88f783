//! Makes instants in which one thread generates an event for which nobody waits, while so many others wait for what doesn't
//! come: loft_waits_speed WAITING INSTANTS. It says nothing; `scripts/waits_speed.sh` measures it.
#![tactic(auto)]

mod instants;

use instants::{make_instants, waiting};
use std::env;
use std::process::ExitCode;
use std::rt::Env;

/// The numbers among the words after the program's name, where these are two.
fn numbers<R: Env + AllocGlobal>(rt: &R) -> Option<(u32, u32)> {
    let mut words = env::args(rt).ok()?.skip(1);
    let waiting = words.next()?.parse::<u32>().ok()?;
    let instants = words.next()?.parse::<u32>().ok()?;
    Some((waiting, instants))
}

fn main(rt: HostRuntime) -> ExitCode {
    let Some((threads, instants)) = numbers(&rt) else {
        return ExitCode::from(2);
    };
    let Ok(mut waits) = waiting(rt.alloc(), threads) else {
        return ExitCode::from(7);
    };
    match make_instants(rt.alloc(), &mut waits, threads as usize, instants) {
        Ok(true) => ExitCode::SUCCESS,
        Ok(false) => ExitCode::from(1),
        Err(_) => ExitCode::from(7),
    }
}
