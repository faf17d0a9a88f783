//! An office of fair threads, to which threads of this program give orders (docs/EMBEDDING.md, "An
//! example"): a manager makes a clerk and a clock, and has the clock suspended, resumed and stopped;
//! two customers bring letters at the same time.
#![tactic(auto)]

mod orders;
mod people;
mod told;

ghost use Rattle.std.specs.Prelude.{◌≡◌, length, IfOk};

use loft_base::{Limits, NoMemory, OpenGate, RunOptions};
use loft_code::Code;
use loft_host::{Hosted, code_of, run_with_callers};
use people::Person;
use std::alloc::Global;
use std::process::ExitCode;
use std::sync::Wait;
use std::thread::Threads;
use told::tell_thread;

/// What the fair threads do: a clerk weighs so many letters, and a clock ticks each minute.
const SOURCE: &[u8] = b"
scheduler desk;
event letter in desk;
event minute in desk;

module clerk(int wanted) in desk
  local int index;
  local int weight;
  local int sum;
  while (wanted > 0) do
    await letter;
    index = 0;
    get letter at index into weight;
    while (code == 0) do
      sum = sum + weight;
      wanted = wanted - 1;
      index = index + 1;
      get letter at index into weight;
    end
  end
  print \"weight \", sum;
end

module clock() in desk
  while (1) do
    await minute;
    print \"tick\";
    cooperate;
  end
end
";

/// The bounds of the run, and its workers.
const OPTIONS: RunOptions = RunOptions {
    limits: Limits {
        instants: 1000,
        budget: 10_000,
        block: 1_000_000,
    },
    workers: 1,
};

/// The people at the office.
fn everybody(alloc: Global) -> Result<Vec<Person>, NoMemory>
    ensures { IfOk result (λ people. length people.items ≡ 3) }
{
    let mut people = Vec::new(alloc);
    people.push(Person::manager())?;
    people.push(Person::customer())?;
    people.push(Person::customer())?;
    Ok(people)
}

/// A day at the office.
fn day<R: Threads + Wait + Sync>(
    rt: &R,
    alloc: Global,
    code: &Code,
) -> Result<Hosted<Person>, NoMemory> {
    let people = everybody(alloc)?;
    run_with_callers(rt, alloc, code, OPTIONS, people, &OpenGate)
}

fn main(rt: HostRuntime) -> ExitCode {
    let Ok(code) = code_of(rt.alloc(), SOURCE) else {
        return ExitCode::from(1);
    };
    let Ok(hosted) = day(&rt, rt.alloc(), &code) else {
        return ExitCode::from(7);
    };
    let clerk = tell_thread(&rt, "clerk", 0, hosted.notes.of.as_slice());
    let clock = tell_thread(&rt, "clock", 1, hosted.notes.of.as_slice());
    if clerk.is_err() || clock.is_err() {
        return ExitCode::from(6);
    }
    ExitCode::SUCCESS
}
