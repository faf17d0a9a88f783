//! `run_code` by itself: it is given code, and no source.

ghost use Rattle.loft_base.specs.Options.{AreInRange};
ghost use Rattle.loft_commands.specs.Options.{options_of};

use loft_base::{Limits, MemSink, OpenGate};
use loft_code::{Code, validate};
use loft_commands::run_code;
use loft_listing_reader::read;
use std::sync::Wait;
use std::test::Fail;
use std::thread::Threads;

/// Two prints, and a stop between them; the second text is that of `two_prints.loft` backwards.
const PRINTS_OWT: &[u8] = b"loft-listing 1
scheduler A;
module m() in A
0 A 0 print \"one\";
1 A 0 @1 cooperate;
2 A 0 print \"owt\";
3 A 0 end
end
start A.m();
";

/// Its report.
const REPORT: &[u8] = b"loft-report 1
instants 2
budget 7
block 8
workers 3
history 4
take A
give A
take A
give A
scheduler A
instant 1
in create start.0 m()
print start.0 one
at start.0 0 0 coop:0 m:1[]()
instant 2
print start.0 owt
end start.0 done
state 0
left 0
end
";

/// The report of a run of code.
fn report_of<R: Threads + Wait + Sync + AllocGlobal>(
    rt: &R,
    code: &Code,
    limits: Limits,
    workers: u32,
) -> Result<MemSink, Fail>
    requires range { AreInRange (options_of limits workers) }
{
    let mut sink = MemSink::new(rt.alloc(), 4096)?;
    let ran = run_code(rt, rt.alloc(), code, limits, workers, &mut sink, &OpenGate);
    if ran.is_err() {
        return Err("the run fails".into());
    }
    Ok(sink)
}

/// The texts that the code prints stand in the report, with the numbers that it is given.
#[test]
fn runs_the_code_that_it_is_given(rt: HostRuntime) -> Result<(), Fail> {
    let raw = read(rt.alloc(), PRINTS_OWT).map_err(|_| "it is no listing")?;
    let code = validate(rt.alloc(), raw).map_err(|_| "its code isn't valid")?;
    let limits = Limits {
        instants: 2,
        budget: 7,
        block: 8,
    };
    let sink = report_of(&rt, &code, limits, 3)?;
    assert_eq!(rt; sink.bytes(), REPORT);
    Ok(())
}
