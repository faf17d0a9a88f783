//! The stops of a module, by their numbers.

ghost use Rattle.std.specs.Prelude.{◌≡◌, ◌+◌, ◌<◌, ◌≤◌, ◌^◌};
ghost use Rattle.std.specs.Option.{option_map};
ghost use Rattle.loft_tree.specs.declared.limits.TheConstants.{MAX_STATEMENTS};
ghost use Rattle.loft_tree.specs.ProgramView.{program_of};
ghost use Rattle.loft_tree.specs.Resolved.{resolved_of};
ghost use Rattle.loft_tree.specs.NamedView.{statement_of, statements_of};
ghost use Rattle.loft_tree.specs.Stops.{size, size_of};
ghost use Rattle.loft_sense.specs.Tree.{at_stop, body_at};
ghost use Rattle.loft_sense.specs.Stands.{begin_of, end_of, place_after, leads, leads_step, stop_in, stop_in_step, tree_stop};
ghost use Rattle.loft_standing.specs.Stops.{body_from, step_from, pause_from, kind_from, stop_from, IsFound};

use crate::stop::{Kind, Search, Stop};
use loft_base::ModuleId;
use loft_tree::{Heads, NamedProgram, NamedStmt, Pause, Place};

/// Where the threads of a module begin.
fn begin_of(heads: &Heads, module: ModuleId) -> Place
    ensures { result ≡ begin_of heads.now «module» }
{
    match heads.modules.as_slice().get(module.0 as usize) {
        Some(signature) => signature.begin,
        None => Place::Unlinked,
    }
}

/// Where the threads of a module end.
fn end_of(heads: &Heads, module: ModuleId) -> Place
    ensures { result ≡ end_of heads.now «module» }
{
    match heads.modules.as_slice().get(module.0 as usize) {
        Some(signature) => signature.end,
        None => Place::Unlinked,
    }
}

/// Where a thread is linked after a stop that it comes to at the place.
fn place_after(pause: &Pause, place: Place) -> Place
    ensures { result ≡ place_after (pause_from pause.now) place }
{
    match pause {
        Pause::Link(scheduler) => Place::Sched(*scheduler),
        Pause::Unlink => Place::Unlinked,
        Pause::Cooperate { .. }
        | Pause::Await { .. }
        | Pause::Get { .. }
        | Pause::Join { .. }
        | Pause::Halt => place,
    }
}

/// Whether this stop, which has this number, is stop k.
fn search_here<'a>(kind: Kind<'a>, stop: u32, k: u32, depth: u32, after: Place) -> Search<'a>
    ensures { IsFound result
        (at_stop stop k (record { kind = kind_from kind.entry; depth = depth; after = after })) after }
{
    if stop == k {
        Search::At(Stop { kind, depth, after })
    } else {
        Search::Past(after)
    }
}

/// Looks for stop k in a body that begins at the place, inside so many `repeat`s.
#[cycle(search)]
#[tactic(auto, using(loft_tree::proofs::NamedTrees::named_statements))]
fn search_body<'a>(
    heads: &Heads,
    body: &'a [NamedStmt],
    k: u32,
    depth: u32,
    place: Place,
) -> Search<'a>
    requires { depth + size (statements_of body.now) < 2 ^ 32 }
    ensures { IsFound result (stop_in heads.now (body_from body.now) k depth place) (leads heads.now (body_from body.now) place) }
{
    let mut here = place;
    for statement in body {
        match search_statement(heads, statement, k, depth, here) {
            Search::At(stop) => return Search::At(stop),
            Search::Past(next) => here = next,
        }
    }
    Search::Past(here)
}

/// The same in a statement.
#[cycle(search)]
#[tactic(auto, using(loft_tree::proofs::NamedTrees::named_statements))]
fn search_statement<'a>(
    heads: &Heads,
    statement: &'a NamedStmt,
    k: u32,
    depth: u32,
    place: Place,
) -> Search<'a>
    requires { depth + size_of (statement_of statement.now) < 2 ^ 32 }
    ensures { IsFound result (stop_in_step heads.now (step_from statement.now) k depth place) (leads_step heads.now (step_from statement.now) place) }
{
    match statement {
        NamedStmt::Do { .. } => Search::Past(place),
        NamedStmt::Hold { stop, pause, .. } => {
            search_here(
                Kind::Pause(pause),
                *stop,
                k,
                depth,
                place_after(pause, place),
            )
        }
        NamedStmt::Run { stop, module, .. } => {
            search_here(Kind::Run(*module), *stop, k, depth, end_of(heads, *module))
        }
        NamedStmt::If { first, second, .. } => {
            match search_body(heads, first.as_slice(), k, depth, place) {
                Search::At(stop) => Search::At(stop),
                Search::Past(end) => match search_body(heads, second.as_slice(), k, depth, place) {
                    Search::At(stop) => Search::At(stop),
                    Search::Past(_) => Search::Past(end),
                },
            }
        }
        NamedStmt::While { body, .. } => {
            match search_body(heads, body.as_slice(), k, depth, place) {
                Search::At(stop) => Search::At(stop),
                Search::Past(_) => Search::Past(place),
            }
        }
        NamedStmt::Repeat { body, .. } => {
            match search_body(heads, body.as_slice(), k, depth + 1, place) {
                Search::At(stop) => Search::At(stop),
                Search::Past(_) => Search::Past(place),
            }
        }
    }
}

/// The statements of a module, none where there is no such module.
fn body(program: &NamedProgram, module: ModuleId) -> &[NamedStmt]
    ensures body { body_from result.now ≡ body_at (resolved_of (program_of program.now)) «module» }
    ensures few { size (statements_of result.now) ≤ MAX_STATEMENTS }
{
    match program.modules.as_slice().get(module.0 as usize) {
        Some(module) => module.body.as_slice(),
        None => &[],
    }
}

/// Stop k of a module, if there is one; its begin counts as stop 0.
pub(crate) fn find_stop(program: &NamedProgram, module: ModuleId, k: u32) -> Option<Stop<'_>>
    ensures { option_map stop_from result ≡ tree_stop (resolved_of (program_of program.now)) «module» k }
{
    let begin = begin_of(&program.heads, module);
    if k == 0 {
        return Some(Stop {
            kind: Kind::Begin,
            depth: 0,
            after: begin,
        });
    }
    match search_body(&program.heads, body(program, module), k, 0, begin) {
        Search::At(stop) => Some(stop),
        Search::Past(_) => None,
    }
}
