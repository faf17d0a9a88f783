//! The text of a generated source.

ghost use Rattle.std.specs.Prelude.{◌≡◌, ◌≤◌, ◌++◌, ◌∷◌, [], true, IfOk};
ghost use Rattle.std.specs.Fmt.{decimal};
ghost use Rattle.loft_gen.specs.Generated.{generated, lines_of, rounds_of, start_line, starts_text, threads_of, walk_lines};

use loft_base::{NoMemory, Out};
use std::alloc::Global;

/// The largest number of which a source is made.
pub const GENERATED_MAX: u32 = 1_000;

/// How many threads the source of a number starts, 25 to 200.
pub fn threads_of(k: u32) -> u32
    ensures { result ≡ threads_of k }
{
    25 + 25 * (k % 8)
}

/// How many rounds each thread makes in the source of a number, 1 to 5.
pub fn rounds_of(k: u32) -> u32
    ensures { result ≡ rounds_of k }
{
    1 + k % 5
}

/// Appends bytes and the digits of a number.
fn put_number(out: &mut Out, before: &[u8], number: u32)
    ensures before { out.new.is_whole ≡ true → out.old.is_whole ≡ true }
    ensures text { out.new.is_whole ≡ true → out.new.text.items ≡ out.old.text.items
        ++ (before.now ++ decimal number) }
{
    out.put(before);
    match number.to_string(*out.text.allocator()) {
        Ok(digits) => out.put(digits.as_bytes()),
        Err(_) => out.is_whole = false,
    }
}

/// Appends the lines before the starts.
fn put_walk(out: &mut Out, rounds: u32)
    ensures before { out.new.is_whole ≡ true → out.old.is_whole ≡ true }
    ensures text { out.new.is_whole ≡ true → out.new.text.items ≡ out.old.text.items
        ++ lines_of (walk_lines rounds) }
{
    put_number(
        out,
        b"scheduler A0;
scheduler A1;
scheduler A2;
scheduler A3;
shared x0 in A0 = 0;
shared x1 in A1 = 0;
shared x2 in A2 = 0;
shared x3 in A3 = 0;
module walk(int k) in A0
  local int n;
  repeat (",
        rounds,
    );
    out.put(
        b") do
    x0 = x0 + k;
    link A1;
    x1 = x1 + k;
    link A2;
    x2 = x2 + k;
    link A3;
    x3 = x3 + k;
    unlink;
    n = n + k;
    link A0;
  end
  x0 = x0 + n;
end
",
    )
}

/// Appends the line of a start.
fn put_start(out: &mut Out, number: u32)
    ensures before { out.new.is_whole ≡ true → out.old.is_whole ≡ true }
    ensures text { out.new.is_whole ≡ true → out.new.text.items ≡ out.old.text.items
        ++ (start_line number ++ 10 ∷ []) }
{
    put_number(out, b"start A0.walk(", number);
    out.put(b");\n")
}

/// Appends so many starts, numbered from 1.
#[tactic(auto, using(crate::proofs::Starts::one_more))]
fn put_starts(out: &mut Out, threads: u32)
    requires { threads ≤ 200 }
    ensures before { out.new.is_whole ≡ true → out.old.is_whole ≡ true }
    ensures text { out.new.is_whole ≡ true → out.new.text.items ≡ out.old.text.items
        ++ starts_text 1 threads }
{
    'starts: for made in 0..threads {
        put_start(out, made + 1);
    }
}

/// The source of a number (docs/GENERATED.md, "The source"): `threads_of` threads, of which each makes
/// `rounds_of` rounds.
///
/// # Errors
///
/// Out of memory for the text.
pub fn source_of(alloc: Global, k: u32) -> Result<Vec<u8>, NoMemory>
    requires some { 1 ≤ k }
    requires few { k ≤ 1000 }
    ensures { IfOk result (λ text. text.items ≡ generated k) }
{
    let mut out = Out::new(alloc);
    put_walk(&mut out, rounds_of(k));
    put_starts(&mut out, threads_of(k));
    out.done()
}
