//! What replaces a form.

ghost use Rattle.std.specs.Prelude.{◌≡◌, ◌++◌, ℕ, List, true, codes};
ghost use Rattle.loft_lock_forms.specs.Rewriting.{form_text};
ghost use Rattle.loft_lock_forms.specs.Seen.{heads_text, taker_text, giver_text};
ghost use Rattle.loft_lock_forms.specs.Seen.{form_seen};

use crate::form::Form;
use loft_base::Out;

/// A form that is a statement, with the name of its lock.
#[derive(Clone, Copy)]
pub enum Use<'a> {
    /// `lock l;`
    Take(&'a [u8]),
    /// `unlock l;`
    Give(&'a [u8]),
}

/// The `run` in a written text that stands in place of a form.
#[derive(Clone, Copy)]
pub struct Mark<'a> {
    /// The offset of the name that is run, in the written text.
    pub at: usize,
    /// The form.
    pub used: Use<'a>,
}

/// The declarations of a lock's variable and of its event.
fn put_heads(out: &mut Out, lock: &[u8], at: &[u8])
    ensures before { out.new.is_whole ≡ true → out.old.is_whole ≡ true }
    ensures text { out.new.is_whole ≡ true → (rest : List ℕ)
        → out.new.text.items ++ rest ≡ out.old.text.items ++ heads_text lock.now at.now rest }
{
    out.put(b"shared held_");
    out.put(lock);
    out.put(b" in ");
    out.put(at);
    out.put(b" = 0; event free_");
    out.put(lock);
    out.put(b" in ");
    out.put(at);
}

/// The module that takes the lock, after a `;`.
fn put_taker(out: &mut Out, lock: &[u8], at: &[u8])
    ensures before { out.new.is_whole ≡ true → out.old.is_whole ≡ true }
    ensures text { out.new.is_whole ≡ true → (rest : List ℕ)
        → out.new.text.items ++ rest ≡ out.old.text.items ++ taker_text lock.now at.now rest }
{
    out.put(b"; module lock_");
    out.put(lock);
    out.put(b"() in ");
    out.put(at);
    out.put(b" while (held_");
    out.put(lock);
    out.put(b") do await free_");
    out.put(lock);
    out.put(b"; if (held_");
    out.put(lock);
    out.put(b") then cooperate; end end held_");
    out.put(lock);
}

/// The end of that module, and the one that gives the lock back.
fn put_giver(out: &mut Out, lock: &[u8], at: &[u8])
    ensures before { out.new.is_whole ≡ true → out.old.is_whole ≡ true }
    ensures text { out.new.is_whole ≡ true → (rest : List ℕ)
        → out.new.text.items ++ rest ≡ out.old.text.items ++ giver_text lock.now at.now rest }
{
    out.put(b" = 1; end module unlock_");
    out.put(lock);
    out.put(b"() in ");
    out.put(at);
    out.put(b" held_");
    out.put(lock);
    out.put(b" = 0; generate free_");
    out.put(lock);
    out.put(b"; end ");
}

/// The `run` of the module that is called so.
fn put_run(out: &mut Out, front: &[u8], lock: &[u8])
    ensures before { out.new.is_whole ≡ true → out.old.is_whole ≡ true }
    ensures text { out.new.is_whole ≡ true → (rest : List ℕ)
        → out.new.text.items ++ rest ≡ out.old.text.items ++ (front.now ++ (lock.now ++ (codes "();" ++ rest))) }
{
    out.put(front);
    out.put(lock);
    out.put(b"();");
}

/// What replaces the form.
pub fn put_form(out: &mut Out, form: Form)
    ensures before { out.new.is_whole ≡ true → out.old.is_whole ≡ true }
    ensures text { out.new.is_whole ≡ true → (rest : List ℕ)
        → out.new.text.items ++ rest ≡ out.old.text.items ++ form_text (form_seen form.entry) rest }
{
    match form {
        Form::Declares { lock, at } => {
            put_heads(out, lock, at);
            put_taker(out, lock, at);
            put_giver(out, lock, at);
        }
        Form::Takes(lock) => put_run(out, b"run lock_", lock),
        Form::Gives(lock) => put_run(out, b"run unlock_", lock),
    }
}
