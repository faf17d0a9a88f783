//! What a `run` stands for.

ghost use Rattle.std.specs.Prelude.{◌≡◌};
ghost use Rattle.std.specs.Option.{option_map};
ghost use Rattle.loft_lock_forms.specs.Marks.{use_at, AreRising};
ghost use Rattle.loft_lock_forms.specs.Seen.{use_seen, marks_seen};

use loft_lock_forms::{Mark, Use};

/// What the `run` of the name at this offset stands for.
pub fn use_at<'a>(marks: &[Mark<'a>], at: usize) -> Option<Use<'a>>
    requires { AreRising 0 (marks_seen marks.now) }
    ensures { option_map use_seen result ≡ use_at (marks_seen marks.now) at }
{
    let (front, rest) = marks.split_at(marks.len() / 2);
    match rest {
        [] => None,
        [mark, back @ ..] => {
            if mark.at == at {
                Some(mark.used)
            } else if at < mark.at {
                use_at(front, at)
            } else {
                use_at(back, at)
            }
        }
    }
}
