//! What a report that isn't refused is answered by.

ghost use Rattle.std.specs.Prelude.{◌≡◌};
ghost use Rattle.loft_replay_command.specs.Finding.{answer_text};

/// What a report that isn't refused is answered by.
#[derive(Drop)]
pub enum Answer {
    /// The whole report is that of its own history: the line `ok`.
    Whole,
    /// The block of a scheduler.
    Block(Vec<u8>),
}

impl Answer {
    /// The text of the answer.
    pub fn text(&self) -> &[u8]
        ensures { result.now ≡ answer_text self.now }
    {
        match self {
            Answer::Whole => b"ok\n",
            Answer::Block(bytes) => bytes.as_slice(),
        }
    }
}
