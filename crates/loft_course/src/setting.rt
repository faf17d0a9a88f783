//! What a run is of, for proofs alone.

ghost use Rattle.loft_base.specs.declared.options.RunOptions.{RunOptions};
ghost use Rattle.loft_sense.specs.Machine.{Prog};

use std::marker::Brand;

/// The program of a run and its options. A setting has no code: proofs name by it what the engines
/// of one run have in common.
pub trait Setting {
    /// The program that runs.
    ghost program: { Prog };

    /// Its options.
    ghost options: { RunOptions };
}

impl Setting for Brand {
    ghost use Rattle.loft_course.specs.Course.{no_program, no_options};

    ghost program = { no_program };

    ghost options = { no_options };
}
