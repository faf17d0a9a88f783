//! Laws of the words. Each is what the contract of an empty function says (docs/COMMANDS.md, "Words").

ghost use Rattle.std.specs.Prelude.{◌≡◌, ◌∷◌, ◌++◌, ℕ, List, true, false, codes};
ghost use Rattle.std.specs.Str.{bytes_eq};
ghost use Rattle.loft_arguments.specs.Words.{is_option, is_flag, has_value};
ghost use Rattle.loft_arguments.specs.Arguments.{Argument, arguments};
ghost use Rattle.loft_arguments.specs.Command.{command_named};
ghost use Rattle.loft_arguments.specs.Changing.{MayChange};

/// An option that isn't a flag says the same with its value after `=` as with its value in the next word, where that
/// doesn't begin with `-`.
pub fn options_have_two_forms()
    ensures { (name value : List ℕ) (words : List (List ℕ))
        → is_option name ≡ true → bytes_eq name (codes "--") ≡ false → has_value name ≡ false
        → is_flag name ≡ false → is_option value ≡ false
        → arguments ((name ++ (codes "=" ++ value)) ∷ words) ≡ arguments (name ∷ value ∷ words) }
{}

/// Two arguments that stand beside each other can change places, but for the two files of `replay`: so options stand before,
/// between and after files.
pub fn arguments_change_places()
    ensures { (word : List ℕ) (before after : List Argument) (a b : Argument)
        → MayChange word a b
        → command_named word (before ++ (a ∷ b ∷ after))
        ≡ command_named word (before ++ (b ∷ a ∷ after)) }
{}
