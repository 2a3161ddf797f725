// What holds of the definitions.
ghost use Rattle.std.specs.Prelude.{◌≡◌, List};
ghost use Rattle.el_words.specs.Options.{Word};
ghost use Rattle.el_words.specs.Commands.{IsCommand};
ghost use Rattle.el_words.specs.declared.words.Command as asked;

/// Words are those of one command at most. It does nothing when it runs.
pub fn words_are_of_one_command()
    ensures { (words : List Word) (one other : asked.Command)
        → IsCommand words one → IsCommand words other → one ≡ other }
{}
