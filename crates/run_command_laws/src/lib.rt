//! Laws of the words of the command line.
#![tactic(auto)]

ghost use Rattle.std.specs.Prelude.{◌≡◌, List, Some};
ghost use Rattle.run_meaning.specs.Words.{Word, command_of};
ghost use Rattle.run_meaning.specs.Ranges.{IsInRange};
ghost use Rattle.run_meaning.specs.Spelling.{Spells};
ghost use Rattle.run_meaning.specs.declared.command.Command.{Command};

/// Words that spell a command are read as it, words that are read as a command spell it, and words spell one command at most.
#[tactic(auto, using(crate::proofs::Spelled::spelled_is_read, crate::proofs::Spelled::read_is_spelled, crate::proofs::Spelled::one_command))]
pub fn spelled_words_are_read()
    ensures read { (words : List Word) (command : Command) → Spells words command → command_of words ≡ Some command }
    ensures spelled { (words : List Word) (command : Command) → command_of words ≡ Some command → Spells words command }
    ensures one { (words : List Word) (a b : Command) → Spells words a → Spells words b → a ≡ b }
{}

/// The options of a command that words are lie in their ranges, those that aren't given too.
pub fn in_range()
    ensures { (words : List Word) (command : Command) → command_of words ≡ Some command → IsInRange command }
{}
