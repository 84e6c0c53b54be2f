//! What `clap` reads of the command's words is what their definition says.
ghost use Rattle.std.specs.Prelude.{List};
ghost use Rattle.racer_words.specs.Readings.{AreTexts, IsRead};
ghost use Rattle.racer_words.specs.Uses.{Word};

/// The command takes the words exactly where they are uses of which none repeats an earlier one, and gives their words.
pub fn words_are_read()
    ensures { (words : List Word) → AreTexts words → IsRead words }
{}
