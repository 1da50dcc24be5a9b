//! What holds of every life of a sheet. The functions compute nothing: call one to have its theorem
//! at hand.
ghost use Rattle.law.specs.Ends.{PivotsEnd};
ghost use Rattle.law.specs.Fixed.{AnswersFixed, TranscriptsFixed};
ghost use Rattle.law.specs.Lives.{EachKept, OneAtHand};
ghost use Rattle.law.specs.Ties.{TurnsCarryLives};

/// A bare sheet with no shot begins a life, and every call carries on every life that led to the
/// sheet: whatever was called and answered before, the law holds of this call with its answer too.
pub fn every_turn_carries_a_life_on()
    ensures { TurnsCarryLives }
{}

/// What is promised of a whole life is promised at each moment of its transcript.
pub fn each_moment_is_kept()
    ensures { EachKept }
{}

/// After every sequence of calls and answers at most one line is at hand.
pub fn one_line_is_at_hand()
    ensures { OneAtHand }
{}

/// Of n held shots that have two speeds, n + 1 pivots in a row bring a line into force, whatever came
/// before them.
pub fn enough_pivots_bring_a_line_into_force()
    ensures { PivotsEnd }
{}

/// The law fixes every answer: of two moments of the same call after the same past, both as
/// promised, the answers and the lines in force are the same; so the same calls have one transcript.
pub fn the_law_fixes_every_answer()
    ensures answers { AnswersFixed }
    ensures transcripts { TranscriptsFixed }
{}
