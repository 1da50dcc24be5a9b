//! The sample life.
ghost use Rattle.cases.specs.Sample.{SampleLives};

/// There is a life in which a line is laid, moved, proved and issued, is kept in force by one strike
/// and put out by another: the law of every life is not empty.
pub fn there_is_a_life()
    ensures { SampleLives }
{}
