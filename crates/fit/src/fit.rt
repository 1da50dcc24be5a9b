//! The shots of a rack under a price rule.

/// The shots of a rack under a price rule: what a line is priced over, tested on and turned by.
#[derive(Drop)]
pub struct Fit<'a, R, P> {
    /// The rack that holds the shots.
    pub rack: &'a R,
    /// What a miss costs.
    pub rule: &'a P,
}
