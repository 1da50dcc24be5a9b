//! The pass: leave to write one card with the line in force.
ghost use Rattle.std.specs.Prelude.{◌≡◌};

use lines::Line;

/// A pass carries the line in force at the moment it was issued. Only a sheet makes one, and it can
/// be neither copied nor let go: it is spent on one card, or given up by name.
pub struct Pass {
    pub(crate) line: Line,
}

impl Pass {
    /// The line that the pass carries.
    pub fn line(&self) -> Line
        ensures { result ≡ self.now.line }
    {
        self.line
    }

    /// Writes the line onto a lent card, and uses the pass up.
    pub fn spend(self, card: &mut Line)
        ensures { card.new ≡ self.line }
    {
        let Pass { line } = self;
        *card = line;
    }

    /// Gives the pass up, and tells its line.
    pub fn give_up(self) -> Line
        ensures { result ≡ self.line }
    {
        let Pass { line } = self;
        line
    }
}
