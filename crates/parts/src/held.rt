// The six lines' records, each with one held place for an entry.
ghost use Rattle.std.specs.Prelude.{◌≡◌};
ghost use Rattle.parts.specs.Lines.{line_number};
ghost use Rattle.parts.specs.Held.{held_of, held_at, put_held, none_held, kept_held};

use crate::lines::{Line, Port};
use ps2::entry::Entry;

#[derive(Clone, Copy)]
pub struct LineRecord {
    held: Option<Entry>,
}

// Contracts see it through `held_of`: a `Model` of a `Copy` table would need a way back, and a law of eight cases for it.
#[derive(Clone, Copy)]
pub struct Lines {
    // a table of six records, as the project asks; by a line's number
    table: [LineRecord; 6],
}

impl Lines {
    pub fn new() -> Lines
        ensures { held_of result ≡ none_held }
    {
        Lines {
            table: [LineRecord { held: None }; 6],
        }
    }

    pub fn held(&self, line: Line) -> Option<Entry>
        ensures { result ≡ held_at (held_of self.now) line }
    {
        let LineRecord { held } = self.table[line.number() as usize];
        held
    }

    // Puts an entry into a line's held place, or empties it.
    pub fn put(&mut self, line: Line, entry: Option<Entry>)
        ensures { held_of self.new ≡ put_held (held_of self.old) (line_number line) entry }
    {
        self.table[line.number() as usize].held = entry;
    }

    // Throws away what is held at the lines that Legacy mode does not have.
    pub fn revert(&mut self)
        ensures { held_of self.new ≡ kept_held (held_of self.old) }
    {
        self.put(Line::Aux(Port::P1), None);
        self.put(Line::Aux(Port::P2), None);
        self.put(Line::Aux(Port::P3), None);
    }
}
