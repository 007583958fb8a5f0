// A reader over a session file, handing out one record after another.
ghost use Rattle.std.specs.Prelude.{◌≡◌, ◌-◌, length};
ghost use Rattle.session.specs.Files.{barred, ReadsBack};
ghost use Rattle.session.specs.Readers.{file_of, left_of, told, Opened, Advanced, Step, Keeps};

use crate::decode::first;
use crate::record_kinds::Record;
use ps2::refusal::Refusal;

pub const LONGEST_FILE: usize = 65_536;

// What a program reads: one byte more, so that too long a file is seen to be too long.
pub const MOST_READ: u64 = LONGEST_FILE as u64 + 1;

// The bytes left are a slice beside the file, and no place in it: nothing then needs a bound.
#[derive(Clone, Copy)]
pub struct Reader<'a> {
    file: &'a [u8],
    left: &'a [u8],
}

impl<'a> Reader<'a> {
    // A reader at the start of a file.
    pub fn open(file: &'a [u8]) -> Result<Reader<'a>, Refusal>
        ensures { Opened (barred file.now) file.now result }
    {
        if file.len() > LONGEST_FILE {
            return Err(Refusal::FileTooLong);
        }
        if file.is_empty() {
            return Err(Refusal::FileEndsInside);
        }
        Ok(Reader { file, left: file })
    }

    // Where in the file the next record stands.
    pub fn place(&self) -> usize
        ensures { result ≡ length (file_of self.now) - length (left_of self.now) }
    {
        self.file.len().saturating_sub(self.left.len())
    }

    fn advance(&mut self) -> Result<Option<Record<'a>>, Refusal>
        ensures { Advanced self.old (told result) self.new }
    {
        if self.left.is_empty() {
            return Ok(None);
        }
        let (next, rest) = first(self.left)?;
        self.left = rest;
        Ok(Some(next))
    }

    // The next record, if any is left.
    #[tactic(auto, using(crate::proofs::Steps::reading, crate::proofs::Back::reads_back))]
    pub fn next_record(&mut self) -> Result<Option<Record<'a>>, Refusal>
        ensures step { Step self.old (told result) self.new }
        ensures keeps { Keeps self.old (told result) self.new }
        ensures reads_back { ReadsBack }
    {
        self.advance()
    }
}
