//! Several fields of a line at once.
ghost use Rattle.trace_text.specs.Parts.{TakesTwo, TakesThree, TakesFour, TakesFive, TakesSix, TakesSeven, IsDone};

use crate::field_cursor::FieldCursor;

/// Fields of a line.
pub type Two<'a> = (&'a [u8], &'a [u8]);

pub type Three<'a> = (&'a [u8], &'a [u8], &'a [u8]);

pub type Four<'a> = (&'a [u8], &'a [u8], &'a [u8], &'a [u8]);

pub type Five<'a> = (&'a [u8], &'a [u8], &'a [u8], &'a [u8], &'a [u8]);

pub type Six<'a> = (&'a [u8], &'a [u8], &'a [u8], &'a [u8], &'a [u8], &'a [u8]);

pub type Seven<'a> = (
    &'a [u8],
    &'a [u8],
    &'a [u8],
    &'a [u8],
    &'a [u8],
    &'a [u8],
    &'a [u8],
);

impl<'a> FieldCursor<'a> {
    /// The next two parts, if so many are left; and so on.
    pub fn next_two(&mut self) -> Option<Two<'a>>
        ensures { TakesTwo result self.old self.new }
    {
        Some((self.next_part()?, self.next_part()?))
    }

    pub fn next_three(&mut self) -> Option<Three<'a>>
        ensures { TakesThree result self.old self.new }
    {
        Some((self.next_part()?, self.next_part()?, self.next_part()?))
    }

    pub fn next_four(&mut self) -> Option<Four<'a>>
        ensures { TakesFour result self.old self.new }
    {
        let (a, b) = self.next_two()?;
        let (c, d) = self.next_two()?;
        Some((a, b, c, d))
    }

    pub fn next_five(&mut self) -> Option<Five<'a>>
        ensures { TakesFive result self.old self.new }
    {
        let (a, b) = self.next_two()?;
        let (c, d, e) = self.next_three()?;
        Some((a, b, c, d, e))
    }

    pub fn next_six(&mut self) -> Option<Six<'a>>
        ensures { TakesSix result self.old self.new }
    {
        let (a, b, c) = self.next_three()?;
        let (d, e, f) = self.next_three()?;
        Some((a, b, c, d, e, f))
    }

    pub fn next_seven(&mut self) -> Option<Seven<'a>>
        ensures { TakesSeven result self.old self.new }
    {
        let (a, b, c) = self.next_three()?;
        let (d, e, f, g) = self.next_four()?;
        Some((a, b, c, d, e, f, g))
    }

    /// Whether no part is left.
    pub fn is_done(&mut self) -> bool
        ensures { IsDone result self.old }
    {
        self.next_part().is_none()
    }
}
