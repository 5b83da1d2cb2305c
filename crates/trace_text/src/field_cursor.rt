ghost use Rattle.std.specs.Prelude.{◌≡◌, ◌==◌, ◌∷◌, ◌<◌, length, IfSome, position};
ghost use Rattle.trace_text.specs.Answers.{TakesFirst, parts_left, parts_of};

use std::marker::Model;

/// Goes over the fields of a line, or the lines of a text: over the parts that are left, where it is cut at each separator.
/// Contracts see it as the list of these parts.
#[derive(Drop)]
pub struct FieldCursor<'a> {
    rest: Option<&'a [u8]>,
    separator: u8,
}

impl<'a> Model for FieldCursor<'a> {
    ghost use Rattle.std.specs.Prelude.{List, ℕ};
    ghost use Rattle.trace_text.specs.Answers.{parts_left};

    ghost Value = { List (List ℕ) };

    ghost view = { λ p. parts_left p.rest p.separator };
}

impl<'a> FieldCursor<'a> {
    /// All parts of these bytes.
    pub fn new(bytes: &'a [u8], separator: u8) -> FieldCursor<'a>
        ensures { result ≡ parts_of separator bytes.now }
    {
        FieldCursor {
            rest: Some(bytes),
            separator,
        }
    }

    /// The next part, if one is left.
    pub fn next_part(&mut self) -> Option<&'a [u8]>
        ensures { TakesFirst result self.old self.new }
    {
        let rest = self.rest?;
        let (part, after) = cut_first(rest, self.separator);
        self.rest = after;
        Some(part)
    }
}

/// The first part, and what stands after its separator, if it has one.
fn cut_first(bytes: &[u8], separator: u8) -> (&[u8], Option<&[u8]>)
    ensures { parts_of separator bytes.now ≡ result.0.now ∷ parts_left result.1 separator }
{
    match place_of(bytes, separator) {
        Some(at) => {
            let (part, _) = bytes.split_at(at);
            let (_, after) = bytes.split_at(at + 1);
            (part, Some(after))
        }
        None => (bytes, None),
    }
}

/// Where this byte stands first.
fn place_of(bytes: &[u8], byte: u8) -> Option<usize>
    ensures place { result ≡ position (λ b. b == byte) bytes.now }
    ensures within { IfSome result (λ at. at < length bytes.now) }
{
    bytes.iter().position(|b| *b == byte)
}
