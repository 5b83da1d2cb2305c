ghost use Rattle.std.specs.Prelude.{◌≡◌, ◌==◌, ◌∷◌, ◌<◌, ◌≤◌, length, IfSome, position};
ghost use Rattle.spv_text.specs.Parts.{FirstLine, TakesFirst, is_done, parts_left, parts_of};

use std::marker::Model;

/// Goes over the parts of a text that is cut at each separator. Contracts see it as the list of the parts that are left.
#[derive(Drop)]
pub struct Parts<'a> {
    rest: Option<&'a [u8]>,
    separator: u8,
}

impl<'a> Model for Parts<'a> {
    ghost use Rattle.std.specs.Prelude.{List, ℕ};
    ghost use Rattle.spv_text.specs.Parts.{parts_left};

    ghost Value = { List (List ℕ) };

    ghost view = { λ p. parts_left p.rest p.separator };
}

impl<'a> Parts<'a> {
    /// All parts of these bytes.
    pub fn new(bytes: &'a [u8], separator: u8) -> Parts<'a>
        ensures { result ≡ parts_of separator bytes.now }
    {
        Parts {
            rest: Some(bytes),
            separator,
        }
    }

    /// The next part, if one is left.
    pub fn next_part(&mut self) -> Option<&'a [u8]>
        ensures { TakesFirst result self.old self.new }
    {
        let rest = self.rest?;
        let (part, after) = cut_first(rest, self.separator);
        self.rest = after;
        Some(part)
    }

    /// Whether no part is left.
    fn is_done(&self) -> bool
        ensures { result ≡ is_done self.now }
    {
        self.rest.is_none()
    }

    /// The next part as a line, and whether a separator ended it: behind the last separator stands no line where nothing stands.
    pub fn next_line(&mut self) -> Option<(&'a [u8], bool)>
        ensures line { FirstLine result self.old self.new }
        ensures most { length self.new ≤ length self.old }
        ensures fewer { IfSome result (λ _. length self.new < length self.old) }
    {
        let text = self.next_part()?;
        let ended = !self.is_done();
        if !ended && text.is_empty() {
            return None;
        }
        Some((text, ended))
    }
}

/// The first part, and what stands after its separator, if it has one.
fn cut_first(bytes: &[u8], separator: u8) -> (&[u8], Option<&[u8]>)
    ensures { parts_of separator bytes.now ≡ result.0.now ∷ parts_left result.1 separator }
{
    match place_of(bytes, separator) {
        Some(at) => {
            let (part, _) = bytes.split_at(at);
            let (_, after) = bytes.split_at(at + 1);
            (part, Some(after))
        }
        None => (bytes, None),
    }
}

/// Where this byte stands first.
fn place_of(bytes: &[u8], byte: u8) -> Option<usize>
    ensures place { result ≡ position (λ b. b == byte) bytes.now }
    ensures within { IfSome result (λ at. at < length bytes.now) }
{
    bytes.iter().position(|b| *b == byte)
}
