//! The lines by their first fields.
ghost use Rattle.std.specs.Prelude.{◌≡◌, bytes_eq};
ghost use Rattle.std.specs.List.{find};
ghost use Rattle.std.specs.Option.{option_map};
ghost use Rattle.trace_text.specs.LineKinds.{form_of, forms_from};

/// What the first field of a line says that it is.
#[derive(Clone, Copy, Debug, Drop, PartialEq, Eq)]
pub enum LineKind {
    Data,
    Code,
    Layout,
    Vertex,
    Prerast,
    Fragment,
    Output,
    Pipe,
    Target,
    Push,
    Vbuf,
    Ubuf,
    Scissor,
    Bind,
    Draw,
}

/// The kind of a line with this first field.
pub fn kind_of(word: &[u8]) -> Option<LineKind>
    ensures { option_map form_of result ≡ find (λ f. bytes_eq f.word word.now) (forms_from 0) }
{
    if b"data".as_slice() == word {
        return Some(LineKind::Data);
    }
    if b"code".as_slice() == word {
        return Some(LineKind::Code);
    }
    if b"layout".as_slice() == word {
        return Some(LineKind::Layout);
    }
    if b"vertex".as_slice() == word {
        return Some(LineKind::Vertex);
    }
    if b"prerast".as_slice() == word {
        return Some(LineKind::Prerast);
    }
    kind_from_fragment(word)
}

/// The same from `fragment` on.
fn kind_from_fragment(word: &[u8]) -> Option<LineKind>
    ensures { option_map form_of result ≡ find (λ f. bytes_eq f.word word.now) (forms_from 5) }
{
    if b"fragment".as_slice() == word {
        return Some(LineKind::Fragment);
    }
    if b"output".as_slice() == word {
        return Some(LineKind::Output);
    }
    if b"pipe".as_slice() == word {
        return Some(LineKind::Pipe);
    }
    if b"target".as_slice() == word {
        return Some(LineKind::Target);
    }
    if b"push".as_slice() == word {
        return Some(LineKind::Push);
    }
    kind_from_vbuf(word)
}

/// The same from `vbuf` on.
fn kind_from_vbuf(word: &[u8]) -> Option<LineKind>
    ensures { option_map form_of result ≡ find (λ f. bytes_eq f.word word.now) (forms_from 10) }
{
    if b"vbuf".as_slice() == word {
        return Some(LineKind::Vbuf);
    }
    if b"ubuf".as_slice() == word {
        return Some(LineKind::Ubuf);
    }
    if b"scissor".as_slice() == word {
        return Some(LineKind::Scissor);
    }
    if b"bind".as_slice() == word {
        return Some(LineKind::Bind);
    }
    if b"draw".as_slice() == word {
        return Some(LineKind::Draw);
    }
    None
}
