// The word reader: a text and a position in it, kept together. A rule of the project names this form: each function is
// thin, and the work is done by those of `tokens`, whose parameters are plain.
#![tactic(auto)]

pub mod scan;

ghost use Rattle.std.specs.Prelude.{◌≡◌};
ghost use Rattle.tokens.specs.Token.{token_at};

use tokens::Token;

#[derive(Clone, Copy)]
pub struct WordReader<'a> {
    text: &'a [u8],
    pos: usize,
}

impl<'a> WordReader<'a> {
    // A reader at the start of a text.
    pub fn new(text: &'a [u8]) -> WordReader<'a>
        ensures { (result.text ≡ text.entry) × (result.pos ≡ 0) }
    {
        WordReader { text, pos: 0 }
    }

    // A reader of the same text at another position.
    pub fn moved(self, to: usize) -> WordReader<'a>
        ensures { (result.text ≡ self.entry.text) × (result.pos ≡ to) }
    {
        WordReader { pos: to, ..self }
    }

    // The first token from the position on.
    pub fn peek(self) -> Token
        ensures { result ≡ token_at self.entry.text.now self.entry.pos }
    {
        tokens::token_at(self.text, self.pos)
    }
}

// The first token from a position on, by a reader of the text that is moved there.
pub fn token_from(text: &[u8], at: usize) -> Token
    ensures { result ≡ token_at text.now at }
{
    WordReader::new(text).moved(at).peek()
}
