// The classes of bytes.
ghost use Rattle.std.specs.Prelude.{◌≡◌};
ghost use Rattle.std.specs.Str.{bytes_eq};
ghost use Rattle.nt_small.specs.Grammar.{is_white, is_word_byte, is_letter, is_digit};

#[tactic(auto, unfolding(crate::specs::Grammar::is_white))]
pub fn is_white(byte: u8) -> bool
    ensures { result ≡ is_white byte }
{
    byte == 9 || byte == 10 || byte == 12 || byte == 13 || byte == 32
}

#[tactic(auto, unfolding(crate::specs::Grammar::is_digit))]
pub fn is_digit(byte: u8) -> bool
    ensures { result ≡ is_digit byte }
{
    byte >= b'0' && byte <= b'9'
}

#[tactic(auto, unfolding(crate::specs::Grammar::is_letter))]
pub fn is_letter(byte: u8) -> bool
    ensures { result ≡ is_letter byte }
{
    (byte >= b'A' && byte <= b'Z') || (byte >= b'a' && byte <= b'z')
}

#[tactic(auto, unfolding(crate::specs::Grammar::is_word_byte))]
pub fn is_word_byte(byte: u8) -> bool
    ensures { result ≡ is_word_byte byte }
{
    is_letter(byte) || is_digit(byte)
}

pub fn same(a: &[u8], b: &[u8]) -> bool
    ensures { result ≡ bytes_eq a.now b.now }
{
    a == b
}
