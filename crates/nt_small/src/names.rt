// The forms of names and numbers.
ghost use Rattle.std.specs.Prelude.{◌≡◌, ◌↔◌, IsTrue};
ghost use Rattle.std.specs.List.{list_all, list_any};
ghost use Rattle.std.specs.Str.{bytes_eq};
ghost use Rattle.nt_small.specs.Grammar.{IsName, IsNumber, has_name_form, reserved, is_digit};

use crate::bytes::{is_digit, is_letter, is_word_byte, same};

fn is_one_of(name: &[u8], words: &[&[u8]]) -> bool
    ensures { result ≡ list_any (λ w. bytes_eq name.now w.now) words.now }
{
    words.iter().any(|word| same(name, word))
}

fn is_reserved(name: &[u8]) -> bool
    ensures { result ≡ list_any (bytes_eq name.now) reserved }
{
    let words: [&[u8]; 14] = [
        b"bit", b"buf", b"do", b"end", b"for", b"if", b"int", b"nor", b"or", b"ref", b"reg",
        b"tri", b"var", b"wor",
    ];
    is_one_of(name, &words)
}

fn has_name_form(name: &[u8]) -> bool
    ensures { result ≡ has_name_form name.now }
{
    match name {
        [] => false,
        [first, rest @ ..] => {
            is_letter(*first) && rest.iter().all(|b| is_word_byte(*b)) && rest.len() <= 2
        }
    }
}

/// Whether these bytes are a name: a letter and at most two letters or digits, and no reserved word.
pub fn is_name(name: &[u8]) -> bool
    ensures { IsTrue result ↔ IsName name.now }
{
    has_name_form(name) && !is_reserved(name)
}

fn all_digits(digits: &[u8]) -> bool
    ensures { result ≡ list_all is_digit digits.now }
{
    digits.iter().all(|b| is_digit(*b))
}

/// Whether these bytes are one to nine digits.
pub fn is_number(digits: &[u8]) -> bool
    ensures { IsTrue result ↔ IsNumber digits.now }
{
    digits.len() >= 1 && digits.len() <= 9 && all_digits(digits)
}
