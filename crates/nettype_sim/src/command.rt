// The words of a command.
ghost use Rattle.std.specs.Prelude.{◌≡◌, ◌↔◌, ◌<◌, IsTrue, IfSome, IfNone, List, ℕ, length, map, slice_index_or, [], string_bytes};
ghost use Rattle.std.specs.List.{All};
ghost use Rattle.std.specs.Str.{bytes_eq};
ghost use Rattle.nettype_sim.specs.Words.{AreRunWords, IsFileWord, IsPrintable, HasRunForm, texts_of};

use nt_small::is_name;

/// run FILE --top NAME --until T --workers 1
#[derive(Clone, Copy)]
pub struct Command<'a> {
    pub file: &'a str,
    pub top: &'a str,
    pub until: u64,
}

fn same(a: &[u8], b: &[u8]) -> bool
    ensures { result ≡ bytes_eq a.now b.now }
{
    a == b
}

fn word_at(words: &[String], at: usize) -> &str
    requires { at < length words.now }
    ensures { result.now ≡ slice_index_or (texts_of words.now) at [] }
{
    words[at].as_str()
}

fn is_printable(bytes: &[u8]) -> bool
    ensures { IsTrue result ↔ All IsPrintable bytes.now }
{
    bytes.iter().all(|b| *b >= 32 && *b != 127)
}

fn is_file_word(word: &str) -> bool
    ensures { IsTrue result ↔ IsFileWord word.now }
{
    let bytes = word.as_bytes();
    bytes.len() >= 1 && bytes[0] != b'-' && is_printable(bytes)
}

fn has_run_form(words: &[String]) -> bool
    requires { length words.now ≡ 8 }
    ensures { IsTrue result ↔ HasRunForm (texts_of words.now) }
{
    same(word_at(words, 0).as_bytes(), b"run")
        && same(word_at(words, 2).as_bytes(), b"--top")
        && same(word_at(words, 4).as_bytes(), b"--until")
        && same(word_at(words, 5).as_bytes(), b"0")
        && same(word_at(words, 6).as_bytes(), b"--workers")
        && same(word_at(words, 7).as_bytes(), b"1")
}

/// The command that the words give, if they are in its grammar.
#[tactic(auto, using(crate::proofs::Commands::form_of))]
pub fn command_of(words: &[String]) -> Option<Command<'_>>
    ensures found { IfSome result (λ c. AreRunWords (texts_of words.now) c.file.now c.top.now c.until) }
    ensures none { IfNone result ((file top : List ℕ) (until : ℕ) → AreRunWords (texts_of words.now) file top until → ⊥) }
{
    if words.len() != 8 {
        return None;
    }
    let file = word_at(words, 1);
    let top = word_at(words, 3);
    if !has_run_form(words) || !is_file_word(file) || !is_name(top.as_bytes()) {
        return None;
    }
    // The one time limit that is taken today.
    let until = 0;
    Some(Command { file, top, until })
}
