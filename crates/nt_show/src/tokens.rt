// The tokens of a text, each with its line and column, or the refusal; then the unit of the head and its count.
use crate::saying::Saying;
use crate::words::say_literal;
use nt_diag::{Fault, Refusal};
use nt_lexer::{Head, MOST_BYTES, Mark, Token, TokenKind, Word, tokens};
use nt_value::{Base, Text};
use std::alloc::{AllocError, Global};

fn said_mark(mark: Mark) -> &'static [u8] {
    match mark {
        Mark::Semicolon => b";".as_slice(),
        Mark::Colon => b":".as_slice(),
        Mark::Scope => b"::".as_slice(),
        Mark::Comma => b",".as_slice(),
        Mark::Dot => b".".as_slice(),
        Mark::Assign => b"=".as_slice(),
        Mark::LeftBracket => b"[".as_slice(),
        Mark::RightBracket => b"]".as_slice(),
        Mark::LeftBrace => b"{".as_slice(),
        Mark::RightBrace => b"}".as_slice(),
        Mark::LeftParen => b"(".as_slice(),
        Mark::RightParen => b")".as_slice(),
        Mark::TickBrace => b"'{".as_slice(),
        Mark::Hash => b"#".as_slice(),
        Mark::At => b"@".as_slice(),
        Mark::Question => b"?".as_slice(),
        Mark::PlusColon => b"+:".as_slice(),
        Mark::MinusColon => b"-:".as_slice(),
        Mark::PlusPlus => b"++".as_slice(),
        Mark::MinusMinus => b"--".as_slice(),
        Mark::Plus => b"+".as_slice(),
        Mark::Minus => b"-".as_slice(),
        Mark::Star => b"*".as_slice(),
        Mark::Slash => b"/".as_slice(),
        Mark::Percent => b"%".as_slice(),
        Mark::Not => b"!".as_slice(),
        Mark::Tilde => b"~".as_slice(),
        Mark::And => b"&".as_slice(),
        Mark::TildeAnd => b"~&".as_slice(),
        Mark::Or => b"|".as_slice(),
        Mark::TildeOr => b"~|".as_slice(),
        Mark::Xor => b"^".as_slice(),
        Mark::TildeXor => b"~^".as_slice(),
        Mark::XorTilde => b"^~".as_slice(),
        Mark::ShiftLeft => b"<<".as_slice(),
        Mark::ShiftRight => b">>".as_slice(),
        Mark::ArithmeticLeft => b"<<<".as_slice(),
        Mark::ArithmeticRight => b">>>".as_slice(),
        Mark::Less => b"<".as_slice(),
        Mark::LessEqual => b"<=".as_slice(),
        Mark::Greater => b">".as_slice(),
        Mark::GreaterEqual => b">=".as_slice(),
        Mark::Equal => b"==".as_slice(),
        Mark::NotEqual => b"!=".as_slice(),
        Mark::CaseEqual => b"===".as_slice(),
        Mark::NotCaseEqual => b"!==".as_slice(),
        Mark::AndAnd => b"&&".as_slice(),
        Mark::OrOr => b"||".as_slice(),
    }
}

fn said_word(word: Word) -> &'static [u8] {
    match word {
        Word::Package => b"package".as_slice(),
        Word::EndPackage => b"endpackage".as_slice(),
        Word::Import => b"import".as_slice(),
        Word::Parameter => b"parameter".as_slice(),
        Word::Localparam => b"localparam".as_slice(),
        Word::Typedef => b"typedef".as_slice(),
        Word::Nettype => b"nettype".as_slice(),
        Word::With => b"with".as_slice(),
        Word::Logic => b"logic".as_slice(),
        Word::Reg => b"reg".as_slice(),
        Word::Bit => b"bit".as_slice(),
        Word::Byte => b"byte".as_slice(),
        Word::Shortint => b"shortint".as_slice(),
        Word::Int => b"int".as_slice(),
        Word::Longint => b"longint".as_slice(),
        Word::Integer => b"integer".as_slice(),
        Word::Time => b"time".as_slice(),
        Word::Signed => b"signed".as_slice(),
        Word::Unsigned => b"unsigned".as_slice(),
        Word::Struct => b"struct".as_slice(),
        Word::Module => b"module".as_slice(),
        Word::EndModule => b"endmodule".as_slice(),
        Word::Input => b"input".as_slice(),
        Word::Output => b"output".as_slice(),
        Word::Inout => b"inout".as_slice(),
        Word::Wire => b"wire".as_slice(),
        Word::Tri => b"tri".as_slice(),
        Word::Var => b"var".as_slice(),
        Word::Interconnect => b"interconnect".as_slice(),
        Word::Assign => b"assign".as_slice(),
        Word::Initial => b"initial".as_slice(),
        Word::Always => b"always".as_slice(),
        Word::AlwaysComb => b"always_comb".as_slice(),
        Word::AlwaysFf => b"always_ff".as_slice(),
        Word::Function => b"function".as_slice(),
        Word::Automatic => b"automatic".as_slice(),
        Word::Static => b"static".as_slice(),
        Word::Void => b"void".as_slice(),
        Word::EndFunction => b"endfunction".as_slice(),
        Word::Begin => b"begin".as_slice(),
        Word::End => b"end".as_slice(),
        Word::If => b"if".as_slice(),
        Word::Else => b"else".as_slice(),
        Word::Case => b"case".as_slice(),
        Word::Default => b"default".as_slice(),
        Word::EndCase => b"endcase".as_slice(),
        Word::While => b"while".as_slice(),
        Word::Repeat => b"repeat".as_slice(),
        Word::For => b"for".as_slice(),
        Word::Forever => b"forever".as_slice(),
        Word::Foreach => b"foreach".as_slice(),
        Word::Or => b"or".as_slice(),
        Word::Wait => b"wait".as_slice(),
        Word::Return => b"return".as_slice(),
        Word::Break => b"break".as_slice(),
        Word::Continue => b"continue".as_slice(),
        Word::Posedge => b"posedge".as_slice(),
        Word::Negedge => b"negedge".as_slice(),
        Word::LeftOut => b"out".as_slice(),
    }
}

fn say_kind(kind: &TokenKind, out: &mut Saying) {
    match kind {
        TokenKind::Word(word) => out.put(said_word(*word)),
        TokenKind::Mark(mark) => out.put(said_mark(*mark)),
        TokenKind::Name(name) => {
            out.put(b"n");
            out.number(name.items().len() as u64);
        }
        TokenKind::System(name) => {
            out.put(b"$");
            out.put(name.items());
        }
        TokenKind::Number(literal) => say_literal(literal, out),
        TokenKind::Text(text) => {
            out.put(b"\"");
            out.put(text.items());
            out.put(b"\"");
        }
        TokenKind::End => out.put(b"end"),
    }
}

fn say_at(line: u32, column: u32, out: &mut Saying) {
    out.put(b"@");
    out.number(u64::from(line));
    out.put(b":");
    out.number(u64::from(column));
    out.put(b" ");
}

fn say_list(list: &[Token], out: &mut Saying) {
    for token in list {
        say_kind(&token.kind, out);
        say_at(token.at.line, token.at.column, out);
    }
}

fn say_refusal(refusal: Refusal, out: &mut Saying) {
    out.put(refusal.rule.code().as_bytes());
    say_at(refusal.place.line, refusal.place.column, out);
}

fn said_base(base: Base) -> &'static [u8] {
    match base {
        Base::S => b"s ".as_slice(),
        Base::Ms => b"m ".as_slice(),
        Base::Us => b"u ".as_slice(),
        Base::Ns => b"n ".as_slice(),
        Base::Ps => b"p ".as_slice(),
        Base::Fs => b"f ".as_slice(),
    }
}

fn say_head(head: &Head, out: &mut Saying) {
    if let Some(unit) = head.unit {
        out.number(u64::from(unit.ten));
        out.put(said_base(unit.base));
    }
    out.number(u64::from(head.count));
}

/// Adds what the tokens of the text are.
pub(crate) fn tell_tokens(alloc: Global, bytes: &[u8], out: &mut Text) -> Result<(), AllocError> {
    if bytes.len() > MOST_BYTES as usize {
        return out.push_bytes(b"too long");
    }
    let mut head = Head {
        unit: None,
        count: 0,
    };
    let mut saying = Saying::new(alloc);
    match tokens(alloc, 0, bytes, &mut head) {
        Ok(list) => say_list(&list, &mut saying),
        Err(Fault::Refused(refusal)) => say_refusal(refusal, &mut saying),
        Err(Fault::OutOfMemory(refused)) => return Err(refused),
    }
    say_head(&head, &mut saying);
    out.push_bytes(saying.whole()?.items())
}
