// What a source text is cut into.
use nt_diag::Rule;
use nt_value::{Base, Digit, Literal, Name, Place, Text, Unit};

/// A reserved word (IEEE 1800-2017, 5.6.2).
#[derive(Clone, Copy, Debug, PartialEq, Eq)]
pub enum Word {
    /// `package`
    Package,
    /// `endpackage`
    EndPackage,
    /// `import`
    Import,
    /// `parameter`
    Parameter,
    /// `localparam`
    Localparam,
    /// `typedef`
    Typedef,
    /// `nettype`
    Nettype,
    /// `with`
    With,
    /// `logic`
    Logic,
    /// `reg`
    Reg,
    /// `bit`
    Bit,
    /// `byte`
    Byte,
    /// `shortint`
    Shortint,
    /// `int`
    Int,
    /// `longint`
    Longint,
    /// `integer`
    Integer,
    /// `time`
    Time,
    /// `signed`
    Signed,
    /// `unsigned`
    Unsigned,
    /// `struct`
    Struct,
    /// `module`
    Module,
    /// `endmodule`
    EndModule,
    /// `input`
    Input,
    /// `output`
    Output,
    /// `inout`
    Inout,
    /// `wire`
    Wire,
    /// `tri`
    Tri,
    /// `var`
    Var,
    /// `interconnect`
    Interconnect,
    /// `assign`
    Assign,
    /// `initial`
    Initial,
    /// `always`
    Always,
    /// `always_comb`
    AlwaysComb,
    /// `always_ff`
    AlwaysFf,
    /// `function`
    Function,
    /// `automatic`
    Automatic,
    /// `static`
    Static,
    /// `void`
    Void,
    /// `endfunction`
    EndFunction,
    /// `begin`
    Begin,
    /// `end`
    End,
    /// `if`
    If,
    /// `else`
    Else,
    /// `case`
    Case,
    /// `default`
    Default,
    /// `endcase`
    EndCase,
    /// `while`
    While,
    /// `repeat`
    Repeat,
    /// `for`
    For,
    /// `forever`
    Forever,
    /// `foreach`
    Foreach,
    /// `or`
    Or,
    /// `wait`
    Wait,
    /// `return`
    Return,
    /// `break`
    Break,
    /// `continue`
    Continue,
    /// `posedge`
    Posedge,
    /// `negedge`
    Negedge,
    /// A reserved word of the standard that this language leaves out.
    LeftOut,
}

/// A mark: an operator or a punctuation (IEEE 1800-2017, 5.5).
#[derive(Clone, Copy, Debug, PartialEq, Eq)]
pub enum Mark {
    /// `;`
    Semicolon,
    /// `:`
    Colon,
    /// `::`
    Scope,
    /// `,`
    Comma,
    /// `.`
    Dot,
    /// `=`
    Assign,
    /// `[`
    LeftBracket,
    /// `]`
    RightBracket,
    /// `{`
    LeftBrace,
    /// `}`
    RightBrace,
    /// `(`
    LeftParen,
    /// `)`
    RightParen,
    /// `'{`
    TickBrace,
    /// `#`
    Hash,
    /// `@`
    At,
    /// `?`
    Question,
    /// `+:`
    PlusColon,
    /// `-:`
    MinusColon,
    /// `++`
    PlusPlus,
    /// `--`
    MinusMinus,
    /// `+`
    Plus,
    /// `-`
    Minus,
    /// `*`
    Star,
    /// `/`
    Slash,
    /// `%`
    Percent,
    /// `!`
    Not,
    /// `~`
    Tilde,
    /// `&`
    And,
    /// `~&`
    TildeAnd,
    /// `|`
    Or,
    /// `~|`
    TildeOr,
    /// `^`
    Xor,
    /// `~^`
    TildeXor,
    /// `^~`
    XorTilde,
    /// `<<`
    ShiftLeft,
    /// `>>`
    ShiftRight,
    /// `<<<`
    ArithmeticLeft,
    /// `>>>`
    ArithmeticRight,
    /// `<`
    Less,
    /// `<=`
    LessEqual,
    /// `>`
    Greater,
    /// `>=`
    GreaterEqual,
    /// `==`
    Equal,
    /// `!=`
    NotEqual,
    /// `===`
    CaseEqual,
    /// `!==`
    NotCaseEqual,
    /// `&&`
    AndAnd,
    /// `||`
    OrOr,
}

/// What a token is.
#[derive(Debug, Drop)]
pub enum TokenKind {
    Word(Word),
    Mark(Mark),
    Name(Name),
    /// A system name, without its leading `$` (IEEE 1800-2017, 5.6.3).
    System(Name),
    Number(Literal),
    /// A text with its escapes replaced by what they stand for (IEEE 1800-2017, 5.9).
    Text(Text),
    /// The end of the file.
    End,
}

/// A token and the place of its first byte.
#[derive(Debug, Drop)]
pub struct Token {
    pub kind: TokenKind,
    pub at: Place,
}

/// What the files of a run have in common, as far as they are read: the unit that their directives
/// state, and the count of their tokens.
#[derive(Clone, Copy, Debug, PartialEq, Eq)]
pub struct Head {
    pub unit: Option<Unit>,
    pub count: u32,
}

/// What a byte may begin.
#[derive(Clone, Copy, Debug, PartialEq, Eq)]
pub enum Sort {
    /// White space.
    Blank,
    /// A letter or `_`, which begins a name.
    Letter,
    /// A decimal digit.
    Digit,
    /// `$`
    Dollar,
    /// `"`
    Quote,
    /// `'`
    Tick,
    /// The grave accent, which begins a directive.
    Grave,
    /// Any other byte that a mark may have.
    Sign,
    /// A byte with which nothing begins.
    Bad,
}

/// The bytes that go on with what has begun.
#[derive(Clone, Copy, Debug, PartialEq, Eq)]
pub enum Run {
    Blank,
    Name,
    Number,
    /// All bytes of one line.
    Line,
    /// The bytes that a text may have.
    Text,
}

/// The base of a based literal (IEEE 1800-2017, 5.7.1).
#[derive(Clone, Copy, Debug, PartialEq, Eq)]
pub enum Radix {
    Binary,
    Octal,
    Decimal,
    Hex,
}

/// A based literal without its size: whether it is signed, its radix, how many bytes stand before its
/// digits, and how many digits there are, with `_`.
#[derive(Clone, Copy, Debug, PartialEq, Eq)]
pub struct Based {
    pub signed: bool,
    pub radix: Radix,
    pub before: usize,
    pub len: usize,
}

/// What stands at the front of a text. The numbers count bytes.
#[derive(Debug, Drop)]
pub enum Piece {
    /// White space, a comment, or a directive without effect.
    Skip(usize),
    /// `timescale` with its unit.
    Scale(usize, Unit),
    /// A token.
    Take(usize, TokenKind),
    /// A fault, so many bytes from the front.
    Wrong(Rule, usize),
}

/// The reserved words and how they are written, in the order of their letters.
pub(crate) const WORDS: [(&[u8], Word); 118] = [
    (b"alias", Word::LeftOut),
    (b"always", Word::Always),
    (b"always_comb", Word::AlwaysComb),
    (b"always_ff", Word::AlwaysFf),
    (b"always_latch", Word::LeftOut),
    (b"assert", Word::LeftOut),
    (b"assign", Word::Assign),
    (b"automatic", Word::Automatic),
    (b"begin", Word::Begin),
    (b"bind", Word::LeftOut),
    (b"bit", Word::Bit),
    (b"break", Word::Break),
    (b"buf", Word::LeftOut),
    (b"byte", Word::Byte),
    (b"case", Word::Case),
    (b"casex", Word::LeftOut),
    (b"casez", Word::LeftOut),
    (b"chandle", Word::LeftOut),
    (b"class", Word::LeftOut),
    (b"clocking", Word::LeftOut),
    (b"config", Word::LeftOut),
    (b"continue", Word::Continue),
    (b"covergroup", Word::LeftOut),
    (b"default", Word::Default),
    (b"disable", Word::LeftOut),
    (b"do", Word::LeftOut),
    (b"else", Word::Else),
    (b"end", Word::End),
    (b"endcase", Word::EndCase),
    (b"endclass", Word::LeftOut),
    (b"endfunction", Word::EndFunction),
    (b"endmodule", Word::EndModule),
    (b"endpackage", Word::EndPackage),
    (b"endtask", Word::LeftOut),
    (b"enum", Word::LeftOut),
    (b"event", Word::LeftOut),
    (b"export", Word::LeftOut),
    (b"extern", Word::LeftOut),
    (b"final", Word::LeftOut),
    (b"for", Word::For),
    (b"force", Word::LeftOut),
    (b"foreach", Word::Foreach),
    (b"forever", Word::Forever),
    (b"fork", Word::LeftOut),
    (b"function", Word::Function),
    (b"generate", Word::LeftOut),
    (b"genvar", Word::LeftOut),
    (b"if", Word::If),
    (b"import", Word::Import),
    (b"initial", Word::Initial),
    (b"inout", Word::Inout),
    (b"input", Word::Input),
    (b"int", Word::Int),
    (b"integer", Word::Integer),
    (b"interconnect", Word::Interconnect),
    (b"interface", Word::LeftOut),
    (b"join", Word::LeftOut),
    (b"localparam", Word::Localparam),
    (b"logic", Word::Logic),
    (b"longint", Word::Longint),
    (b"modport", Word::LeftOut),
    (b"module", Word::Module),
    (b"nand", Word::LeftOut),
    (b"negedge", Word::Negedge),
    (b"nettype", Word::Nettype),
    (b"nor", Word::LeftOut),
    (b"or", Word::Or),
    (b"output", Word::Output),
    (b"package", Word::Package),
    (b"packed", Word::LeftOut),
    (b"parameter", Word::Parameter),
    (b"posedge", Word::Posedge),
    (b"priority", Word::LeftOut),
    (b"program", Word::LeftOut),
    (b"property", Word::LeftOut),
    (b"pulldown", Word::LeftOut),
    (b"pullup", Word::LeftOut),
    (b"rand", Word::LeftOut),
    (b"real", Word::LeftOut),
    (b"realtime", Word::LeftOut),
    (b"ref", Word::LeftOut),
    (b"reg", Word::Reg),
    (b"release", Word::LeftOut),
    (b"repeat", Word::Repeat),
    (b"return", Word::Return),
    (b"sequence", Word::LeftOut),
    (b"shortint", Word::Shortint),
    (b"shortreal", Word::LeftOut),
    (b"signed", Word::Signed),
    (b"specify", Word::LeftOut),
    (b"static", Word::Static),
    (b"string", Word::LeftOut),
    (b"struct", Word::Struct),
    (b"supply0", Word::LeftOut),
    (b"supply1", Word::LeftOut),
    (b"tagged", Word::LeftOut),
    (b"task", Word::LeftOut),
    (b"time", Word::Time),
    (b"tri", Word::Tri),
    (b"tri0", Word::LeftOut),
    (b"tri1", Word::LeftOut),
    (b"triand", Word::LeftOut),
    (b"trior", Word::LeftOut),
    (b"trireg", Word::LeftOut),
    (b"typedef", Word::Typedef),
    (b"union", Word::LeftOut),
    (b"unique", Word::LeftOut),
    (b"unsigned", Word::Unsigned),
    (b"uwire", Word::LeftOut),
    (b"var", Word::Var),
    (b"virtual", Word::LeftOut),
    (b"void", Word::Void),
    (b"wait", Word::Wait),
    (b"wand", Word::LeftOut),
    (b"while", Word::While),
    (b"wire", Word::Wire),
    (b"with", Word::With),
    (b"wor", Word::LeftOut),
];

/// Where the words that begin with each letter stand among them, from `a` to `z`: the first, and the one after the last.
pub(crate) const WORD_RANGES: [(usize, usize); 26] = [
    (0, 8),
    (8, 14),
    (14, 23),
    (23, 26),
    (26, 38),
    (38, 45),
    (45, 47),
    (0, 0),
    (47, 56),
    (56, 57),
    (0, 0),
    (57, 60),
    (60, 62),
    (62, 66),
    (66, 68),
    (68, 77),
    (0, 0),
    (77, 85),
    (85, 95),
    (95, 105),
    (105, 109),
    (109, 112),
    (112, 118),
    (0, 0),
    (0, 0),
    (0, 0),
];

/// The marks and how they are written: by their first byte, and of those the longer ones first.
pub(crate) const MARKS: [(&[u8], Mark); 48] = [
    (b"!==", Mark::NotCaseEqual),
    (b"!=", Mark::NotEqual),
    (b"!", Mark::Not),
    (b"#", Mark::Hash),
    (b"%", Mark::Percent),
    (b"&&", Mark::AndAnd),
    (b"&", Mark::And),
    (b"'{", Mark::TickBrace),
    (b"(", Mark::LeftParen),
    (b")", Mark::RightParen),
    (b"*", Mark::Star),
    (b"++", Mark::PlusPlus),
    (b"+:", Mark::PlusColon),
    (b"+", Mark::Plus),
    (b",", Mark::Comma),
    (b"--", Mark::MinusMinus),
    (b"-:", Mark::MinusColon),
    (b"-", Mark::Minus),
    (b".", Mark::Dot),
    (b"/", Mark::Slash),
    (b"::", Mark::Scope),
    (b":", Mark::Colon),
    (b";", Mark::Semicolon),
    (b"<<<", Mark::ArithmeticLeft),
    (b"<<", Mark::ShiftLeft),
    (b"<=", Mark::LessEqual),
    (b"<", Mark::Less),
    (b"===", Mark::CaseEqual),
    (b"==", Mark::Equal),
    (b"=", Mark::Assign),
    (b">>>", Mark::ArithmeticRight),
    (b">=", Mark::GreaterEqual),
    (b">>", Mark::ShiftRight),
    (b">", Mark::Greater),
    (b"?", Mark::Question),
    (b"@", Mark::At),
    (b"[", Mark::LeftBracket),
    (b"]", Mark::RightBracket),
    (b"^~", Mark::XorTilde),
    (b"^", Mark::Xor),
    (b"{", Mark::LeftBrace),
    (b"||", Mark::OrOr),
    (b"|", Mark::Or),
    (b"}", Mark::RightBrace),
    (b"~&", Mark::TildeAnd),
    (b"~^", Mark::TildeXor),
    (b"~|", Mark::TildeOr),
    (b"~", Mark::Tilde),
];

/// Where the marks that begin with each byte stand among them, from `!` to `/`: the first, and the one after the last.
pub(crate) const LOW_MARKS: [(usize, usize); 15] = [
    (0, 3),
    (0, 0),
    (3, 4),
    (0, 0),
    (4, 5),
    (5, 7),
    (7, 8),
    (8, 9),
    (9, 10),
    (10, 11),
    (11, 14),
    (14, 15),
    (15, 18),
    (18, 19),
    (19, 20),
];

/// Where the marks that begin with each byte stand among them, from `:` to `@`: the first, and the one after the last.
pub(crate) const MIDDLE_MARKS: [(usize, usize); 7] = [
    (20, 22),
    (22, 23),
    (23, 27),
    (27, 30),
    (30, 34),
    (34, 35),
    (35, 36),
];

/// Where the marks that begin with each byte stand among them, from `[` to `^`: the first, and the one after the last.
pub(crate) const HIGH_MARKS: [(usize, usize); 4] = [(36, 37), (0, 0), (37, 38), (38, 40)];

/// Where the marks that begin with each byte stand among them, from `{` to `~`: the first, and the one after the last.
pub(crate) const TOP_MARKS: [(usize, usize); 4] = [(40, 41), (41, 43), (43, 44), (44, 48)];

/// The powers of ten of a unit of time.
pub(crate) const TENS: [(&[u8], u8); 3] = [(b"1", 0), (b"10", 1), (b"100", 2)];

/// The bases of a unit of time.
pub(crate) const BASES: [(&[u8], Base); 6] = [
    (b"s", Base::S),
    (b"ms", Base::Ms),
    (b"us", Base::Us),
    (b"ns", Base::Ns),
    (b"ps", Base::Ps),
    (b"fs", Base::Fs),
];
