// Functions.
ghost use Rattle.std.specs.Prelude.{◌≡◌, ⊤, [], ◌∷◌, ◌+◌, Some, IfOk};
ghost use Rattle.nt_read_expr.specs.Gives.{Gives};
ghost use Rattle.nt_read_item.specs.Reader as spec;

use crate::front::{flag, lifetime, local_goes};
use crate::parts::{maybe_start, started, type_at};
use nt_ast::{Declared, Stmt, TypeTree};
use nt_items::FunctionItem;
use nt_lexer::{Mark, Token, Word};
use nt_read_expr::{ItemReader, Separator, Stop, expect, is_at, list_of, start};
use nt_read_stmt::{expect_word, is_word, past_label, statement_in, take_name};
use nt_read_unit::{GroupReader, groups_of, maybe_type, named_in, type_in};
use sqlite_items::{Boxed, Items};
use std::alloc::{AllocError, Global};

type Argument = (Boxed<TypeTree>, Boxed<Declared>, bool);

type Local = (Boxed<TypeTree>, Boxed<Declared>);

/// The type of what a function gives, where one is written.
#[tactic(auto, unfolding(crate::specs::Reader::result))]
fn result_type(
    alloc: Global,
    limit: u32,
    tokens: &[Token],
) -> Result<(Option<Boxed<TypeTree>>, &[Token]), Stop>
    ensures { Gives (λ x. (x.0, x.1.now)) result (spec.result limit tokens.now) }
{
    if !is_word(Word::Void, tokens) {
        return maybe_type(alloc, limit, limit, tokens);
    }
    let x = Boxed::new(alloc, TypeTree::Void { at: start(tokens) })?;
    Ok((Some(x), &tokens[1..]))
}

/// Whether an argument is a dynamic array, and what follows its brackets.
#[tactic(auto, unfolding(crate::specs::Reader::dynamic))]
fn dynamic(tokens: &[Token]) -> Result<(bool, &[Token]), Stop>
    ensures { Gives (λ x. (x.0, x.1.now)) result (spec.dynamic tokens.now) }
{
    if !is_at(Mark::LeftBracket, tokens) {
        return Ok((false, tokens));
    }
    let rest = expect(Mark::RightBracket, &tokens[1..])?;
    Ok((true, rest))
}

/// What reads the parts of a function.
#[derive(Clone, Copy)]
struct ArgumentReader {
    alloc: Global,
    limit: u32,
}

impl ItemReader for ArgumentReader {
    type Item = Argument;

    ghost can_read = { λ _. ⊤ };

    ghost reads = { λ s. spec.argument s.limit };

    #[tactic(auto, unfolding(crate::specs::Reader::argument))]
    fn read_item<'a>(&self, tokens: &'a [Token]) -> Result<(Argument, &'a [Token]), Stop> {
        let (_input, rest) = flag(Word::Input, tokens);
        let (of, rest) = type_in(self.alloc, self.limit, self.limit, rest)?;
        let (what, rest) = named_in(self.alloc, self.limit, self.limit, rest)?;
        let (many, rest) = dynamic(rest)?;
        Ok(((of, what, many), rest))
    }
}

/// Arguments and their brackets.
#[tactic(auto, unfolding(crate::specs::Reader::arguments, crate::specs::Reader::arguments_in))]
fn arguments(
    alloc: Global,
    limit: u32,
    tokens: &[Token],
) -> Result<(Items<Argument>, &[Token]), Stop>
    ensures { Gives (λ x. (x.0, x.1.now)) result (spec.arguments limit tokens.now) }
{
    let rest = expect(Mark::LeftParen, tokens)?;
    if is_at(Mark::RightParen, rest) {
        return Ok((Items::new(alloc), &rest[1..]));
    }
    let reader = ArgumentReader { alloc, limit };
    let (all, rest) = list_of(alloc, Separator::Comma, &reader, rest)?;
    let rest = expect(Mark::RightParen, rest)?;
    Ok((all, rest))
}

/// A list of this variable alone.
fn one_local(
    alloc: Global,
    of: Boxed<TypeTree>,
    what: Boxed<Declared>,
) -> Result<Items<Local>, AllocError>
    ensures { IfOk result (λ xs. xs ≡ (of, what) ∷ []) }
{
    let mut all = Items::new(alloc);
    all.push((of, what))?;
    Ok(all)
}

/// What reads variables of a function.
#[derive(Clone, Copy)]
struct LocalReader {
    alloc: Global,
    limit: u32,
}

impl GroupReader for LocalReader {
    type Item = Local;

    ghost can_read = { λ _. ⊤ };

    ghost goes_on = { λ _. spec.local_goes };

    ghost reads = { λ s. spec.local_var s.limit };

    fn goes(&self, tokens: &[Token]) -> bool {
        local_goes(tokens)
    }

    #[tactic(auto, unfolding(crate::specs::Reader::local_var))]
    fn read_group<'a>(&self, tokens: &'a [Token]) -> Result<(Items<Local>, &'a [Token]), Stop> {
        let (_automatic, rest) = flag(Word::Automatic, tokens);
        let (of, rest) = type_in(self.alloc, self.limit, self.limit, rest)?;
        let (what, rest) = named_in(self.alloc, self.limit, self.limit, rest)?;
        let (start, rest) = maybe_start(self.alloc, self.limit, rest)?;
        let rest = expect(Mark::Semicolon, rest)?;
        let what = started(self.alloc, what, start)?;
        Ok((one_local(self.alloc, of, what)?, rest))
    }
}

/// What reads the statements of a function.
#[derive(Clone, Copy)]
struct BodyReader {
    alloc: Global,
    limit: u32,
}

/// A list of this statement alone.
fn one_statement(alloc: Global, x: Boxed<Stmt>) -> Result<Items<Stmt>, AllocError>
    ensures { IfOk result (λ xs. xs ≡ x ∷ []) }
{
    let mut all = Items::new(alloc);
    all.push(x.into_inner())?;
    Ok(all)
}

impl GroupReader for BodyReader {
    type Item = Stmt;

    ghost can_read = { λ _. ⊤ };

    ghost goes_on = { λ _. spec.body_goes };

    ghost reads = { λ s. spec.body s.limit };

    #[tactic(auto, unfolding(crate::specs::Reader::body_goes))]
    fn goes(&self, tokens: &[Token]) -> bool {
        !is_word(Word::EndFunction, tokens)
    }

    #[tactic(auto, unfolding(crate::specs::Reader::body))]
    fn read_group<'a>(&self, tokens: &'a [Token]) -> Result<(Items<Stmt>, &'a [Token]), Stop> {
        let (x, rest) = statement_in(self.alloc, self.limit, self.limit, tokens)?;
        Ok((one_statement(self.alloc, x)?, rest))
    }
}

/// What a function has between its head and its end, and past the end.
#[tactic(auto, unfolding(crate::specs::Reader::function_body))]
fn function_body(
    alloc: Global,
    limit: u32,
    tokens: &[Token],
) -> Result<((Items<Local>, Items<Stmt>), &[Token]), Stop>
    ensures { Gives (λ x. ((x.0.0, x.0.1), x.1.now)) result (spec.function_body limit tokens.now) }
{
    let (locals, rest) = groups_of(alloc, &LocalReader { alloc, limit }, tokens)?;
    let (body, rest) = groups_of(alloc, &BodyReader { alloc, limit }, rest)?;
    let rest = expect_word(Word::EndFunction, rest)?;
    let rest = past_label(rest)?;
    Ok(((locals, body), rest))
}

/// A function from its name on.
#[tactic(auto, unfolding(crate::specs::Reader::function_named))]
fn function_named(
    alloc: Global,
    limit: u32,
    automatic: bool,
    of: Option<Boxed<TypeTree>>,
    tokens: &[Token],
) -> Result<(FunctionItem, &[Token]), Stop>
    ensures { Gives (λ x. (x.0, x.1.now)) result (spec.function_named limit automatic of tokens.now) }
{
    let at = start(tokens);
    let result = type_at(alloc, &of, at)?;
    let (name, rest) = take_name(alloc, tokens)?;
    let (args, rest) = arguments(alloc, limit, rest)?;
    let rest = expect(Mark::Semicolon, rest)?;
    let (inside, rest) = function_body(alloc, limit, rest)?;
    Ok((
        FunctionItem {
            at,
            automatic,
            result,
            name,
            args,
            locals: inside.0,
            body: inside.1,
        },
        rest,
    ))
}

/// A function (IEEE 1800-2017, 13.4, A.2.6).
#[tactic(auto, unfolding(crate::specs::Reader::function))]
pub(crate) fn function(
    alloc: Global,
    limit: u32,
    tokens: &[Token],
) -> Result<(FunctionItem, &[Token]), Stop>
    ensures { Gives (λ x. (x.0, x.1.now)) result (spec.function limit tokens.now) }
{
    let rest = expect_word(Word::Function, tokens)?;
    let (automatic, rest) = lifetime(rest);
    let (of, rest) = result_type(alloc, limit, rest)?;
    function_named(alloc, limit, automatic, of, rest)
}
