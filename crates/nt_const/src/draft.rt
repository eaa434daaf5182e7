// Expressions whose width and sign are known, and whose context is still open.
ghost use Rattle.std.specs.Prelude.{◌≡◌, IfOk};
ghost use Rattle.nt_const.specs.Tables.{binary_leaf, choice_leaf, unary_leaf};
ghost use Rattle.nt_const.specs.Drafts.{IsMemory, OfBinary, OfChoose, OfUnary, draft_leaf, draft_value, own_value};

use crate::size::{
    Size, binary_size, choice_size, left_context, right_context, unary_context, unary_size,
};
use crate::value::literal_at;
use nt_diag::Fault;
use nt_value::{Binary, Bits, Literal, Unary, binary, merge, resize, unary};
use sqlite_items::Boxed;
use std::alloc::Global;

// What stands by itself is closed: its value only has to be taken to its context.
#[derive(Drop)]
pub(crate) enum Draft {
    Literal {
        size: Size,
        value: Literal,
    },
    Closed {
        size: Size,
        value: Bits,
    },
    Unary {
        size: Size,
        op: Unary,
        of: Boxed<Draft>,
    },
    Binary {
        size: Size,
        op: Binary,
        left: Boxed<Draft>,
        right: Boxed<Draft>,
    },
    Choose {
        size: Size,
        test: Bits,
        left: Boxed<Draft>,
        right: Boxed<Draft>,
    },
}

// The leaf of a draft by itself.
#[tactic(auto, using(crate::proofs::Closing::equations))]
pub(crate) fn size_of(draft: &Draft) -> Size
    ensures { result ≡ draft_leaf draft.now }
{
    match draft {
        Draft::Literal { size, .. } => *size,
        Draft::Closed { size, .. } => *size,
        Draft::Unary { size, .. } => *size,
        Draft::Binary { size, .. } => *size,
        Draft::Choose { size, .. } => *size,
    }
}

// The value of a draft in a context.
#[tactic(auto, using(crate::proofs::Closing::equations))]
pub(crate) fn close(draft: &Draft, context: Size) -> Bits
    ensures value { result ≡ draft_value draft.now context }
    ensures leaf { result.leaf ≡ context }
{
    match draft {
        Draft::Literal { value, .. } => literal_at(value, context),
        Draft::Closed { value, .. } => resize(*value, context.leaf()),
        Draft::Unary { op, of, .. } => {
            let a = close(of.get(), unary_context(*op, context, size_of(of.get())));
            resize(unary(*op, a), context.leaf())
        }
        Draft::Binary {
            op,
            left,
            right,
            ..
        } => {
            let l = size_of(left.get());
            let m = size_of(right.get());
            let a = close(left.get(), left_context(*op, context, l, m));
            let b = close(right.get(), right_context(*op, context, l, m));
            resize(binary(*op, a, b), context.leaf())
        }
        Draft::Choose {
            test,
            left,
            right,
            ..
        } => {
            let a = close(left.get(), context);
            let b = close(right.get(), context);
            merge(*test, a, b)
        }
    }
}

// The value of a draft by itself.
pub(crate) fn own(draft: &Draft) -> Bits
    ensures { result ≡ own_value draft.now }
{
    close(draft, size_of(draft))
}

pub(crate) fn unary_draft(alloc: Global, op: Unary, a: Draft) -> Result<Draft, Fault>
    ensures ok { IfOk result (λ d. d ≡ OfUnary (unary_leaf op (draft_leaf a)) op a) }
    ensures err { IsMemory result }
{
    let size = unary_size(op, size_of(&a));
    let of = Boxed::new(alloc, a)?;
    Ok(Draft::Unary { size, op, of })
}

pub(crate) fn binary_draft(alloc: Global, op: Binary, a: Draft, b: Draft) -> Result<Draft, Fault>
    ensures ok { IfOk result (λ d. d ≡ OfBinary (binary_leaf op (draft_leaf a) (draft_leaf b)) op a b) }
    ensures err { IsMemory result }
{
    let size = binary_size(op, size_of(&a), size_of(&b));
    let left = Boxed::new(alloc, a)?;
    let right = Boxed::new(alloc, b)?;
    Ok(Draft::Binary {
        size,
        op,
        left,
        right,
    })
}

pub(crate) fn choose_draft(alloc: Global, test: Draft, a: Draft, b: Draft) -> Result<Draft, Fault>
    ensures ok { IfOk result (λ d. d ≡ OfChoose (choice_leaf (draft_leaf test) (draft_leaf a) (draft_leaf b)) (own_value test) a b) }
    ensures err { IsMemory result }
{
    let size = choice_size(size_of(&test), size_of(&a), size_of(&b));
    let test = own(&test);
    let left = Boxed::new(alloc, a)?;
    let right = Boxed::new(alloc, b)?;
    Ok(Draft::Choose {
        size,
        test,
        left,
        right,
    })
}
