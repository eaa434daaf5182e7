// The types of type trees.
ghost use Rattle.std.specs.Prelude.{◌≡◌, IfOk};
ghost use Rattle.nt_ast.specs.declared.types.TypeTree.TheOpen.{TypeTree-F};
ghost use Rattle.nt_ast.specs.declared.types.TypeTree.TheViews.{out-TypeTree};
ghost use Rattle.nt_type_trees.specs.Answers.{Arrays, Limited, Structure, TellsDeclared, TellsKind, TellsMembers, both_of};
ghost use Rattle.nt_type_trees.specs.Answers.{ranged_of, with_name as named_as};
ghost use Rattle.nt_type_trees.specs.Tells.{DeclaredTells, KindTells, ShapeTells};
ghost use Rattle.nt_type_trees.specs.Types.{arrays as arrays_of};
ghost use Rattle.nt_type_trees.specs.Types.{Types as Meanings};
ghost use Rattle.nt_type_trees.specs.Types.{or_sign, plain_kind, type_place, word_leaf};
ghost use Rattle.nt_value.specs.declared.place.Place.{Place as Spot};

use crate::bounds::{both, bound, dimensions, extend};
use crate::{Dimension, TypeSeen, Types};
use nt_ast::{Declared, Expr, IntWord, Path, TypeTree};
use nt_const::Lookup;
use nt_diag::{Fault, Refusal, Rule};
use nt_kinds::Kind;
use nt_value::{Leaf, Name, Place, Shape};
use sqlite_items::{Boxed, Items};
use std::alloc::{AllocError, Global};

fn refused(rule: Rule, place: Place) -> Refusal
    ensures { result ≡ record { rule = rule; place = place } }
{
    Refusal { rule, place }
}

// Where a type begins.
fn place(tree: &TypeTree) -> Place
    ensures { result ≡ type_place (out-TypeTree tree.now) }
{
    match tree {
        TypeTree::Integral { at, .. } => *at,
        TypeTree::Struct { at, .. } => *at,
        TypeTree::Named { at, .. } => *at,
        TypeTree::Void { at } => *at,
    }
}

// The leaf of a word's type.
fn leaf(word: IntWord) -> Leaf
    ensures { result ≡ word_leaf word }
{
    let (width, signed, four) = match word {
        IntWord::Logic | IntWord::Reg => (1, false, true),
        IntWord::Bit => (1, false, false),
        IntWord::Byte => (8, true, false),
        IntWord::Shortint => (16, true, false),
        IntWord::Int => (32, true, false),
        IntWord::Longint => (64, true, false),
        IntWord::Integer => (32, true, true),
        IntWord::Time => (64, false, true),
    };
    Leaf {
        width,
        signed,
        four,
    }
}

fn sign_or(signed: Option<bool>, own: bool) -> bool
    ensures { result ≡ or_sign signed own }
{
    match signed {
        None => own,
        Some(signed) => signed,
    }
}

// An integral type without a written range.
fn plain(word: IntWord, signed: Option<bool>) -> Kind
    ensures { result ≡ plain_kind word signed }
{
    let leaf = leaf(word);
    Kind::One {
        leaf: Leaf {
            signed: sign_or(signed, leaf.signed),
            ..leaf
        },
        left: u32::from(leaf.width) - 1,
        right: 0,
    }
}

// An integral type with the bounds of its range.
fn ranged(
    at: Place,
    word: IntWord,
    signed: Option<bool>,
    bounds: Result<(u32, u32), Refusal>,
) -> Result<Kind, Refusal>
    ensures { result ≡ ranged_of at word signed bounds }
{
    match bounds {
        Err(refusal) => Err(refusal),
        Ok((left, right)) => {
            let more = left.max(right) - left.min(right);
            if more > 63 {
                return Err(refused(Rule::T2, at));
            }
            let leaf = leaf(word);
            Ok(Kind::One {
                leaf: Leaf {
                    width: more as u8 + 1,
                    signed: sign_or(signed, leaf.signed),
                    four: leaf.four,
                },
                left,
                right,
            })
        }
    }
}

fn integral<L: Lookup>(
    alloc: Global,
    at: Place,
    word: IntWord,
    signed: Option<bool>,
    range: &Option<(Expr, Expr)>,
    known: &L,
) -> Result<Result<Kind, Refusal>, AllocError>
    ensures { IfOk result (λ r. (ts : Meanings) → TellsKind (L.sees known.now) ts (TypeTree-F.Integral at word signed range.now) r) }
{
    match range {
        None => Ok(Ok(plain(word, signed))),
        Some((left, right)) => {
            let left = bound(alloc, left, known)?;
            let right = bound(alloc, right, known)?;
            Ok(ranged(at, word, signed, both(left, right)))
        }
    }
}

// The type, where it is within the limits.
fn limited(at: Place, kind: Kind) -> Result<Kind, Refusal>
    ensures { Limited at kind result }
{
    if kind.is_small() {
        Ok(kind)
    } else {
        Err(refused(Rule::T7, at))
    }
}

fn structure(at: Place, members: Result<Items<(Name, Kind)>, Refusal>) -> Result<Kind, Refusal>
    ensures { Structure at members result }
{
    match members {
        Err(refusal) => Err(refusal),
        Ok(members) => limited(
            at,
            Kind::Struct {
                declared: at,
                members,
            },
        ),
    }
}

// Arrays of these bounds, the first outermost.
fn arrays(alloc: Global, element: Kind, spans: &[(u32, u32)]) -> Result<Kind, AllocError>
    ensures { IfOk result (λ kind. kind ≡ arrays_of spans.now element) }
{
    match spans {
        [] => Ok(element),
        [(left, right), inner @ ..] => {
            let element = Boxed::new(alloc, arrays(alloc, element, inner)?)?;
            Ok(Kind::Array {
                left: *left,
                right: *right,
                element,
            })
        }
    }
}

// Arrays of more than 64 dimensions aren't made.
fn limited_arrays(
    alloc: Global,
    at: Place,
    element: Kind,
    spans: &[(u32, u32)],
) -> Result<Result<Kind, Refusal>, AllocError>
    ensures { IfOk result (λ r. Limited at (arrays_of spans.now element) r) }
{
    if spans.len() > 64 {
        return Ok(Err(refused(Rule::T7, at)));
    }
    let kind = arrays(alloc, element, spans)?;
    Ok(limited(at, kind))
}

fn arrays_within(
    alloc: Global,
    at: Place,
    both: Result<(Kind, Items<(u32, u32)>), Refusal>,
) -> Result<Result<Kind, Refusal>, AllocError>
    ensures { IfOk result (λ r. Arrays at both r) }
{
    match both {
        Err(refusal) => Ok(Err(refusal)),
        Ok((element, spans)) => {
            let kind = limited_arrays(alloc, at, element, spans.as_slice())?;
            Ok(kind)
        }
    }
}

// The type that a name stands for.
fn named<T: Types>(
    alloc: Global,
    path: &Path,
    names: &T,
) -> Result<Result<Kind, Refusal>, AllocError>
    ensures { IfOk result (λ r. (at : Spot) → TellsKind (T.sees names.now) (T.means names.now) (TypeTree-F.Named at path.now) r) }
{
    match names.type_at(alloc, path)? {
        TypeSeen::Known(kind) => Ok(Ok(kind)),
        TypeSeen::Faulty(refusal) => Ok(Err(refusal)),
        TypeSeen::Other => Ok(Err(refused(Rule::T6, path.at))),
        TypeSeen::Unknown => Ok(Err(refused(Rule::T4, path.at))),
        TypeSeen::Ambiguous => Ok(Err(refused(Rule::T9, path.at))),
    }
}

fn with_name(
    alloc: Global,
    name: &Name,
    kind: Result<Kind, Refusal>,
) -> Result<Result<(Name, Kind), Refusal>, AllocError>
    ensures { IfOk result (λ r. r ≡ named_as name.now kind) }
{
    match kind {
        Err(refusal) => Ok(Err(refusal)),
        Ok(kind) => {
            let name = name.copy(alloc)?;
            Ok(Ok((name, kind)))
        }
    }
}

#[cycle(walk)]
fn kind<T: Types>(
    alloc: Global,
    tree: &TypeTree,
    names: &T,
) -> Result<Result<Kind, Refusal>, AllocError>
    ensures { IfOk result (λ r. TellsKind (T.sees names.now) (T.means names.now) (out-TypeTree tree.now) r) }
{
    match tree {
        TypeTree::Integral {
            at,
            word,
            signed,
            range,
        } => {
            let kind = integral(alloc, *at, *word, *signed, range, names)?;
            Ok(kind)
        }
        TypeTree::Struct { at, members } => {
            let members = members_of(alloc, members.as_slice(), names)?;
            Ok(structure(*at, members))
        }
        TypeTree::Named { path, .. } => {
            let kind = named(alloc, path, names)?;
            Ok(kind)
        }
        TypeTree::Void { at } => Ok(Err(refused(Rule::T6, *at))),
    }
}

// The type of a name that is declared with a type and dimensions.
#[cycle(walk)]
fn declared<T: Types>(
    alloc: Global,
    tree: &TypeTree,
    dims: &[Dimension],
    names: &T,
) -> Result<Result<Kind, Refusal>, AllocError>
    ensures { IfOk result (λ r. TellsDeclared (T.sees names.now) (T.means names.now) tree.now dims.now r) }
{
    let element = kind(alloc, tree, names)?;
    let spans = dimensions(alloc, dims, names)?;
    let kind = arrays_within(alloc, place(tree), both(element, spans))?;
    Ok(kind)
}

#[cycle(walk)]
fn members_of<T: Types>(
    alloc: Global,
    members: &[(TypeTree, Declared)],
    names: &T,
) -> Result<Result<Items<(Name, Kind)>, Refusal>, AllocError>
    ensures { IfOk result (λ r. TellsMembers (T.sees names.now) (T.means names.now) members.now r) }
{
    let mut all = Ok(Items::new(alloc));
    for (tree, what) in members {
        let one = declared(alloc, tree, what.dims.as_slice(), names)?;
        let one = with_name(alloc, &what.name, one)?;
        all = extend(all, one)?;
    }
    Ok(all)
}

/// The type of a type tree (IEEE 1800-2017, 6.11, 6.18, 7.2, 7.4): integral types by their leaf and range, structures by the place of
/// their declaration, arrays by their bounds. `names` tells what the names in it mean. A name with dimensions, as of a variable, has the type of
/// `kind_of_declared`.
///
/// A refusal is the least fault by file, offset and rule, where the nodes stand in the order of the source: a fault of a constant
/// expression (T1, T2, T3, T4, T9); T2 at the type where a range has more than 64 digits; T3 at a bound that has an x or z, is below 0
/// or over 2^32 - 1, and at a size of 0; T4 at a name that means nothing, T6 at one that means no type, T9 at one that two imports give; T7
/// at a type with more than 64 leaves, or with more than 64 structures and arrays inside one another. A fault in the declaration of a
/// named type is told where it stands. Want of memory is the only other failure.
pub fn kind_of_type<T: Types>(alloc: Global, tree: &TypeTree, names: &T) -> Result<Kind, Fault>
    ensures { KindTells (T.sees names.now) (T.means names.now) (out-TypeTree tree.now) result }
{
    match kind(alloc, tree, names)? {
        Ok(kind) => Ok(kind),
        Err(refusal) => Err(Fault::Refused(refusal)),
    }
}

/// The type of a name that is declared with a type and unpacked dimensions, the first of them outermost (IEEE 1800-2017, 7.4). Refusals and other
/// failures are those of `kind_of_type`; T7 is told at the type.
pub fn kind_of_declared<T: Types>(
    alloc: Global,
    tree: &TypeTree,
    dims: &[Dimension],
    names: &T,
) -> Result<Kind, Fault>
    ensures { DeclaredTells (T.sees names.now) (T.means names.now) tree.now dims.now result }
{
    match declared(alloc, tree, dims, names)? {
        Ok(kind) => Ok(kind),
        Err(refusal) => Err(Fault::Refused(refusal)),
    }
}

/// The leaves of the type of a type tree, in order. Refusals and other failures are those of `kind_of_type`.
pub fn shape_of_type<T: Types>(alloc: Global, tree: &TypeTree, names: &T) -> Result<Shape, Fault>
    ensures { ShapeTells (T.sees names.now) (T.means names.now) (out-TypeTree tree.now) result }
{
    let kind = kind_of_type(alloc, tree, names)?;
    Ok(kind.shape(alloc)?)
}
