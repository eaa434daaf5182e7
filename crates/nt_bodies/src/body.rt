// The names inside a function.
ghost use Rattle.std.specs.Prelude.{◌≡◌, ◌++◌, ◌∷◌, [], IfOk, OnOk, None, Some};
ghost use Rattle.std.specs.Str.{bytes_eq};
ghost use Rattle.nt_scopes.specs.Choices.{IsFound};
ghost use Rattle.nt_scopes.specs.Means.{Declares, added};
ghost use Rattle.nt_scopes.specs.Means.{counts as counts_at, is_before as before};
ghost use Rattle.nt_types.specs.Opened.{view_of};
ghost use Rattle.nt_bodies.specs.Bodies.{MeansInside, inside_at, own_from, own_names};
ghost use Rattle.nt_bodies.specs.Bodies.{innermost as innermost_of};

use nt_ast::Path;
use nt_items::FunctionItem;
use nt_own_names::{Named, names_of};
use nt_scopes::{Entry, Look, Scope};
use nt_types::Scopes;
use nt_value::{Name, Place};
use sqlite_items::Items;
use std::alloc::{AllocError, Global};

/// What a path means inside a function.
#[derive(Clone, Copy, Debug, PartialEq, Eq)]
pub enum Inside {
    /// The variable of a loop round the path, by the number of the loop from the outermost one on (IEEE 1800-2017, 12.7.1, 12.7.3).
    Loop(usize),
    /// What the function declares itself, by its number: its name, its arguments, its locals (13.4).
    Own(usize),
    /// What the path means where the function stands.
    Outside(Look),
}

/// The names inside a function, at one place of its body: what the function declares itself, and the variables of the loops round that place
/// from the outermost one on.
#[derive(Drop)]
pub struct Body<'a> {
    pub own: &'a Scope,
    pub loops: Items<Name>,
}

fn is_before(a: Place, b: Place) -> bool
    ensures { result ≡ before a b }
{
    a.file < b.file || (a.file == b.file && a.offset < b.offset)
}

fn counts(from: Option<Place>, at: Place) -> bool
    ensures { result ≡ counts_at from at }
{
    match from {
        None => true,
        Some(from) => is_before(from, at),
    }
}

fn declare(alloc: Global, scope: &mut Scope, name: &Named, number: usize) -> Result<(), AllocError>
    ensures { OnOk result (scope.new.names ≡ added scope.old.names name.now.name (record { from = Some name.now.at; number = number })) }
{
    let copy = name.name.copy(alloc)?;
    scope.declare(
        copy,
        Entry {
            from: Some(name.at),
            number,
        },
    )?;
    Ok(())
}

fn scope_of(alloc: Global, names: &[Named]) -> Result<Scope, AllocError>
    ensures { IfOk result (λ s. s.names ≡ own_from [] 0 names.now) }
{
    let mut scope = Scope::new(alloc);
    for k in 0..names.len() {
        declare(alloc, &mut scope, &names[k], k)?;
    }
    Ok(scope)
}

fn same(a: &Name, b: &Name) -> bool
    ensures { result ≡ bytes_eq a.now b.now }
{
    a.items() == b.items()
}

// The innermost loop whose variable has this name.
fn innermost(loops: &[Name], name: &Name) -> Option<usize>
    ensures { result ≡ innermost_of loops.now name.now }
{
    let mut found = None;
    for k in 0..loops.len() {
        if same(name, &loops[k]) {
            found = Some(k);
        }
    }
    found
}

/// What a function declares itself, each name with its first declaration: its own name has the number 0, then come its arguments and its
/// locals in their order (IEEE 1800-2017, 13.4). Each counts after its place.
///
/// # Errors
///
/// `AllocError` alone.
pub fn own_scope(alloc: Global, item: &FunctionItem) -> Result<Scope, AllocError>
    ensures { IfOk result (λ s. s.names ≡ own_names item.now) }
{
    let names = names_of(alloc, item)?;
    scope_of(alloc, names.as_slice())
}

fn copy_names(alloc: Global, names: &[Name]) -> Result<Items<Name>, AllocError>
    ensures { IfOk result (λ all. all ≡ names.now) }
{
    let mut all = Items::new(alloc);
    for name in names {
        let copy = name.copy(alloc)?;
        all.push(copy)?;
    }
    Ok(all)
}

impl<'a> Body<'a> {
    /// The names of a function that declares these, outside all loops in it. It takes no memory.
    pub fn new(alloc: Global, own: &'a Scope) -> Body<'a>
        ensures own { result.own.now ≡ own.now }
        ensures loops { result.loops ≡ [] }
    {
        Body {
            own,
            loops: Items::new(alloc),
        }
    }

    /// The names one loop further inside, whose variable has this name (IEEE 1800-2017, 12.7.1, 12.7.3).
    ///
    /// # Errors
    ///
    /// `AllocError` alone.
    pub fn inside(&self, alloc: Global, name: &Name) -> Result<Body<'a>, AllocError>
        ensures own { IfOk result (λ b. b.own.now ≡ self.now.own.now) }
        ensures loops { IfOk result (λ b. b.loops ≡ self.now.loops ++ name.now ∷ []) }
    {
        let mut loops = copy_names(alloc, self.loops.as_slice())?;
        let copy = name.copy(alloc)?;
        loops.push(copy)?;
        Ok(Body {
            own: self.own,
            loops,
        })
    }

    // What the function declares itself under a name.
    fn declared(&self, at: Place, name: &Name) -> Option<usize>
        ensures { IsFound (Declares self.now.own.now.names at name.now) result }
    {
        match self.own.find(name) {
            None => None,
            Some(entry) => {
                if counts(entry.from, at) {
                    Some(entry.number)
                } else {
                    None
                }
            }
        }
    }

    // What a name means here.
    fn named(&self, scopes: &Scopes, path: &Path) -> Inside
        requires { path.now.scope ≡ None }
        ensures { MeansInside (view_of scopes.now) self.now.own.now.names self.now.loops path.now result }
    {
        if let Some(number) = innermost(self.loops.as_slice(), &path.name) {
            return Inside::Loop(number);
        }
        match self.declared(path.at, &path.name) {
            Some(number) => Inside::Own(number),
            None => Inside::Outside(scopes.meaning(path)),
        }
    }

    fn look(&self, scopes: &Scopes, path: &Path) -> Inside
        ensures { MeansInside (view_of scopes.now) self.now.own.now.names self.now.loops path.now result }
    {
        match &path.scope {
            None => self.named(scopes, path),
            Some(_scope) => Inside::Outside(scopes.meaning(path)),
        }
    }

    /// What a path means here: the variable of the innermost loop of that name, else what the function declares before the path's place, else
    /// what is seen where the function stands (IEEE 1800-2017, 23.9). It takes no memory. The time is that of the loops here, and that of
    /// `Scopes::meaning`.
    pub fn meaning(&self, scopes: &Scopes, path: &Path) -> Inside
        ensures means { MeansInside (view_of scopes.now) self.now.own.now.names self.now.loops path.now result }
        ensures is { result ≡ inside_at (view_of scopes.now) self.now.own.now.names self.now.loops path.now }
    {
        self.look(scopes, path)
    }
}
