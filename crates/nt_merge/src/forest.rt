// The classes of joined segments, by a forest of parents.
ghost use Rattle.std.specs.Prelude.{◌≡◌, ℕ, ◌<◌, length, get_or, All, IfOk, List};
ghost use Rattle.nt_merge.specs.Classes.{IsClasses, Within};
ghost use Rattle.nt_merge.specs.Forest.{Downward, HasRoots, Merges};

use crate::segments::{Classes, Link};
use std::alloc::{AllocError, Global};

// The root of a segment's tree. On the way up, each second segment gets its parent's parent as its parent.
fn root(parents: &mut [u32], segment: u32) -> u32
    requires downward { Downward parents.old }
    requires within { segment < length parents.old }
    ensures downward { Downward parents.new }
    ensures roots { (roots : List ℕ) → HasRoots parents.old roots → HasRoots parents.new roots × (result ≡ get_or roots segment 0) }
    ensures low { result < length parents.new }
{
    let mut at = segment;
    while parents[at as usize] != at {
        let next = parents[parents[at as usize] as usize];
        parents[at as usize] = next;
        at = next;
    }
    at
}

// Makes one tree of those of a link's ends: the greater root gets the lesser one as its parent.
fn merge(parents: &mut [u32], link: Link)
    requires downward { Downward parents.old }
    requires within { Within (length parents.old) link }
    ensures downward { Downward parents.new }
    ensures roots { Merges parents.old parents.new link }
{
    let a = root(parents, link.a);
    let b = root(parents, link.b);
    parents[a.max(b) as usize] = a.min(b);
}

// Makes the trees of segments that are still roots.
fn merge_all(parents: &mut [u32], links: &[Link])
    requires within { All (Within (length parents.old)) links.now }
    requires own { (k : ℕ) → k < length parents.old → get_or parents.old k 0 ≡ k }
    ensures downward { Downward parents.new }
    ensures roots { (roots : List ℕ) × HasRoots parents.new roots × IsClasses (length parents.old) links.now roots }
{
    for link in links {
        merge(parents, *link);
    }
}

// Gives each segment its root as its parent.
fn flatten(parents: &mut [u32])
    requires { Downward parents.old }
    ensures { (roots : List ℕ) → HasRoots parents.old roots → parents.new ≡ roots }
{
    for at in 0..parents.len() {
        parents[at] = parents[parents[at] as usize];
    }
}

/// The classes of the least equivalence of segments, numbered from 0, that holds all links. Segments of one class are
/// one net, and the least of them stands for it.
///
/// # Errors
///
/// `AllocError` where there is no memory.
pub fn classes(alloc: Global, segments: u32, links: &[Link]) -> Result<Classes, AllocError>
    requires { All (Within segments) links.now }
    ensures { IfOk result (λ found. IsClasses segments links.now found) }
{
    let mut parents = Vec::new(alloc);
    for segment in 0..segments {
        parents.push(segment)?;
    }
    merge_all(&mut parents, links);
    flatten(&mut parents);
    Ok(Classes::new(parents))
}
