// The drivers of joined nets.
ghost use Rattle.std.specs.Prelude.{◌≡◌, ℕ, ◌<◌, ◌^◌, length, replicate, List, [], All, OnOk, IfOk};
ghost use Rattle.nt_merge.specs.Classes.{IsNaming};
ghost use Rattle.nt_merge.specs.Drivers.{DriversOf};
ghost use Rattle.nt_merge.specs.Numbers.{Added, Fills, IsNumbering, Judged, contents};
ghost use Rattle.nt_merge.specs.declared.drivers.DriverFault.TheVariants.{OutOfMemory};

use crate::segments::Classes;
use std::alloc::{AllocError, Global};

/// Why an assignment may not drive its net.
#[derive(Clone, Copy, Debug, PartialEq, Eq)]
pub enum DriverFault {
    /// M1: this assignment is the second driver of a net that is not resolved (IEEE 1800-2017, 6.6.7).
    Second(u32),
    /// M2: this assignment is driver 1,025 of its net.
    TooMany(u32),
    OutOfMemory(AllocError),
}

impl From<AllocError> for DriverFault {
    ghost from_gives = { λ error fault. fault ≡ OutOfMemory error };

    fn from(error: AllocError) -> DriverFault {
        DriverFault::OutOfMemory(error)
    }
}

fn fault_at(at: u32, count: usize, resolved: bool) -> Option<DriverFault>
    ensures { Judged at count resolved result }
{
    if count == 1 && !resolved {
        Some(DriverFault::Second(at))
    } else if count == 1024 {
        Some(DriverFault::TooMany(at))
    } else {
        None
    }
}

fn add(lists: &mut [Vec<u32>], net: usize, at: u32) -> Result<(), AllocError>
    requires { net < length lists.old }
    ensures ok { OnOk result (Added lists.old net at lists.new) }
{
    lists[net].push(at)?;
    Ok(())
}

// Takes each assignment to the list of its net.
fn fill(
    lists: &mut [Vec<u32>],
    numbers: &[usize],
    driven: &[u32],
    resolved: &[bool],
) -> Result<(), DriverFault>
    requires few { length driven.now < 2 ^ 32 }
    requires ends { All (λ segment. segment < length numbers.now) driven.now }
    requires numbers { All (λ k. k < length lists.old) numbers.now }
    requires resolved { length resolved.now ≡ length numbers.now }
    requires empty { contents lists.old ≡ replicate (length lists.old) [] }
    ensures { (least : List ℕ) → IsNumbering least (length least) numbers.now (length lists.old)
        → Fills least driven.now resolved.now (contents lists.new) result }
{
    for at in 0..driven.len() {
        let segment = driven[at] as usize;
        let net = numbers[segment];
        if let Some(fault) = fault_at(at as u32, lists[net].len(), resolved[segment]) {
            return Err(fault);
        }
        add(lists, net, at as u32)?;
    }
    Ok(())
}

// The number of each segment's class, and how many classes there are.
#[derive(Drop)]
struct Numbering {
    numbers: Vec<usize>,
    count: usize,
}

fn number_classes(alloc: Global, least: &[u32]) -> Result<Numbering, AllocError>
    requires { IsNaming least.now }
    ensures { IfOk result (λ found. IsNumbering least.now (length least.now) found.numbers.items found.count) }
{
    let mut numbers = Vec::new(alloc);
    let mut count = 0;
    for segment in 0..least.len() {
        let leader = least[segment] as usize;
        if leader == segment {
            numbers.push(count)?;
            count += 1;
        } else {
            let number = numbers[leader];
            numbers.push(number)?;
        }
    }
    Ok(Numbering { numbers, count })
}

fn empty_lists(alloc: Global, count: usize) -> Result<Vec<Vec<u32>>, AllocError>
    ensures { IfOk result (λ lists. contents lists.items ≡ replicate count []) }
{
    let mut lists = Vec::new(alloc);
    for k in 0..count {
        lists.push(Vec::new(alloc))?;
    }
    Ok(lists)
}

/// The drivers of each net: the numbers of the assignments to its segments, in order. Nets go by their least segments.
/// `driven` gives each assignment's segment, and `resolved` says of each segment, alike within a class, whether its net
/// may have several drivers.
///
/// # Errors
///
/// The least assignment that may not drive its net: `Second` where it is the second driver of a net that is not resolved
/// (IEEE 1800-2017, 6.6.7), `TooMany` where it is driver 1,025 of a net. `OutOfMemory` where there is no memory.
pub fn drivers_of(
    alloc: Global,
    classes: &Classes,
    driven: &[u32],
    resolved: &[bool],
) -> Result<Vec<Vec<u32>>, DriverFault>
    requires few { length driven.now < 2 ^ 32 }
    requires ends { All (λ segment. segment < length classes.now) driven.now }
    requires resolved { length resolved.now ≡ length classes.now }
    ensures { DriversOf classes.now driven.now resolved.now result }
{
    let numbering = number_classes(alloc, classes.items())?;
    let mut lists = empty_lists(alloc, numbering.count)?;
    fill(&mut lists, &numbering.numbers, driven, resolved)?;
    Ok(lists)
}
