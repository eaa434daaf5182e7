// Each call that takes memory, once.
ghost use Rattle.std.specs.Prelude.{◌≡◌, ◌<◌, length, All, IfOk};
ghost use Rattle.nt_merge.specs.Classes.{Within};

use crate::{DriverFault, Link, classes, drivers_of};
use std::alloc::{AllocError, Global};
use std::test::Fail;

// Links of a chain of 16,384 segments, far from the order of the chain.
fn chain(alloc: Global) -> Result<Vec<Link>, AllocError>
    ensures { IfOk result (λ links. All (Within 16384) links.items) }
{
    let mut links = Vec::new(alloc);
    for k in 0..16383u32 {
        let at = k * 7919 % 16383;
        links.push(Link { a: at, b: at + 1 })?;
    }
    Ok(links)
}

// So many assignments to segment 0.
fn all_to_first(alloc: Global, count: u32) -> Result<Vec<u32>, AllocError>
    ensures { IfOk result (λ driven. (length driven.items ≡ count) × All (λ segment. segment < 1) driven.items) }
{
    let mut driven = Vec::new(alloc);
    for k in 0..count {
        driven.push(0)?;
    }
    Ok(driven)
}

#[test]
fn names_classes(rt: HostRuntime) -> Result<(), Fail> {
    let links = [
        Link { a: 4, b: 2 },
        Link { a: 2, b: 5 },
        Link { a: 1, b: 0 },
    ];
    let found = classes(rt.alloc(), 6, &links)?;
    assert_eq!(rt; found.items(), [0, 0, 2, 3, 2, 2].as_slice());
    Ok(())
}

#[test]
fn names_a_long_chain(rt: HostRuntime) -> Result<(), Fail> {
    let links = chain(rt.alloc())?;
    let found = classes(rt.alloc(), 16384, &links)?;
    assert_eq!(rt; found.items().len(), 16384);
    assert!(rt; found.items().iter().all(|least| *least == 0));
    Ok(())
}

#[test]
fn lists_drivers(rt: HostRuntime) -> Result<(), Fail> {
    let links = [
        Link { a: 4, b: 2 },
        Link { a: 2, b: 5 },
        Link { a: 1, b: 0 },
    ];
    let nets = classes(rt.alloc(), 6, &links)?;
    let found = drivers_of(rt.alloc(), &nets, &[5, 0, 2, 1, 4], &[true; 6])?;
    let wanted: [&[u32]; 3] = [&[1, 3], &[0, 2, 4], &[]];
    assert_eq!(rt; found.len(), wanted.len());
    for (list, want) in found.iter().zip(wanted.iter()) {
        assert_eq!(rt; list.as_slice(), *want);
    }
    Ok(())
}

#[test]
fn tells_the_first_second_driver(rt: HostRuntime) -> Result<(), Fail> {
    let nets = classes(rt.alloc(), 3, &[Link { a: 1, b: 0 }])?;
    let alone = [false; 3];
    let told = drivers_of(rt.alloc(), &nets, &[0, 2], &alone).err();
    assert_eq!(rt; told, None);
    let told = drivers_of(rt.alloc(), &nets, &[2, 0, 1, 2], &alone).err();
    assert_eq!(rt; told, Some(DriverFault::Second(2)));
    let told = drivers_of(rt.alloc(), &nets, &[0, 1, 2, 2], &[true, true, false]).err();
    assert_eq!(rt; told, Some(DriverFault::Second(3)));
    Ok(())
}

#[test]
fn tells_driver_1025(rt: HostRuntime) -> Result<(), Fail> {
    let net = classes(rt.alloc(), 1, &[])?;
    let most = all_to_first(rt.alloc(), 1024)?;
    let told = drivers_of(rt.alloc(), &net, &most, &[true]).err();
    assert_eq!(rt; told, None);
    let more = all_to_first(rt.alloc(), 1025)?;
    let told = drivers_of(rt.alloc(), &net, &more, &[true]).err();
    assert_eq!(rt; told, Some(DriverFault::TooMany(1024)));
    Ok(())
}
