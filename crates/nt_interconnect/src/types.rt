// Segments of a joined net, and the type that they agree on.
ghost use Rattle.std.specs.Prelude.{◌<◌, ◌^◌, length};
ghost use Rattle.nt_interconnect.specs.Types.{Joins, TypeOf};
ghost use Rattle.nt_interconnect.specs.declared.types.NetType.TheVariants as net;
ghost use Rattle.nt_interconnect.specs.declared.types.SegmentKind.TheVariants as kind;

use nt_diag::Rule;
use nt_value::Leaf;

/// What one segment of a joined net is declared as.
#[derive(Clone, Copy, Debug, PartialEq, Eq)]
pub enum SegmentKind {
    /// An `interconnect`, which takes the type of what it is joined with (IEEE 1800-2017, 6.6.8).
    Interconnect,
    /// A `wire` or `tri`, with its leaf (6.7.1).
    BuiltIn(Leaf),
    /// A net of a user nettype, by the nettype's number: another name of a nettype has the same number (6.6.7).
    User(u32),
}

/// The type of a joined net.
#[derive(Clone, Copy, Debug, PartialEq, Eq)]
pub enum NetType {
    /// Interconnects alone: the net has no value.
    Untyped,
    BuiltIn(Leaf),
    User(u32),
}

/// That two segments of a joined net have unlike types.
#[derive(Clone, Copy, Debug, PartialEq, Eq)]
pub struct Unlike {
    /// P4 of two nettypes, else P5.
    pub rule: Rule,
    /// The first segment that does not match the first typed one.
    pub segment: u32,
}

fn leaves(before: Leaf, next: Leaf) -> Result<NetType, Rule>
    ensures { Joins (net.BuiltIn before) (kind.BuiltIn next) result }
{
    if before.is_same(next) {
        Ok(NetType::BuiltIn(before))
    } else {
        Err(Rule::P5)
    }
}

fn nettypes(before: u32, next: u32) -> Result<NetType, Rule>
    ensures { Joins (net.User before) (kind.User next) result }
{
    if before == next {
        Ok(NetType::User(before))
    } else {
        Err(Rule::P4)
    }
}

// The type of the segments so far and one more.
fn joined(before: NetType, next: SegmentKind) -> Result<NetType, Rule>
    ensures { Joins before next result }
{
    match (before, next) {
        (before, SegmentKind::Interconnect) => Ok(before),
        (NetType::Untyped, SegmentKind::BuiltIn(leaf)) => Ok(NetType::BuiltIn(leaf)),
        (NetType::Untyped, SegmentKind::User(nettype)) => Ok(NetType::User(nettype)),
        (NetType::BuiltIn(leaf), SegmentKind::BuiltIn(other)) => leaves(leaf, other),
        (NetType::User(nettype), SegmentKind::User(other)) => nettypes(nettype, other),
        (NetType::BuiltIn(_), SegmentKind::User(_)) => Err(Rule::P5),
        (NetType::User(_), SegmentKind::BuiltIn(_)) => Err(Rule::P5),
    }
}

/// The type of a net whose segments, in the order of elaboration, are of these kinds: that of the first that has one,
/// which all others that have one must match. It takes no memory.
///
/// # Errors
///
/// `Unlike` with the first segment that does not match the first typed one: P4 where both are of nettypes, else P5.
pub fn type_of_class(kinds: &[SegmentKind]) -> Result<NetType, Unlike>
    requires { length kinds.now < 2 ^ 32 }
    ensures { TypeOf kinds.now result }
{
    let mut found = NetType::Untyped;
    for at in 0..kinds.len() {
        match joined(found, kinds[at]) {
            Ok(next) => found = next,
            Err(rule) => {
                return Err(Unlike {
                    rule,
                    segment: at as u32,
                });
            }
        }
    }
    Ok(found)
}
