// Each pair of kinds of segments.
use crate::{NetType, SegmentKind, Unlike, type_of_class};
use nt_diag::Rule;
use nt_value::Leaf;
use std::test::Fail;

const WORD: Leaf = Leaf {
    width: 32,
    signed: false,
    four: true,
};

const SIGNED: Leaf = Leaf {
    width: 32,
    signed: true,
    four: true,
};

const KINDS: [SegmentKind; 5] = [
    SegmentKind::Interconnect,
    SegmentKind::BuiltIn(WORD),
    SegmentKind::BuiltIn(SIGNED),
    SegmentKind::User(0),
    SegmentKind::User(7),
];

// A pair by the places of its kinds: `.` is no type, `w` and `s` the leaves, `0` and `7` the nettypes; `4` is P4 and `5` P5 at the
// second.
const ANSWERS: [&[u8; 5]; 5] = [b".ws07", b"ww555", b"s5s55", b"05504", b"75547"];

fn code(answer: Result<NetType, Unlike>) -> u8 {
    match answer {
        Ok(NetType::Untyped) => b'.',
        Ok(NetType::BuiltIn(leaf)) => { if leaf.signed { b's' } else { b'w' } }
        Ok(NetType::User(nettype)) => { if nettype == 0 { b'0' } else { b'7' } }
        Err(unlike) => match (unlike.segment, unlike.rule) {
            (1, Rule::P4) => b'4',
            (1, Rule::P5) => b'5',
            _ => b'?',
        },
    }
}

#[test]
fn each_pair_has_its_type(rt: HostRuntime) -> Result<(), Fail> {
    for first in 0..5usize {
        for second in 0..5usize {
            let pair = [KINDS[first], KINDS[second]];
            assert_eq!(rt; code(type_of_class(&pair)), ANSWERS[first][second]);
        }
    }
    Ok(())
}

#[test]
fn the_first_unlike_segment_is_told(rt: HostRuntime) {
    let kinds = [
        SegmentKind::Interconnect,
        SegmentKind::User(3),
        SegmentKind::Interconnect,
        SegmentKind::User(3),
        SegmentKind::BuiltIn(WORD),
        SegmentKind::User(4),
    ];
    let unlike = Unlike {
        rule: Rule::P5,
        segment: 4,
    };
    assert!(rt; type_of_class(&kinds) == Err(unlike));
    assert!(rt; type_of_class(&kinds[..4]) == Ok(NetType::User(3)));
    assert!(rt; type_of_class(&[]) == Ok(NetType::Untyped));
}
