//! Plans beside a search over all sets, and worked plans.
ghost use Rattle.read_plan.specs.Planners.{FitsCode};

use crate::given_codes::{FOUR_AND_TWO, LAYERS, layered, table_of};
use ec_code::{Code, Plugin, Profile, Technique, decides};
use ec_words::Mask;
use read_plan::{Planner, plan};
use std::test::Fail;
use table_code::TableCode;

/// The plan; no set if one of the two does not lie below n.
fn planned(code: &dyn Code, avail: u16, wanted: u16) -> Option<Mask> {
    let n = code.shape().n;
    if Mask(avail).lies_below(n) && Mask(wanted).lies_below(n) {
        plan(code, Mask(avail), Mask(wanted))
    } else {
        None
    }
}

fn decided(code: &dyn Code, from: u16, wanted: u16) -> bool {
    let n = code.shape().n;
    Mask(from).lies_below(n)
        && Mask(wanted).lies_below(n)
        && decides(code, Mask(from), Mask(wanted))
}

/// By size, and then by the lists: of two sets of one size the set with the lowest bit in which they differ comes first.
fn is_less(one: u16, other: u16) -> bool {
    one.count_ones() < other.count_ones()
        || one.count_ones() == other.count_ones() && one.reverse_bits() > other.reverse_bits()
}

/// The positions that a set decides.
fn positions_of(code: &dyn Code, from: u16) -> u16 {
    let mut positions = 0;
    for p in 0..8u8 {
        if decided(code, from, 1u16 << p) {
            positions |= 1u16 << p;
        }
    }
    positions
}

/// The positions that each set of eight decides.
fn all_decided(code: &dyn Code) -> [u16; 256] {
    let mut positions = [0; 256];
    for set in 0..256u16 {
        positions[set as usize] = positions_of(code, set);
    }
    positions
}

/// The wanted set if it is available, and else the least of all subsets that decides it.
fn least_of_all(positions: &[u16; 256], avail: u16, wanted: u16) -> Option<Mask> {
    if wanted & !avail == 0 {
        return Some(Mask(wanted));
    }
    let mut best = None;
    for set in 0..256u16 {
        if set & !avail == 0 && wanted & !positions[set as usize] == 0 {
            best = match best {
                Some(Mask(least)) if !is_less(set, least) => Some(Mask(least)),
                _ => Some(Mask(set)),
            };
        }
    }
    best
}

/// Whether the plan of each position is the least of all sets.
fn are_least(code: &dyn Code, positions: &[u16; 256], avail: u16) -> bool {
    for p in 0..u8::min(8, code.shape().n) {
        let wanted = 1u16 << p;
        if planned(code, avail, wanted) != least_of_all(positions, avail, wanted) {
            return false;
        }
    }
    true
}

/// The same for each available set, if the code has this number of positions.
fn all_are_least(code: Option<TableCode>, n: u8) -> bool {
    let code = match code {
        Some(code) => code,
        None => return false,
    };
    let positions = all_decided(&code);
    for avail in 0..1u16 << u8::min(8, n) {
        if !are_least(&code, &positions, avail) {
            return false;
        }
    }
    code.shape().n == n
}

/// Three data chunks; two of the rows differ by a data chunk.
const ALIKE: [[u8; 4]; 6] = [
    [1, 0, 0, 0],
    [0, 1, 0, 0],
    [0, 0, 1, 0],
    [1, 1, 0, 0],
    [1, 70, 143, 0],
    [1, 71, 143, 0],
];

/// The code of lrc for 4, 2 and 3: the mapping `DD__DD__` and the layers `DDc_DDc_`, `DDDc____` and `____DDDc`.
const GROUPS: [[u8; 4]; 8] = [
    [1, 0, 0, 0],
    [0, 1, 0, 0],
    [1, 1, 1, 1],
    [0, 0, 1, 1],
    [0, 0, 1, 0],
    [0, 0, 0, 1],
    [0x01, 0x46, 0x8f, 0xc8],
    [0x01, 0x46, 0x8e, 0xc9],
];

/// The code that the plugin shec makes of these numbers.
fn shec_of(k: u32, m: u32, c: u32) -> Option<TableCode> {
    let mut code = table_of(&FOUR_AND_TWO, 4, [0, 1, 2, 3])?;
    let answer = code.init(&Profile {
        plugin: Plugin::Shec,
        k: Some(k),
        m: Some(m),
        c: Some(c),
        l: None,
        w: None,
        technique: Some(Technique::Single),
        mapping: None,
        layers: None,
        stripe_unit: 4096,
        min_size: None,
    });
    match answer {
        Ok(()) => Some(code),
        Err(_) => None,
    }
}

#[test]
fn a_plan_is_the_least_of_all_sets(rt: HostRuntime) {
    assert!(rt;
        all_are_least(table_of(&FOUR_AND_TWO, 4, [0, 1, 2, 3]), 6),
        "reed_sol_van"
    );
    assert!(rt;
        all_are_least(table_of(&ALIKE, 3, [0, 1, 2, 0]), 6),
        "rows alike"
    );
    assert!(rt; all_are_least(shec_of(4, 3, 2), 7), "shec");
    assert!(rt;
        all_are_least(table_of(&LAYERS, 4, [2, 3, 6, 7]), 8),
        "lrc of layers"
    );
    assert!(rt;
        all_are_least(table_of(&GROUPS, 4, [0, 1, 4, 5]), 8),
        "lrc of numbers"
    );
}

// Position 2 is lost: row 2 is row 1 less row 0 and row 3, and no two rows make it. Position 6 is lost: row 6 is row 0 less
// row 7. Row 2 is 0 in columns in which rows 6 and 7 are not.
#[test]
fn plans_of_a_code_with_mapped_positions(rt: HostRuntime) {
    let code = layered().expect(&rt, "a code");
    for (avail, wanted, plan) in [
        (0b1111_1011, 1u16 << 2, Some(Mask(0b1011))),
        (0b1011_1111, 1u16 << 6, Some(Mask(0b1000_0001))),
        (0b1100_0000, 1u16 << 2, None),
        (0b1111_1111, 1u16 << 2, Some(Mask(1u16 << 2))),
        (0b1111_1111, 0, Some(Mask(0))),
        (0, 0, Some(Mask(0))),
        (0, 1, None),
    ] {
        assert!(rt; planned(&code, avail, wanted) == plan);
    }
}

/// Whether a planner answers this twice, the second time from what it may have kept.
fn is_planned_twice(planner: &mut Planner, code: &dyn Code, set: Option<Mask>) -> bool
    requires { FitsCode planner.old (meaning code.now) }
{
    let n = code.shape().n;
    let (avail, wanted) = (Mask(0b110), Mask(1));
    avail.lies_below(n)
        && wanted.lies_below(n)
        && planner.plan(code, avail, wanted) == set
        && planner.plan(code, avail, wanted) == set
}

// Row 0 is the sum of row 2 and row 1.
#[test]
fn a_planner_answers_as_a_plan(rt: HostRuntime) -> Result<(), Fail> {
    let rows = [[1, 0, 0, 0], [0, 1, 0, 0], [1, 1, 0, 0]];
    let code = table_of(&rows, 2, [0, 1, 0, 0]).expect(&rt, "a code");
    let mut planner = Planner::new(rt.alloc(), 4)?;
    assert!(rt; is_planned_twice(&mut planner, &code, Some(Mask(0b110))));
    Ok(())
}
