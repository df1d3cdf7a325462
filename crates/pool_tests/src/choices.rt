//! Worked choices, and choices beside a plain program that follows the definitions by sets.
ghost use Rattle.std.specs.Prelude.{◌≡◌, ◌≤◌, ℕ, IsTrue, Some};
ghost use Rattle.ec_model.specs.Codes.{LiesBelow};
ghost use Rattle.ec_model.specs.Versions.{Version as Base};
ghost use Rattle.auth_log.specs.Choice.{JoinedLieBelow};

use auth_log::{Blocked, Choice, Info, State, Survey, choose};
use ec_code::{Code, Plugin, Profile};
use ec_words::{Interval, Intervals, Mask, NoMemory, Version};
use rs_van::RsVan;
use std::alloc::Global;
use std::test::Fail;

/// The code of some data chunks and some others.
fn code_of(k: u32, m: u32) -> Option<RsVan> {
    let mut code = RsVan::new();
    let answer = code.init(&Profile {
        plugin: Plugin::Jerasure,
        k: Some(k),
        m: Some(m),
        c: None,
        l: None,
        w: None,
        technique: None,
        mapping: None,
        layers: None,
        stripe_unit: 4096,
        min_size: None,
    });
    match answer {
        Ok(()) => Some(code),
        Err(_) => None,
    }
}

fn version(epoch: u32, seq: u64) -> Version {
    Version { epoch, seq }
}

/// What a whole shard says.
fn whole(les: u32, head: Version) -> Option<Info> {
    Some(Info {
        les,
        head,
        partial: false,
    })
}

/// Intervals of these epochs, with the slots that joined them where they went alive.
fn history(alloc: Global, rows: &[(u32, Option<u16>)]) -> Result<Intervals, NoMemory> {
    let mut intervals = Intervals::new(alloc);
    for (epoch, joined) in rows {
        intervals.push(Interval {
            epoch: *epoch,
            up: Mask(31),
            alive: match joined {
                Some(bits) => Some((Mask(*bits), version(0, 0))),
                None => None,
            },
        })?;
    }
    Ok(intervals)
}

/// Whether a joined set lies below `n`.
fn joined_lies_below(interval: &Interval, n: u8) -> bool
    requires { n ≤ 16 }
    ensures { IsTrue result → (joined : ℕ) (base : Base) → interval.now.alive ≡ Some (joined, base) → LiesBelow n joined }
{
    match &interval.alive {
        Some((joined, _)) => joined.lies_below(n),
        None => true,
    }
}

/// Whether all joined sets lie below `n`.
fn lie_below(intervals: &[Interval], n: u8) -> bool
    requires { n ≤ 16 }
    ensures { IsTrue result → JoinedLieBelow n intervals.now }
{
    for interval in intervals {
        if !joined_lies_below(interval, n) {
            return false;
        }
    }
    true
}

/// The choice, and none where a joined set does not lie below the number of positions.
fn chosen(
    code: &dyn Code,
    intervals: &Intervals,
    infos: &[Option<Info>; 16],
    up: u16,
) -> Option<Result<Choice, Blocked>> {
    let n = code.shape().n;
    if lie_below(intervals.as_slice(), n) {
        Some(choose(intervals, infos, Mask(up), code))
    } else {
        None
    }
}

/// What a row says of the slots that are up: the choice, or what blocks it.
type Answer = Option<Result<Choice, Blocked>>;

fn chosen_at(epoch: u32, head: Version) -> Answer {
    Some(Ok(Choice {
        epoch,
        version: head,
    }))
}

fn blocked_at(epoch: u32, up: u16) -> Answer {
    Some(Err(Blocked {
        epoch,
        up: Mask(up),
    }))
}

/// Whether three slots that started epoch 2 with the heads (2,2), (2,1) and (2,2) choose so.
fn three_choose(alloc: Global, code: &dyn Code, up: u16, answer: Answer) -> Result<bool, Fail> {
    let intervals = history(alloc, &[(1, Some(7)), (2, Some(7))])?;
    let mut infos = [None; 16];
    infos[0] = whole(2, version(2, 2));
    infos[1] = whole(2, version(2, 1));
    infos[2] = whole(2, version(2, 2));
    Ok(chosen(code, &intervals, &infos, up) == answer)
}

// By hand. The least head of the slots that are up is chosen; slot 0 alone does not decide all of what joined interval 2, and
// no slot does not decide all of what joined interval 1.
#[test]
fn three_slots_that_started_one_epoch(rt: HostRuntime) -> Result<(), Fail> {
    let code = code_of(2, 1).expect(&rt, "a code");
    let rows = [
        (0b111, chosen_at(2, version(2, 1))),
        (0b101, chosen_at(2, version(2, 2))),
        (0b001, blocked_at(2, 1)),
        (0, blocked_at(1, 0)),
    ];
    for (up, answer) in rows {
        assert!(rt; three_choose(rt.alloc(), &code, up, answer)?, "at {up}");
    }
    Ok(())
}

/// Five slots: change (2,1) is missing on slot 4 alone. Interval 3 was joined by slots 0 and 1, and served with it; interval 4
/// went alive, and nobody started it.
fn served_by_two() -> [Option<Info>; 16] {
    let mut infos = [None; 16];
    infos[0] = whole(3, version(2, 1));
    infos[1] = whole(3, version(2, 1));
    infos[2] = whole(2, version(2, 1));
    infos[3] = whole(2, version(2, 1));
    infos[4] = whole(2, version(0, 0));
    infos
}

/// The intervals of these slots.
fn four_intervals(alloc: Global) -> Result<Intervals, NoMemory> {
    let rows = [
        (1, Some(0b11111)),
        (2, Some(0b11111)),
        (3, Some(0b00011)),
        (4, Some(0b01111)),
    ];
    history(alloc, &rows)
}

/// The state by the slots that are up, where these hold the version that is surveyed, and none where a joined set or `holds` does
/// not lie below the number of positions.
fn state_by(intervals: &Intervals, code: &dyn Code, up: u16, holds: u16, min: u8) -> Option<State> {
    let n = code.shape().n;
    if !Mask(holds).lies_below(n) {
        return None;
    }
    if lie_below(intervals.as_slice(), n) {
        let survey = Survey::of(intervals, &served_by_two(), Mask(up));
        Some(survey.state(intervals, code, Mask(holds), min))
    } else {
        None
    }
}

// By hand. Without slots 0 and 1 the newest interval would be decided, by slots 2 and 3, and (0,0) chosen.
#[test]
fn a_change_that_two_slots_served_is_not_lost(rt: HostRuntime) -> Result<(), Fail> {
    let code = code_of(2, 3).expect(&rt, "a code");
    let intervals = four_intervals(rt.alloc())?;
    let infos = served_by_two();
    assert!(rt; chosen(&code, &intervals, &infos, 0b11100) == blocked_at(3, 0b11100));
    assert!(rt; chosen(&code, &intervals, &infos, 0b11111) == chosen_at(3, version(2, 1)));
    let without = Survey {
        eligible: Mask(0b11100),
        epoch: 2,
        version: version(0, 0),
    };
    assert!(rt; Survey::of(&intervals, &infos, Mask(0b11100)) == without);
    Ok(())
}

// By hand, with a least size of 3: the same interval stands against the state, too; one slot that holds the version does not
// decide all; two do, and are too few; three serve. What slots that are not up hold does not count.
#[test]
fn a_pool_is_down_short_or_active(rt: HostRuntime) -> Result<(), Fail> {
    let code = code_of(2, 3).expect(&rt, "a code");
    let intervals = four_intervals(rt.alloc())?;
    let up = Mask(0b11111);
    let few = Mask(0b11100);
    let two = Mask(0b00011);
    let three = Mask(0b00111);
    let rows = [
        (0b11100, 0b11111, State::Down { epoch: 3, up: few }),
        (0b11111, 0b00001, State::Down { epoch: 3, up }),
        (
            0b11111,
            0b00011,
            State::Short {
                joined: two,
                min: 3,
            },
        ),
        (
            0b00011,
            0b11111,
            State::Short {
                joined: two,
                min: 3,
            },
        ),
        (0b11111, 0b00111, State::Active { joined: three }),
    ];
    for (up, holds, state) in rows {
        assert!(rt;
            state_by(&intervals, &code, up, holds, 3) == Some(state),
            "at {up}, {holds}"
        );
    }
    Ok(())
}

/// The heads of three slots.
const HEADS: [Version; 3] = [
    Version { epoch: 2, seq: 2 },
    Version { epoch: 1, seq: 9 },
    Version { epoch: 2, seq: 1 },
];

/// The slots by their heads, ascending.
const BY_HEADS: [u16; 3] = [1, 2, 0];

/// The ways of three slots, each from 0 to 7: up and whole with a les of 0, 1 or 2, up and partial with one, up and silent, or
/// not up.
fn ways_of(number: u16) -> [u16; 3] {
    [number & 7, number >> 3 & 7, number >> 6 & 7]
}

/// What the shard of a slot says.
fn info_of(way: u16, head: Version) -> Option<Info> {
    match way {
        0..=5 => Some(Info {
            les: u32::from(way % 3),
            head,
            partial: 3 <= way,
        }),
        6 => None,
        _ => whole(2, head),
    }
}

/// The slots of one way, as a set.
fn slots_of(ways: &[u16; 3], way: u16) -> u16 {
    let mut set = 0;
    for i in 0..3 {
        if ways[i] == way {
            set |= 1u16 << i;
        }
    }
    set
}

/// The slots that are up, whole and of an epoch that went alive, where `joined` has the joined sets of the epochs 1 and 2.
fn eligible_of(ways: &[u16; 3], joined: [Option<u16>; 2], les: u16) -> u16 {
    match (les, joined) {
        (1, [Some(_), _]) | (2, [_, Some(_)]) => slots_of(ways, les),
        _ => 0,
    }
}

/// The first head, ascending, that a slot of a set has.
fn first_head(set: u16) -> Version {
    for i in BY_HEADS {
        if set >> i & 1 == 1 {
            return HEADS[i as usize];
        }
    }
    version(0, 0)
}

/// The survey by sets.
fn plain_survey(ways: &[u16; 3], joined: [Option<u16>; 2]) -> Survey {
    let older = eligible_of(ways, joined, 1);
    let newer = eligible_of(ways, joined, 2);
    let (epoch, set) = match (older, newer) {
        (0, 0) => (0, 0),
        (_, 0) => (1, older),
        _ => (2, newer),
    };
    Survey {
        eligible: Mask(older | newer),
        epoch,
        version: first_head(set),
    }
}

/// Whether an interval stands against a choice: two positions or more decide all.
fn stands_against(survey: Survey, epoch: u32, joined: Option<u16>) -> bool {
    match joined {
        Some(set) => survey.epoch <= epoch && (set & survey.eligible.0).count_ones() < 2,
        None => false,
    }
}

/// The choice by sets.
fn plain_choice(survey: Survey, joined: [Option<u16>; 2]) -> Result<Choice, Blocked> {
    let up = survey.eligible;
    if stands_against(survey, 1, joined[0]) {
        Err(Blocked { epoch: 1, up })
    } else if stands_against(survey, 2, joined[1]) {
        Err(Blocked { epoch: 2, up })
    } else {
        Ok(Choice {
            epoch: survey.epoch,
            version: survey.version,
        })
    }
}

/// Whether survey and choice are those by sets.
fn is_plain(
    code: &dyn Code,
    intervals: &Intervals,
    ways: &[u16; 3],
    joined: [Option<u16>; 2],
) -> bool {
    let mut infos = [None; 16];
    for i in 0..3 {
        infos[i] = info_of(ways[i], HEADS[i]);
    }
    let up = 7 & !slots_of(ways, 7);
    let survey = plain_survey(ways, joined);
    Survey::of(intervals, &infos, Mask(up)) == survey
        && chosen(code, intervals, &infos, up) == Some(plain_choice(survey, joined))
}

/// The first three ways whose survey or choice is another one.
fn first_other(
    code: &dyn Code,
    intervals: &Intervals,
    joined: [Option<u16>; 2],
) -> Option<[u16; 3]> {
    for number in 0..512u16 {
        let ways = ways_of(number);
        if !is_plain(code, intervals, &ways, joined) {
            return Some(ways);
        }
    }
    None
}

/// A joined set of three slots, and none for 8.
fn joined_of(number: u16) -> Option<u16> {
    if number < 8 { Some(number) } else { None }
}

/// The first joined sets with which it is another one.
fn first_other_joined(alloc: Global, code: &dyn Code) -> Result<Option<u16>, NoMemory> {
    for number in 0..81u16 {
        let joined = [joined_of(number % 9), joined_of(number / 9)];
        let intervals = history(alloc, &[(1, joined[0]), (2, joined[1])])?;
        if first_other(code, &intervals, joined).is_some() {
            return Ok(Some(number));
        }
    }
    Ok(None)
}

#[test]
fn each_choice_is_the_one_by_sets(rt: HostRuntime) -> Result<(), Fail> {
    let code = code_of(2, 1).expect(&rt, "a code");
    assert_eq!(rt; first_other_joined(rt.alloc(), &code)?, None);
    Ok(())
}
