use plain_lists::{Copied, Same};
use quorum_sets::Rules;
use scenario_file::{Cast, Scenario, ScenarioRefusal};
use std::alloc::Global;
use std::test::Fail;

/// The three keys that have no default.
const SMALLEST: &str =
    "f = 1\nseed = \"0000000000000000000000000000000000000000000000000000000000000000\"\nscreens = 1\n";

#[test]
fn the_smallest_scenario_is_read(rt: HostRuntime) -> Result<(), Fail> {
    let alloc = rt.alloc();
    let read = Scenario::read(alloc, SMALLEST.as_bytes())?;
    let made = Scenario::s1(alloc)?.copy()?;
    assert_eq!(rt; read.sizes.n, made.sizes.n);
    assert_eq!(rt; read.seed, made.seed);
    assert!(rt; read.heights.is_same(&made.heights));
    assert!(rt; read.failing.is_same(&made.failing));
    assert_eq!(rt; read.frames, made.frames);
    Ok(())
}

/// The smallest scenario with one line more.
fn read_with(alloc: Global, line: &str) -> Result<Result<Scenario, ScenarioRefusal>, Fail> {
    let mut text = String::from_str(alloc, SMALLEST)?;
    text.push_str(line)?;
    Ok(Scenario::read(alloc, text.as_bytes()))
}

#[test]
fn a_scenario_goes_by_the_first_rules_unless_it_names_the_others(
    rt: HostRuntime,
) -> Result<(), Fail> {
    let alloc = rt.alloc();
    assert_eq!(rt; read_with(alloc, "")??.sizes.rules, Rules::First);
    assert_eq!(rt; read_with(alloc, "rules = 1\n")??.sizes.rules, Rules::First);
    assert_eq!(rt; read_with(alloc, "rules = 2\n")??.sizes.rules, Rules::Live);
    for line in ["rules = 0\n", "rules = 3\n", "rules = \"x\"\n"] {
        let read = read_with(alloc, line)?;
        assert!(rt;
            matches!(&read, Err(ScenarioRefusal::BadValue { name }) if name.as_str() == "rules")
        );
    }
    Ok(())
}

#[test]
fn actors_are_found_by_their_names(rt: HostRuntime) -> Result<(), Fail> {
    let cast = Cast {
        masters: 4,
        proxies: 2,
        screens: 1,
    };
    assert_eq!(rt; cast.name(rt.alloc(), 5)?.as_str(), "p1");
    assert_eq!(rt; cast.named(rt.alloc(), "s0")?, Some(6));
    assert_eq!(rt; cast.named(rt.alloc(), "m4")?, None);
    Ok(())
}
