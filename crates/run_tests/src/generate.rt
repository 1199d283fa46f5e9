// `generate`: the summary of a lottery for a problem that a seed makes.
use crate::runs::{Seen, ZEROS, run_alone};
use alloc_cli::Cause;
use std::alloc::{AllocError, Global};
use std::process::Abort;
use std::test::Fail;

// A run of `generate` for these numbers.
fn generate(alloc: Global, seed: &str, agents: &str, objects: &str) -> Result<Seen, AllocError> {
    run_alone(alloc, &["generate", seed, agents, objects])
}

// `generate` ends with Done, and its line begins so and ends so.
fn check_generated(
    rt: &(impl Abort + AllocGlobal),
    seed: &str,
    agents: &str,
    objects: &str,
    start: &str,
    end: &str,
) -> Result<(), AllocError> {
    let seen = generate(rt.alloc(), seed, agents, objects)?;
    assert_eq!(rt; seen.status, 0, "status, not {start}");
    assert!(rt;
        seen.out.starts_with(start.as_bytes()),
        "front, not {start}"
    );
    assert!(rt; seen.out.ends_with(end.as_bytes()), "end, not {end}");
    assert!(rt; seen.err.is_empty());
    let again = generate(rt.alloc(), seed, agents, objects)?;
    assert_eq!(rt;
        seen.out.as_slice(),
        again.out.as_slice(),
        "a second run, not {start}"
    );
    Ok(())
}

// One agent gets the one object. Of four agents the seed of zeros has the lists s1 s2 s3, twice s3 s1
// s2, and s1 s3 s2, so that each of the four gets its first choice.
#[test]
fn small_and_made(rt: HostRuntime) -> Result<(), Fail> {
    let one = "{\"agents\":1,\"columns\":2,\"denominator\":\"1\",\
\"expected\":{\"none\":\"0\",\"s1\":\"1\"},\
\"greatest_weight\":\"1\",\"least_weight\":\"1\",\"pieces\":1,\"priced\":true}\n";
    check_generated(&rt, ZEROS, "1", "1", one, one)?;
    let four = "{\"agents\":4,\"columns\":4,\"denominator\":\"1\",\
\"expected\":{\"none\":\"0\",\"s1\":\"2\",\"s2\":\"0\",\"s3\":\"2\"},\
\"greatest_weight\":\"1\",\"least_weight\":\"1\",\"pieces\":1,\"priced\":true}\n";
    check_generated(&rt, ZEROS, "4", "03", four, four)?;
    Ok(())
}

// The denominators and what is expected of each object are those of an independent program. Which
// pieces come is this program's choice.
#[test]
fn large_and_made(rt: HostRuntime) -> Result<(), Fail> {
    let zeros = "{\"agents\":60,\"columns\":7,\"denominator\":\"254592\",\
\"expected\":{\"none\":\"627360\",\"s1\":\"2545920\",\"s2\":\"2545920\",\"s3\":\"2363328\",\
\"s4\":\"2101152\",\"s5\":\"2545920\",\"s6\":\"2545920\"},\"greatest_weight\":\"";
    check_generated(&rt, ZEROS, "60", "6", zeros, ",\"priced\":true}\n")?;
    let rising = "000102030405060708090a0b0c0d0e0f101112131415161718191A1B1C1D1E1F";
    let other = "{\"agents\":60,\"columns\":7,\"denominator\":\"18144\",\
\"expected\":{\"none\":\"34954\",\"s1\":\"181440\",\"s2\":\"181440\",\"s3\":\"146486\",\
\"s4\":\"181440\",\"s5\":\"181440\",\"s6\":\"181440\"},\"greatest_weight\":\"";
    check_generated(&rt, rising, "60", "6", other, ",\"priced\":true}\n")?;
    Ok(())
}

// There are 1 to 1,000 agents and 1 to 200 objects, and the seed has 64 digits.
#[test]
fn sizes_and_seeds(rt: HostRuntime) -> Result<(), Fail> {
    for (seed, agents, objects) in [
        (ZEROS, "0", "1"),
        (ZEROS, "1001", "1"),
        (ZEROS, "1", "0"),
        (ZEROS, "1", "201"),
        (ZEROS, "4294967297", "1"),
        (ZEROS, "-1", "1"),
        (ZEROS, "1", ""),
        ("00", "1", "1"),
    ] {
        let seen = generate(rt.alloc(), seed, agents, objects)?;
        assert_eq!(rt; seen.cause, Cause::Usage, "{agents} {objects}");
        assert_eq!(rt; seen.status, 2, "{agents} {objects}");
        assert!(rt; seen.out.is_empty(), "{agents} {objects}");
    }
    let most_objects = generate(rt.alloc(), ZEROS, "3", "200")?;
    assert_eq!(rt; most_objects.cause, Cause::Done);
    Ok(())
}
