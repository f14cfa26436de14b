//! Chains of calls.
use super::judging::{each_whole, expect};
use std::alloc::{AllocError, Global};
use std::test::Fail;

/// A text of so many procedures, the entry procedure first, of which each calls the next one so
/// many times, and the offset of the last call.
fn chain(alloc: Global, count: u32, times: u32) -> Result<(String, usize), AllocError> {
    let mut text = String::from_str(alloc, "program t;\nprocedure t();\nbegin\n")?;
    let mut last = 0;
    for next in 1..count {
        for _ in 0..times {
            last = text.len();
            write!(text, "p{next}();\n")?;
        }
        write!(text, "end;\nprocedure p{next}();\nbegin\n")?;
    }
    text.push_str("end;\n")?;
    Ok((text, last))
}

#[test]
fn chains_are_as_long_as_they_may_be(rt: HostRuntime) -> Result<(), Fail> {
    let alloc = rt.alloc();
    let (text, _last) = chain(alloc, 32, 1)?;
    expect(&rt, alloc, text.as_str(), "Ok", 0)?;
    let (text, _last) = chain(alloc, 32, 2)?;
    expect(&rt, alloc, text.as_str(), "Ok", 0)?;
    let (text, last) = chain(alloc, 33, 1)?;
    assert!(rt; last < 10000);
    expect(&rt, alloc, text.as_str(), "DeepCalls", last as u32)
}

const CYCLES: [(&str, &str, u32); 4] = [
    // two procedures call each other; the first call in the text is told
    (
        "procedure a(); begin b(); end;\nprocedure b(); begin a(); end;\nprocedure \
            t();\nbegin\na();\nend;\n",
        "Recursion",
        32,
    ),
    // the entry procedure calls one that calls it
    (
        "procedure a(); begin t(); end;\nprocedure t();\nbegin\na();\nend;\n",
        "Recursion",
        32,
    ),
    // what leads to a cycle is on none
    (
        "procedure t();\nbegin\na();\nend;\nprocedure a(); begin b(); end;\nprocedure b(); \
            begin a(); end;\n",
        "Recursion",
        63,
    ),
    // two procedures call one that calls nobody
    (
        "procedure t();\nbegin\na();\nb();\nend;\nprocedure a(); begin c(); end;\nprocedure \
            b(); begin c(); end;\nprocedure c(); begin end;\n",
        "Ok",
        0,
    ),
];

#[test]
fn calls_that_come_back_are_told(rt: HostRuntime) -> Result<(), Fail> {
    each_whole(&rt, rt.alloc(), &CYCLES)
}
