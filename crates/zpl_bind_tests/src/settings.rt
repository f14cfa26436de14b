//! Settings of configs.
use super::binding::answer;
use std::test::Fail;

const DECLS: &str = "config var n : integer = 8; b : boolean = true; region R = [1..n];";

/// Texts of a setting, and what they give.
const TEXTS: [(&str, &str); 14] = [
    ("n:=5", "5 1 | 1..5 ; | | "),
    ("n:=-3", "-3 1 | 1..-3 ; | | "),
    ("n:=007", "7 1 | 1..7 ; | | "),
    ("n:=", "ConfigType"),
    ("n:=-", "ConfigType"),
    ("n:=+5", "ConfigType"),
    ("n:=x", "ConfigType"),
    ("n:=true", "ConfigType"),
    ("n:=9223372036854775808", "ConfigType"),
    ("n:=-9223372036854775809", "ConfigType"),
    ("b:=false", "8 0 | 1..8 ; | | "),
    ("b:=True", "ConfigType"),
    ("m:=3", "UnknownConfig"),
    ("R:=3", "UnknownConfig"),
];

#[test]
fn texts_are_values_of_a_type(rt: HostRuntime) -> Result<(), Fail> {
    let alloc = rt.alloc();
    for (word, expected) in TEXTS {
        let shown = answer(&rt, alloc, DECLS, &[word])?;
        assert!(rt; shown.as_str() == expected);
    }
    Ok(())
}

#[test]
fn two_settings_of_one_name_are_refused(rt: HostRuntime) -> Result<(), Fail> {
    let alloc = rt.alloc();
    let shown = answer(&rt, alloc, DECLS, &["n:=5", "n:=6"])?;
    assert!(rt; shown.as_str() == "TwiceSet");
    let both = answer(&rt, alloc, DECLS, &["n:=5", "b:=false"])?;
    assert!(rt; both.as_str() == "5 0 | 1..5 ; | | ");
    Ok(())
}

/// A default that is set isn't computed; one that isn't set is.
#[test]
fn defaults_are_computed_unless_set(rt: HostRuntime) -> Result<(), Fail> {
    let alloc = rt.alloc();
    let decls = "config var n : integer = 1 / 0; m : integer = n + 1;";
    let unset = answer(&rt, alloc, decls, &[])?;
    assert!(rt; unset.as_str() == "BadConstant");
    let set = answer(&rt, alloc, decls, &["n:=4"])?;
    assert!(rt; set.as_str() == "4 5 | | | ");
    Ok(())
}
