//! Words that set configs.
use super::rows::{Row, USAGE, expect_rows};
use std::test::Fail;

/// The listing of the code of a program with a region of five tuples.
const FIVE: &str = "zplnode 1\ngrid 1\nscalars 0\nslots 1\ncells 0\ncode\nfix 0 1..5:1:1\nend\n";

/// With a region of one.
const ONE: &str = "zplnode 1\ngrid 1\nscalars 0\nslots 1\ncells 0\ncode\nfix 0 1..1:1:1\nend\n";

/// With none.
const NONE: &str = "zplnode 1\ngrid 1\nscalars 0\nslots\ncells 0\ncode\nend\n";

const UNKNOWN: &str = "settings refused: UnknownConfig\n";

const TYPE: &str = "settings refused: ConfigType\n";

/// A small program, with no config.
const SMALL: &str = "program t; var x : integer; procedure t(); begin x := 1; end;";

/// One with two configs, on which a constant, a region and a direction depend.
const CONFIGS: &str = "program t; config var n : integer = 1; b : boolean = true; \
    constant c : integer = 10 / n; region R = [1..n]; direction d = [n]; \
    procedure t(); begin end;";

/// One of which the default of a config can't be computed.
const DEFAULT: &str = "program t; config var n : integer = 1 / 0; procedure t(); begin end;";

/// One with a fault of names.
const JUDGED: &str = "program t; config var n : integer = 1; procedure u(); begin end;";

/// Words that are no setting, so that there is no command.
const NO_SETTINGS: [Row; 16] = [
    (&["run", "a", "if:=1"], "", (1, "", USAGE, 0)),
    (&["list", "a", "if:=1"], "", (1, "", USAGE, 0)),
    (&["run", "a", "Index2:=1"], "", (1, "", USAGE, 0)),
    (&["list", "a", "Index2:=1"], "", (1, "", USAGE, 0)),
    (&["run", "a", "1n:=1"], "", (1, "", USAGE, 0)),
    (&["list", "a", "1n:=1"], "", (1, "", USAGE, 0)),
    (&["run", "a", ":=1"], "", (1, "", USAGE, 0)),
    (&["list", "a", ":=1"], "", (1, "", USAGE, 0)),
    (&["run", "a", "n"], "", (1, "", USAGE, 0)),
    (&["list", "a", "n"], "", (1, "", USAGE, 0)),
    (&["run", "a", "n=1"], "", (1, "", USAGE, 0)),
    (&["list", "a", "n=1"], "", (1, "", USAGE, 0)),
    (&["run", "a", "n:1"], "", (1, "", USAGE, 0)),
    (&["list", "a", "n:1"], "", (1, "", USAGE, 0)),
    (&["run", "a", "n :=1"], "", (1, "", USAGE, 0)),
    (&["list", "a", "n :=1"], "", (1, "", USAGE, 0)),
];

/// One word more.
const ONE_WORD: [Row; 32] = [
    (&["run", "a", "x:=1"], SMALL, (5, "", UNKNOWN, 0)),
    (&["list", "a", "x:=1"], SMALL, (5, "", UNKNOWN, 0)),
    (&["run", "a", "report:=1"], SMALL, (5, "", UNKNOWN, 0)),
    (&["list", "a", "report:=1"], SMALL, (5, "", UNKNOWN, 0)),
    (&["run", "a", "turns:=1"], SMALL, (5, "", UNKNOWN, 0)),
    (&["list", "a", "turns:=1"], SMALL, (5, "", UNKNOWN, 0)),
    (&["run", "a", "_0:="], SMALL, (5, "", UNKNOWN, 0)),
    (&["list", "a", "_0:="], SMALL, (5, "", UNKNOWN, 0)),
    (&["run", "a", "n:=5"], CONFIGS, (0, "", "", 2)),
    (&["list", "a", "n:=5"], CONFIGS, (0, FIVE, "", 0)),
    (
        &["run", "a", "n:=-00"],
        CONFIGS,
        (5, "", "settings refused: BadConstant\n", 0),
    ),
    (
        &["list", "a", "n:=-00"],
        CONFIGS,
        (5, "", "settings refused: BadConstant\n", 0),
    ),
    (&["run", "a", "b:=false"], CONFIGS, (0, "", "", 2)),
    (&["list", "a", "b:=false"], CONFIGS, (0, ONE, "", 0)),
    (&["run", "a", "N:=5"], CONFIGS, (5, "", UNKNOWN, 0)),
    (&["list", "a", "N:=5"], CONFIGS, (5, "", UNKNOWN, 0)),
    (&["run", "a", "c:=5"], CONFIGS, (5, "", UNKNOWN, 0)),
    (&["list", "a", "c:=5"], CONFIGS, (5, "", UNKNOWN, 0)),
    (&["run", "a", "n:="], CONFIGS, (5, "", TYPE, 0)),
    (&["list", "a", "n:="], CONFIGS, (5, "", TYPE, 0)),
    (&["run", "a", "n:=1:=2"], CONFIGS, (5, "", TYPE, 0)),
    (&["list", "a", "n:=1:=2"], CONFIGS, (5, "", TYPE, 0)),
    (&["run", "a", "b:=1"], CONFIGS, (5, "", TYPE, 0)),
    (&["list", "a", "b:=1"], CONFIGS, (5, "", TYPE, 0)),
    (
        &["run", "a", "n:=32768"],
        CONFIGS,
        (5, "", "settings refused: DirectionLimit\n", 0),
    ),
    (
        &["list", "a", "n:=32768"],
        CONFIGS,
        (5, "", "settings refused: DirectionLimit\n", 0),
    ),
    (&["run", "a", "n:=2"], DEFAULT, (0, "", "", 1)),
    (&["list", "a", "n:=2"], DEFAULT, (0, NONE, "", 0)),
    (
        &["run", "a", "n:=x"],
        JUDGED,
        (4, "", "refused: NoEntry, line 1, byte 8\n", 0),
    ),
    (
        &["list", "a", "n:=x"],
        JUDGED,
        (4, "", "refused: NoEntry, line 1, byte 8\n", 0),
    ),
    (
        &["run", "a", "n:=x"],
        "program t",
        (4, "", "refused: Syntax, line 1, byte 9\n", 0),
    ),
    (
        &["list", "a", "n:=x"],
        "program t",
        (4, "", "refused: Syntax, line 1, byte 9\n", 0),
    ),
];

const SEVERAL: [Row; 6] = [
    (
        &["run", "a", "n:=5", "n:=6"],
        CONFIGS,
        (5, "", "settings refused: TwiceSet\n", 0),
    ),
    (
        &["run", "a", "n:=5", "turns=7", "b:=false"],
        CONFIGS,
        (0, "", "", 2),
    ),
    (
        &["run", "a", "turns=7", "turns=7", "n:=5"],
        CONFIGS,
        (1, "", USAGE, 0),
    ),
    (
        &["list", "a", "n:=5", "turns=7"],
        CONFIGS,
        (1, "", USAGE, 0),
    ),
    (
        &["list", "a", "b:=false", "n:=5"],
        CONFIGS,
        (0, FIVE, "", 0),
    ),
    (&["run", "n:=5"], CONFIGS, (2, "", "cannot read n:=5\n", 0)),
];

#[test]
fn settings(rt: HostRuntime) -> Result<(), Fail> {
    expect_rows(&rt, rt.alloc(), &NO_SETTINGS)?;
    expect_rows(&rt, rt.alloc(), &ONE_WORD)?;
    expect_rows(&rt, rt.alloc(), &SEVERAL)?;
    Ok(())
}
