//! Calls of the program with files and sinks in memory, and what has to come of them.
use std::alloc::{AllocError, Global};
use std::process::Abort;
use top_call::zplgrid;
use zpl_io::{MemFiles, MemSink};

/// A command without its words is told how it is used.
pub const USAGE: &str = "usage: zplgrid run|mean|list|exec|gen WORD [words]\n";

/// A number that no call of a file or a sink has.
pub const NEVER: u64 = 1_000_000;

/// How many bytes each sink takes.
const ROOM: u64 = 65_536;

/// The words of a call, the texts of the files `a` and `o`, and the numbers of a fetch, a put of
/// out and a put of errs that fail.
#[derive(Clone, Copy)]
pub struct Call<'a> {
    pub words: &'a [&'a str],
    pub text: &'a [u8],
    pub order: &'a str,
    pub fails: [u64; 3],
}

/// The status, what out and errs took, and the turns.
pub type Wanted<'a> = (u8, &'a str, &'a str, u64);

/// The words, the text, and what has to come of it.
pub type Row = (&'static [&'static str], &'static str, Wanted<'static>);

/// What came of a call.
#[derive(Drop)]
pub struct Answer {
    pub status: u8,
    pub out: Vec<u8>,
    pub errs: Vec<u8>,
    pub turns: u64,
    pub has_code: bool,
}

impl Answer {
    pub fn is(&self, wanted: Wanted<'_>) -> bool {
        let (status, out, errs, turns) = wanted;
        let is_told = self.out.as_slice() == out.as_bytes()
            && self.errs.as_slice() == errs.as_bytes();
        is_told && self.status == status && self.turns == turns
    }
}

fn command_line(alloc: Global, words: &[&str]) -> Result<Vec<String>, AllocError> {
    let mut strings = Vec::new(alloc);
    for word in words {
        strings.push(word.to_string(alloc)?)?;
    }
    Ok(strings)
}

/// Calls the program.
pub fn answer_to(alloc: Global, call: Call<'_>) -> Result<Answer, AllocError> {
    let mut files = MemFiles::new(alloc);
    files.add(alloc, "a", call.text)?;
    files.add(alloc, "o", call.order.as_bytes())?;
    let mut out = MemSink::new(alloc, ROOM)?;
    let mut errs = MemSink::new(alloc, ROOM)?;
    let [fetch, put, told] = call.fails;
    files.fail_at(alloc, fetch)?;
    out.fail_at(alloc, put)?;
    errs.fail_at(alloc, told)?;
    let words = command_line(alloc, call.words)?;
    let ran = zplgrid(alloc, words.as_slice(), &mut files, &mut out, &mut errs);
    Ok(Answer {
        status: ran.status,
        out: Vec::from_slice(alloc, out.taken())?,
        errs: Vec::from_slice(alloc, errs.taken())?,
        turns: ran.turns,
        has_code: ran.code.is_some(),
    })
}

/// Calls with these words, this text and this order, where nothing fails.
pub fn expect(
    rt: &impl Abort,
    alloc: Global,
    words: &[&str],
    text: &[u8],
    order: &str,
    wanted: Wanted<'_>,
) -> Result<(), AllocError> {
    let fails = [NEVER, NEVER, NEVER];
    let call = Call {
        words,
        text,
        order,
        fails,
    };
    assert!(rt; answer_to(alloc, call)?.is(wanted), "{words:?}");
    Ok(())
}

/// Calls of `run`, `list` and `mean`: the first two have code with the statuses 0 and 8.
pub fn expect_rows(rt: &impl Abort, alloc: Global, rows: &[Row]) -> Result<(), AllocError> {
    for (words, text, wanted) in rows {
        let call = Call {
            words,
            text: text.as_bytes(),
            order: "",
            fails: [NEVER, NEVER, NEVER],
        };
        let found = answer_to(alloc, call)?;
        let is_ended = found.status == 0 || found.status == 8;
        let has_code = is_ended && words.first() != Some(&"mean");
        assert!(rt;
            found.is(*wanted) && found.has_code == has_code,
            "{words:?}"
        );
    }
    Ok(())
}

/// A call where something fails.
pub type Failing = ([u64; 3], Row);

pub fn expect_failing(rt: &impl Abort, alloc: Global, rows: &[Failing]) -> Result<(), AllocError> {
    for (fails, (words, text, wanted)) in rows {
        let call = Call {
            words,
            text: text.as_bytes(),
            order: "",
            fails: *fails,
        };
        assert!(rt; answer_to(alloc, call)?.is(*wanted), "{words:?} {fails:?}");
    }
    Ok(())
}
