//! Listings of drawn rows, read and written again.
use crate::reading::is_kept;
use std::alloc::{AllocError, Global};
use std::test::Fail;

/// Numbers one after another, by a linear congruence.
#[derive(Drop)]
struct Draws {
    state: u64,
}

impl Draws {
    /// The next number, below the most.
    fn below(&mut self, most: u64) -> u64 {
        self.state = self.state.wrapping_mul(1_103_515_245).wrapping_add(12_345) % 2_147_483_648;
        (self.state / 65_536) % most.max(1)
    }
}

/// The parts of a listing: so many lines, of which each has one of these forms. A `?` with a digit
/// stands for a number below it, a `!` with a digit for one from 1 up to it.
const PARTS: [(u32, &[&str]); 11] = [
    (1, &["zplnode 1"]),
    (1, &["grid !4"]),
    (1, &["scalars 2\nslots 1\ncells 1"]),
    (2, &["array -!4..?9:?3,?3", "array ?5..!4:?3,?3"]),
    (1, &["text 61"]),
    (
        3,
        &[
            "expr s?2 n?5 +",
            "expr s?2 n-!4 *",
            "expr s?2 n?5 max",
            "expr s?2 n-!4 <=",
        ],
    ),
    (1, &["group"]),
    (
        2,
        &[
            "put ?2 ?3 - ?9",
            "put ?2 ?3 ?3 ?9",
            "cell 0 ?3 - ?9",
            "cell 0 ?3 ?3 ?9",
            "acc ?2 sum ?3 - ?9",
            "acc ?2 min ?3 ?3 ?9",
            "acc ?2 any ?3 - ?9",
        ],
    ),
    (1, &["exchange"]),
    (1, &["item ?2 0 -!2", "item ?2 0 ?3"]),
    (1, &["code"]),
];

/// The forms of the ten instructions.
const CODE: [&str; 7] = [
    "set ?2 ?3 ?9",
    "fix 0 -!4..!9:1:-!4",
    "fix 0 ?5..9:1:?5",
    "loop 0 0",
    "unless ?3 ?9 ?9",
    "number ?3",
    "start 0",
];

/// Appends a line of this form.
fn draw_line(draws: &mut Draws, form: &str, text: &mut Vec<u8>) -> Result<(), AllocError> {
    let mut mark = b' ';
    for byte in form.as_bytes() {
        if mark == b'?' || mark == b'!' {
            let most = u64::from(byte.wrapping_sub(b'0'));
            let drawn = (draws.below(most) % 10) as u8;
            let least = if mark == b'!' { b'1' } else { b'0' };
            text.push(least.wrapping_add(drawn))?;
            mark = b' ';
        } else {
            mark = *byte;
            if mark != b'?' && mark != b'!' {
                text.push(mark)?;
            }
        }
    }
    text.push(b'\n')?;
    Ok(())
}

/// Appends so many lines, each with one of these forms.
fn draw_lines(
    draws: &mut Draws,
    many: u32,
    forms: &[&str],
    text: &mut Vec<u8>,
) -> Result<(), AllocError> {
    for _ in 0..many {
        let at = draws.below(forms.len() as u64);
        if let Some(form) = forms.get(at as usize) {
            draw_line(draws, form, text)?;
        }
    }
    Ok(())
}

fn drawn_listing(alloc: Global, seed: u64) -> Result<Vec<u8>, AllocError> {
    let mut draws = Draws { state: seed };
    let mut text = Vec::new(alloc);
    for (many, forms) in PARTS {
        draw_lines(&mut draws, many, forms, &mut text)?;
    }
    draw_lines(&mut draws, 10, &CODE, &mut text)?;
    Ok(text)
}

#[test]
fn drawn_listings(rt: HostRuntime) -> Result<(), Fail> {
    for seed in 0..40 {
        let text = drawn_listing(rt.alloc(), seed)?;
        assert!(rt; is_kept(rt.alloc(), &text)?);
    }
    Ok(())
}
