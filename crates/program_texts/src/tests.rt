//! Whole texts, against the lengths and hashes that another implementation gives them.
use crate::drawn_program;
use std::test::Fail;

/// A number, and the length and the hash of its text.
struct Row {
    seed: u32,
    length: usize,
    hash: u64,
}

/// The rows; a hash goes from h to 31 * h + byte, from 0 on.
const ROWS: [Row; 7] = [
    Row {
        seed: 1,
        length: 1531,
        hash: 6793946125394967434,
    },
    Row {
        seed: 2,
        length: 1427,
        hash: 14120999410398816495,
    },
    Row {
        seed: 17,
        length: 1875,
        hash: 9311326173769749175,
    },
    Row {
        seed: 59,
        length: 2904,
        hash: 14505417102844769132,
    },
    Row {
        seed: 999,
        length: 2353,
        hash: 584157651569204964,
    },
    Row {
        seed: 123456,
        length: 2413,
        hash: 14635396291704854077,
    },
    Row {
        seed: 1000000,
        length: 2608,
        hash: 9863772022818391579,
    },
];

/// The hash of bytes.
fn hash_of(bytes: &[u8]) -> u64 {
    bytes.iter().fold(
        0u64,
        |hash, byte| hash.wrapping_mul(31).wrapping_add(u64::from(*byte)),
    )
}

#[test]
fn texts(rt: HostRuntime) -> Result<(), Fail> {
    for row in &ROWS {
        let text = drawn_program(rt.alloc(), row.seed)?;
        let is_it = text.len() == row.length && hash_of(text.as_slice()) == row.hash;
        assert!(rt; is_it, "{}", row.seed);
    }
    Ok(())
}
