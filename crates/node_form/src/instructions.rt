//! Instructions.
use zpl_arrays::zpl_nums::{Border, Fold, TrapKind};
use zpl_arrays::zpl_region::{Region, Vec3};

/// How a region is made of another one and a vector: `V of U`, `V in U`, `U at V` or `U by V`.
#[derive(Clone, Copy, Debug)]
pub enum RegionForm {
    Of,
    Inside,
    At,
    By,
}

/// For which operator two regions have to conform.
#[derive(Clone, Copy, Debug)]
pub enum SameKind {
    /// A partial reduction: each dimension of the target equals the source's or has one position.
    Part,
    /// A flood: each dimension of the source has one member or equals the target's.
    Flood,
}

/// How a dimension of a region is made.
#[derive(Clone, Copy, Debug)]
pub enum DimRow {
    /// From the value of the first expression to that of the second one.
    Span(u32, u32),
    /// A flood dimension. It also stands past the rank.
    Star,
    /// The same dimension of the slot's region.
    Copied(u32),
}

/// An instruction. Names of its parts: `slot`, `target` and `source` are slots, `array` and `from`
/// arrays (in `Formed`, `from` is a slot), `expr` an expression, `goal` an instruction. A `line` is
/// that of the source statement, for the text of a trap. Where nothing else is said, a processor
/// goes on with the next instruction.
#[derive(Clone, Copy, Debug)]
pub enum Instr {
    /// The scalar becomes the expression's value. A zero divisor is a trap.
    Set {
        scalar: u32,
        expr: u32,
        line: u32,
    },
    /// The slot becomes this region.
    Fix {
        slot: u32,
        region: Region,
    },
    /// The slot becomes the region of these dimensions. A zero divisor is a trap, and so is a
    /// region past the limit.
    Dims {
        slot: u32,
        parts: [DimRow; 3],
        line: u32,
    },
    /// The slot becomes the region that the form makes of another slot's. One past the limit is a
    /// trap.
    Formed {
        form: RegionForm,
        slot: u32,
        from: u32,
        shift: Vec3,
        line: u32,
    },
    /// A trap where the slot's region, moved by the vector, isn't within the array's storage.
    Need {
        slot: u32,
        array: u32,
        shift: Vec3,
        line: u32,
    },
    /// A trap where the two regions don't conform.
    Same {
        target: u32,
        source: u32,
        kind: SameKind,
        line: u32,
    },
    /// A trap where the border on this side of the slot's region doesn't conform.
    Fits {
        slot: u32,
        shift: Vec3,
        line: u32,
    },
    /// The temporary gets the hull of the slot's tuples in the own block, all 0; where the slot's
    /// dimension is flood and the array's isn't, `0..0`.
    Room {
        array: u32,
        slot: u32,
    },
    /// All held places of the array become 0.
    Clear {
        array: u32,
    },
    /// The group is run at each index of the slot's region in the own block, one index a turn. A
    /// loop in the group takes a turn more whenever it goes back.
    Loop {
        slot: u32,
        group: u32,
    },
    /// What others need of the exchange is sent to them.
    Start {
        exchange: u32,
    },
    /// What was sent by others is received into the held places.
    Finish {
        exchange: u32,
    },
    /// The places beside the slot's region on this side become those of the opposite side, or those
    /// of the same side mirrored.
    Edge {
        kind: Border,
        array: u32,
        slot: u32,
        shift: Vec3,
    },
    /// The array over the target becomes the values of the other array at the source's places.
    Flood {
        array: u32,
        target: u32,
        from: u32,
        source: u32,
    },
    /// The array over the target becomes the partial folds of the other array over the source.
    Part {
        array: u32,
        target: u32,
        fold: Fold,
        from: u32,
        source: u32,
    },
    /// The array over the slot's region becomes the scan of the other one over the tuples where the
    /// mask isn't 0, and at the others the fold so far; along one dimension, or over all in
    /// row-major order where `along` is 0.
    Scan {
        array: u32,
        slot: u32,
        fold: Fold,
        along: u8,
        from: u32,
        mask: Option<u32>,
    },
    /// All processors learn the least member of the group that met a zero divisor. It is a trap at
    /// that member's line.
    Vote {
        group: u32,
    },
    /// The scalar becomes the join of its values on all processors.
    Fold {
        scalar: u32,
        fold: Fold,
    },
    /// As `Vote`, by messages along a tree of processors.
    TreeVote {
        group: u32,
    },
    /// As `Fold`, by messages along a tree of processors.
    TreeFold {
        scalar: u32,
        fold: Fold,
    },
    /// Processor 0 prints the text.
    Print {
        text: u32,
    },
    /// Processor 0 prints the expression's value in decimal. A zero divisor is a trap, at line 0.
    Number {
        expr: u32,
    },
    /// Processor 0 prints the expression's value as `true` or `false`. A zero divisor is a trap, at
    /// line 0.
    Truth {
        expr: u32,
    },
    /// Processor 0 prints the array over the slot's region, as truth values or as numbers.
    Gather {
        truth: bool,
        array: u32,
        slot: u32,
    },
    /// Goes to the instruction of this number; behind the last one the program ends.
    Jump {
        goal: u32,
    },
    /// Goes to `goal` where the expression's value is 0. A zero divisor is a trap.
    Unless {
        expr: u32,
        goal: u32,
        line: u32,
    },
    /// The program ends with this trap.
    Trap {
        kind: TrapKind,
        line: u32,
    },
    /// The program ends normally.
    End,
    /// The temporary `array` becomes, at each index of the slot's region, the value of `from` at
    /// the tuple of the values of the temporaries `parts`: as many of them, in front, as `from` has
    /// dimensions.
    Remap {
        array: u32,
        slot: u32,
        from: u32,
        parts: [Option<u32>; 3],
    },
}
