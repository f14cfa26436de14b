//! Whether tables fit.
ghost use Rattle.std.specs.Prelude.{◌≡◌, ◌≤◌, ◌*◌, ◌↔◌, IsTrue, All, List, slice_get};
ghost use Rattle.std.specs.Option.{IfSome, IsSomeAnd};
ghost use Rattle.node_form.specs.declared.instructions.Instr.{Instr as Step};
ghost use Rattle.node_form.specs.Expression.{IsExpression, operands_of};
ghost use Rattle.node_form.specs.Fits.{
  Fits,
  FitsArray,
  FitsExchange,
  FitsExpr,
  FitsGroup,
  FitsInstr,
  FitsAt,
  FitsItem,
  FitsMember,
  FitsPart,
  FitsPlain,
  FitsRemap,
  FitsWord,
  FitParts,
  HasArray,
  HasExpr,
  HasGroup,
  HasScalarExpr,
  HasSlot,
  IsIndexArray,
  IsRank,
  IsScalarWord,
  IsStar,
  IsStored,
  IsTemporary,
  recoded,
};
ghost use Rattle.node_form.specs.Grid.{IsGrid};

use crate::arrays::Item;
use crate::instructions::{DimRow, Instr};
use crate::members::Member;
use crate::nests::is_nest;
use crate::shapes::{fits_array, fits_region, is_range, is_rank, is_vector};
use crate::tables::{Grid3, Tables};
use crate::words::ExprOp;

/// The most processors that a grid may have.
const MAX_PROCESSORS: u32 = 64;

impl Tables {
    /// Whether every number is in its table, ranks agree, every expression's stack is right,
    /// members open and close as they must, and regions, storages, vectors and the grid are within
    /// their limits. It takes no memory, and a time linear in the rows, each counted with those
    /// that it names; in the longest group it may be quadratic.
    pub fn fits_tables(&self) -> bool
        ensures { IsTrue result ↔ Fits self.now }
    {
        self.shapes_fit() && self.bodies_fit() && self.steps_fit()
    }

    /// Whether the grid, the slots and the arrays are as they must be.
    fn shapes_fit(&self) -> bool
        ensures { IsTrue result
            ↔ IsGrid self.now.grid × All IsRank self.now.slots × All FitsArray self.now.arrays }
    {
        is_grid(&self.grid)
            && self.slots.as_slice().iter().all(|rank| is_rank(*rank))
            && self.arrays.as_slice().iter().all(fits_array)
    }

    /// Whether the expressions and the groups are.
    fn bodies_fit(&self) -> bool
        ensures { IsTrue result
            ↔ All (FitsExpr self.now) self.now.exprs × All (FitsGroup self.now) self.now.groups }
    {
        self.exprs
            .as_slice()
            .iter()
            .all(|row| self.fits_expr(row.as_slice()))
            && self
                .groups
                .as_slice()
                .iter()
                .all(|row| self.fits_group(row.as_slice()))
    }

    /// Whether the exchanges and the instructions are.
    fn steps_fit(&self) -> bool
        ensures { IsTrue result
            ↔ All (FitsExchange self.now) self.now.exchanges
            × All (FitsInstr self.now) self.now.code }
    {
        self.exchanges_fit() && self.code_fits()
    }

    /// Whether the exchanges are.
    fn exchanges_fit(&self) -> bool
        ensures { IsTrue result ↔ All (FitsExchange self.now) self.now.exchanges }
    {
        self.exchanges
            .as_slice()
            .iter()
            .all(|row| self.fits_exchange(row.as_slice()))
    }

    /// Whether the instructions are.
    fn code_fits(&self) -> bool
        ensures { IsTrue result ↔ All (FitsInstr self.now) self.now.code }
    {
        self.code
            .as_slice()
            .iter()
            .all(|instr| self.fits_instr(instr))
    }

    // ---- what is in its table

    /// Whether the slot is there, and is for regions of this rank.
    pub fn has_slot(&self, rank: u8, slot: u32) -> bool
        ensures { IsTrue result ↔ HasSlot self.now rank slot }
    {
        match self.slots.get(u64::from(slot)) {
            Some(own) => *own == rank,
            None => false,
        }
    }

    /// Whether the array is there, and has this rank.
    pub fn has_array(&self, rank: u8, array: u32) -> bool
        ensures { IsTrue result ↔ HasArray self.now rank array }
    {
        match self.arrays.get(u64::from(array)) {
            Some(row) => row.rank == rank,
            None => false,
        }
    }

    /// Whether the array is there, and is a stored one.
    pub fn is_stored(&self, array: u32) -> bool
        ensures { IsTrue result ↔ IsStored self.now array }
    {
        match self.arrays.get(u64::from(array)) {
            Some(row) => row.stored,
            None => false,
        }
    }

    /// Whether the array is there, and is a temporary.
    pub fn is_temporary(&self, array: u32) -> bool
        ensures { IsTrue result ↔ IsTemporary self.now array }
    {
        match self.arrays.get(u64::from(array)) {
            Some(row) => !row.stored,
            None => false,
        }
    }

    // ---- expressions

    fn fits_expr(&self, words: &[ExprOp]) -> bool
        ensures { IsTrue result ↔ FitsExpr self.now words.now }
    {
        is_expression(words)
            && (self.words_fit(1, words) || self.words_fit(2, words) || self.words_fit(3, words))
    }

    /// Whether each word fits at this rank.
    pub fn words_fit(&self, rank: u8, words: &[ExprOp]) -> bool
        ensures { IsTrue result ↔ All (FitsWord self.now rank) words.now }
    {
        words.iter().all(|word| self.fits_word(rank, word))
    }

    fn fits_word(&self, rank: u8, word: &ExprOp) -> bool
        ensures { IsTrue result ↔ FitsWord self.now rank word.now }
    {
        match *word {
            ExprOp::Scalar(scalar) => scalar < self.scalars,
            ExprOp::Here(array) => self.has_array(rank, array),
            ExprOp::Shifted(array, shift) => self.has_array(rank, array) && is_vector(rank, &shift),
            ExprOp::Cell(cell) => cell < self.cells,
            ExprOp::Coord(dimension) => 1 <= dimension && dimension <= rank,
            ExprOp::Const(_) | ExprOp::Pair(_) | ExprOp::Neg | ExprOp::Not | ExprOp::Abs => true,
        }
    }

    fn has_expr(&self, rank: u8, expr: u32) -> bool
        ensures { IsTrue result ↔ HasExpr self.now rank expr }
    {
        match self.exprs.get(u64::from(expr)) {
            Some(words) => self.words_fit(rank, words.as_slice()),
            None => false,
        }
    }

    fn has_scalar_expr(&self, expr: u32) -> bool
        ensures { IsTrue result ↔ HasScalarExpr self.now expr }
    {
        match self.exprs.get(u64::from(expr)) {
            Some(words) => are_scalar(words.as_slice()),
            None => false,
        }
    }

    // ---- groups and exchanges

    fn fits_group(&self, members: &[Member]) -> bool
        ensures { IsTrue result ↔ FitsGroup self.now members.now }
    {
        is_nest(members)
            && (self.members_fit(1, members)
                || self.members_fit(2, members)
                || self.members_fit(3, members))
    }

    fn members_fit(&self, rank: u8, members: &[Member]) -> bool
        ensures { IsTrue result ↔ All (FitsMember self.now rank) members.now }
    {
        members.iter().all(|member| self.fits_member(rank, member))
    }

    fn fits_member(&self, rank: u8, member: &Member) -> bool
        ensures { IsTrue result ↔ FitsMember self.now rank member.now }
    {
        match *member {
            Member::Put {
                array,
                expr,
                mask,
                ..
            } => {
                self.has_array(rank, array)
                    && self.has_expr(rank, expr)
                    && self.has_mask(rank, mask)
            }
            Member::Cell {
                cell,
                expr,
                mask,
                ..
            } => cell < self.cells && self.has_expr(rank, expr) && self.has_mask(rank, mask),
            Member::Acc {
                scalar,
                expr,
                mask,
                ..
            } => scalar < self.scalars && self.has_expr(rank, expr) && self.has_mask(rank, mask),
            Member::OpenIf { expr, mask, .. } | Member::OpenWhile { expr, mask, .. } => {
                self.has_expr(rank, expr) && self.has_mask(rank, mask)
            }
            Member::OpenRepeat { mask, .. } => self.has_mask(rank, mask),
            Member::Until { expr } => self.has_expr(rank, expr),
            Member::Otherwise | Member::CloseIf | Member::CloseWhile => true,
        }
    }

    fn has_mask(&self, rank: u8, mask: Option<u32>) -> bool
        ensures { IsTrue result ↔ IfSome mask (HasExpr self.now rank) }
    {
        match mask {
            Some(expr) => self.has_expr(rank, expr),
            None => true,
        }
    }

    fn has_group(&self, rank: u8, group: u32) -> bool
        ensures { IsTrue result ↔ HasGroup self.now rank group }
    {
        match self.groups.get(u64::from(group)) {
            Some(members) => self.members_fit(rank, members.as_slice()),
            None => false,
        }
    }

    #[tactic(auto, unfolding(crate::specs::Fits::FitsExchange))]
    fn fits_exchange(&self, items: &[Item]) -> bool
        ensures { IsTrue result ↔ FitsExchange self.now items.now }
    {
        items.iter().all(|item| self.fits_item(item))
    }

    /// Whether the item names a stored array, a slot and a vector of one rank.
    pub fn fits_item(&self, item: &Item) -> bool
        ensures { IsTrue result ↔ FitsItem self.now item.now }
    {
        match self.slots.get(u64::from(item.slot)) {
            Some(rank) => {
                self.has_array(*rank, item.array)
                    && self.is_stored(item.array)
                    && is_vector(*rank, &item.shift)
            }
            None => false,
        }
    }

    // ---- instructions

    fn fits_instr(&self, instr: &Instr) -> bool
        ensures { IsTrue result ↔ FitsInstr self.now instr.now }
    {
        self.fits_at(self.rank_of(instr), instr)
    }

    /// The rank of the slot over whose regions the row works, or 0 where there is none. It is the
    /// one at which the row fits these tables, or these with another code, if it fits them at all.
    pub fn rank_of(&self, instr: &Instr) -> u8
        ensures here { FitsInstr self.now instr.now → FitsAt self.now result instr.now }
        ensures elsewhere { (code : List Step) → FitsInstr (recoded self.now code) instr.now →
            FitsAt (recoded self.now code) result instr.now }
    {
        match *instr {
            Instr::Fix { slot, .. }
            | Instr::Dims { slot, .. }
            | Instr::Formed { slot, .. }
            | Instr::Need { slot, .. }
            | Instr::Same { target: slot, .. }
            | Instr::Fits { slot, .. }
            | Instr::Room { slot, .. }
            | Instr::Loop { slot, .. }
            | Instr::Edge { slot, .. }
            | Instr::Flood { target: slot, .. }
            | Instr::Part { target: slot, .. }
            | Instr::Scan { slot, .. }
            | Instr::Gather { slot, .. }
            | Instr::Remap { slot, .. } => self.slots.get(u64::from(slot)).copied().unwrap_or(0),
            _ => 0,
        }
    }

    fn fits_at(&self, rank: u8, instr: &Instr) -> bool
        ensures { IsTrue result ↔ FitsAt self.now rank instr.now }
    {
        match *instr {
            Instr::Set { scalar, expr, .. } => scalar < self.scalars && self.has_scalar_expr(expr),
            Instr::Dims { slot, parts, .. } => {
                self.has_slot(rank, slot) && self.parts_fit(rank, &parts)
            }
            Instr::Loop { slot, group } => {
                self.has_slot(rank, slot) && self.has_group(rank, group)
            }
            Instr::Number { expr } | Instr::Truth { expr } => self.has_scalar_expr(expr),
            Instr::Jump { goal } => u64::from(goal) <= self.code.len(),
            Instr::Unless { expr, goal, .. } => {
                self.has_scalar_expr(expr) && u64::from(goal) <= self.code.len()
            }
            _ => self.fits_plain(rank, instr),
        }
    }

    /// Whether the row fits at this rank, if its rule looks into no expression, no group and not at
    /// the number of instructions. Of a row whose rule does, nothing is asked.
    pub fn fits_plain(&self, rank: u8, instr: &Instr) -> bool
        ensures { IsTrue result ↔ FitsPlain self.now rank instr.now }
    {
        match *instr {
            Instr::Fix { slot, region } => {
                self.has_slot(rank, slot) && fits_region(&region) && region.rank == rank
            }
            Instr::Formed {
                slot,
                from,
                shift,
                ..
            } => {
                self.has_slot(rank, slot) && self.has_slot(rank, from) && is_vector(rank, &shift)
            }
            Instr::Need {
                slot,
                array,
                shift,
                ..
            } => {
                self.has_slot(rank, slot)
                    && self.has_array(rank, array)
                    && self.is_stored(array)
                    && is_vector(rank, &shift)
            }
            Instr::Same { target, source, .. } => {
                self.has_slot(rank, target) && self.has_slot(rank, source)
            }
            Instr::Fits { slot, shift, .. } => self.has_slot(rank, slot) && is_vector(rank, &shift),
            Instr::Room { array, slot } => {
                self.has_slot(rank, slot) && self.has_array(rank, array) && self.is_temporary(array)
            }
            Instr::Clear { array } => self.is_stored(array),
            Instr::Start { exchange } | Instr::Finish { exchange } => {
                u64::from(exchange) < self.exchanges.len()
            }
            Instr::Edge {
                array,
                slot,
                shift,
                ..
            } => {
                self.has_slot(rank, slot) && self.has_array(rank, array) && is_vector(rank, &shift)
            }
            Instr::Flood {
                array,
                target,
                from,
                source,
            }
            | Instr::Part {
                array,
                target,
                from,
                source,
                ..
            } => {
                self.has_slot(rank, target)
                    && self.has_slot(rank, source)
                    && self.has_array(rank, array)
                    && self.has_array(rank, from)
            }
            Instr::Scan {
                array,
                slot,
                along,
                from,
                mask,
                ..
            } => {
                self.has_slot(rank, slot)
                    && self.has_array(rank, array)
                    && self.has_array(rank, from)
                    && self.has_mask_array(rank, mask)
                    && along <= rank
            }
            Instr::Vote { group } | Instr::TreeVote { group } => {
                u64::from(group) < self.groups.len()
            }
            Instr::Fold { scalar, .. } | Instr::TreeFold { scalar, .. } => scalar < self.scalars,
            Instr::Print { text } => u64::from(text) < self.texts.len(),
            Instr::Gather { array, slot, .. } => {
                self.has_slot(rank, slot) && self.has_array(rank, array)
            }
            Instr::Remap {
                array,
                slot,
                from,
                parts,
            } => {
                self.has_slot(rank, slot)
                    && self.has_array(rank, array)
                    && self.is_temporary(array)
                    && self.fits_remap(rank, array, from, &parts)
            }
            Instr::Set { .. }
            | Instr::Dims { .. }
            | Instr::Loop { .. }
            | Instr::Number { .. }
            | Instr::Truth { .. }
            | Instr::Jump { .. }
            | Instr::Unless { .. }
            | Instr::Trap { .. }
            | Instr::End => true,
        }
    }

    fn parts_fit(&self, rank: u8, parts: &[DimRow; 3]) -> bool
        ensures { IsTrue result ↔ FitParts self.now rank parts.now }
    {
        let from = usize::from(rank).min(3);
        parts.iter().all(|part| self.fits_part(rank, part)) && parts[from..].iter().all(is_star)
    }

    fn fits_part(&self, rank: u8, part: &DimRow) -> bool
        ensures { IsTrue result ↔ FitsPart self.now rank part.now }
    {
        match *part {
            DimRow::Span(low, high) => self.has_scalar_expr(low) && self.has_scalar_expr(high),
            DimRow::Star => true,
            DimRow::Copied(slot) => self.has_slot(rank, slot),
        }
    }

    fn has_mask_array(&self, rank: u8, mask: Option<u32>) -> bool
        ensures { IsTrue result ↔ IfSome mask (HasArray self.now rank) }
    {
        match mask {
            Some(array) => self.has_array(rank, array),
            None => true,
        }
    }

    /// Whether a stored array without flood dimension is read, by as many temporaries of the rank
    /// as it has dimensions, none of which is the target.
    pub fn fits_remap(&self, rank: u8, target: u32, from: u32, parts: &[Option<u32>; 3]) -> bool
        ensures { IsTrue result
            ↔ IsSomeAnd (slice_get self.now.arrays from)
            (FitsRemap self.now rank target parts.now) }
    {
        let Some(row) = self.arrays.get(u64::from(from)) else {
            return false;
        };
        let count = usize::from(row.rank).min(3);
        row.stored
            && row.dims.iter().all(is_range)
            && parts[..count]
                .iter()
                .all(|part| self.is_index_array(rank, target, *part))
            && parts[count..].iter().all(|part| part.is_none())
    }

    fn is_index_array(&self, rank: u8, target: u32, part: Option<u32>) -> bool
        ensures { IsTrue result ↔ IsSomeAnd part (IsIndexArray self.now rank target) }
    {
        match part {
            Some(array) => {
                self.has_array(rank, array) && self.is_temporary(array) && array != target
            }
            None => false,
        }
    }
}

/// Whether the dimension of a region is a star.
pub fn is_star(part: &DimRow) -> bool
    ensures { IsTrue result ↔ IsStar part.now }
{
    matches!(part, DimRow::Star)
}

/// Whether the word has a value where there is no index.
fn is_scalar_word(word: &ExprOp) -> bool
    ensures { IsTrue result ↔ IsScalarWord word.now }
{
    match word {
        ExprOp::Here(_) | ExprOp::Shifted(..) | ExprOp::Cell(_) | ExprOp::Coord(_) => false,
        ExprOp::Const(_)
        | ExprOp::Scalar(_)
        | ExprOp::Pair(_)
        | ExprOp::Neg
        | ExprOp::Not
        | ExprOp::Abs => true,
    }
}

/// Whether each word has a value where there is no index.
pub fn are_scalar(words: &[ExprOp]) -> bool
    ensures { IsTrue result ↔ All IsScalarWord words.now }
{
    words.iter().all(is_scalar_word)
}

/// Whether each operator finds its operands on the stack, and one value is left.
pub fn is_expression(words: &[ExprOp]) -> bool
    ensures { IsTrue result ↔ IsExpression words.now }
{
    let mut depth: usize = 0;
    for word in words {
        let operands = operands_of(*word);
        if depth < operands {
            return false;
        }
        depth = depth - operands + 1;
    }
    depth == 1
}

/// How many values a word takes from the stack; each word leaves one.
fn operands_of(word: ExprOp) -> usize
    ensures { result ≡ operands_of word }
{
    match word {
        ExprOp::Const(_)
        | ExprOp::Scalar(_)
        | ExprOp::Here(_)
        | ExprOp::Shifted(..)
        | ExprOp::Cell(_)
        | ExprOp::Coord(_) => 0,
        ExprOp::Neg | ExprOp::Not | ExprOp::Abs => 1,
        ExprOp::Pair(_) => 2,
    }
}

/// Whether the factors stand in front, at least one, with only 0 behind them, for at most 64
/// processors.
pub fn is_grid(grid: &Grid3) -> bool
    ensures { IsTrue result ↔ IsGrid grid.now }
{
    let [first, second, third] = *grid;
    if first == 0 || (second == 0 && third != 0) {
        return false;
    }
    has_few(first, second.max(1), third.max(1))
}

/// Whether a grid with these factors has at most 64 processors.
fn has_few(first: u32, second: u32, third: u32) -> bool
    requires { 1 ≤ third }
    ensures { IsTrue result ↔ (first * second * third ≤ MAX_PROCESSORS) }
{
    first
        .checked_mul(second)
        .and_then(|count| count.checked_mul(third))
        .is_some_and(|count| count <= MAX_PROCESSORS)
}
