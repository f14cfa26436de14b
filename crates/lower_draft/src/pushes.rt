//! Rows that are pushed with their expressions, groups and texts.
ghost use Rattle.std.specs.Prelude.{◌≡◌, ◌+◌, ◌∷◌, IfOk, OnOk, length, flat_map, map};
ghost use Rattle.zpl_lowering.specs.of_flat_form.Row as row;
ghost use Rattle.zpl_lowering.specs.of_flat_form.Row.{all_coded, group_coded, mask_words, member_coded};
ghost use Rattle.zpl_lowering.specs.of_flat_form.Row.{member_words, numbered, part_coded, part_words};
ghost use Rattle.lower_draft.specs.Drafted.{pushed, with_exprs};
ghost use Rattle.lower_draft.specs.Inline.{member_of, part_of, row_of};

use crate::draft::Draft;
use crate::rows::{FlatMember, FlatPart, FlatRow};
use std::alloc::AllocError;
use zpl_lowering::node_form::{DimRow, ExprRow, GroupRow, Instr, Member};

impl Draft {
    /// Appends a row.
    pub fn push(&mut self, row: FlatRow) -> Result<(), AllocError>
        ensures { OnOk result (self.new ≡ pushed self.old (row_of row)) }
    {
        match row {
            FlatRow::Set { scalar, expr, line } => {
                let expr = self.add_expr(expr)?;
                self.add_row(Instr::Set { scalar, expr, line })
            }
            FlatRow::Dims { slot, parts, line } => self.push_dims(slot, parts, line),
            FlatRow::Loop { slot, group } => self.push_loop(slot, group),
            FlatRow::Print { text } => {
                let text = self.add_text(text)?;
                self.add_row(Instr::Print { text })
            }
            FlatRow::Number { expr } => {
                let expr = self.add_expr(expr)?;
                self.add_row(Instr::Number { expr })
            }
            FlatRow::Truth { expr } => {
                let expr = self.add_expr(expr)?;
                self.add_row(Instr::Truth { expr })
            }
            FlatRow::Plain(row) => self.add_row(row),
        }
    }

    /// Appends a row that makes a region of dimensions.
    fn push_dims(&mut self, slot: u32, parts: [FlatPart; 3], line: u32) -> Result<(), AllocError>
        ensures { OnOk result (self.new
            ≡ pushed self.old (row.Dims slot (map part_of parts) line)) }
    {
        let parts = Vec::from_array(self.alloc, parts)?;
        let rows = self.add_parts(parts)?;
        self.add_row(Instr::Dims {
            slot,
            parts: three_of(rows.as_slice()),
            line,
        })?;
        Ok(())
    }

    /// Appends the expressions of dimensions, and gives these by their numbers.
    fn add_parts(&mut self, parts: Vec<FlatPart>) -> Result<Vec<DimRow>, AllocError>
        ensures parts { IfOk result (λ rows. rows.items
            ≡ all_coded part_words part_coded (length self.old.tables.exprs)
            (map part_of parts.items)) }
        ensures added { OnOk result (self.new
            ≡ with_exprs self.old (flat_map part_words (map part_of parts.items))) }
    {
        let mut rows = Vec::new(self.alloc);
        for part in parts {
            let part = self.add_part(part)?;
            rows.push(part)?;
        }
        Ok(rows)
    }

    /// Appends a row that runs a group over a slot.
    fn push_loop(&mut self, slot: u32, group: Vec<FlatMember>) -> Result<(), AllocError>
        ensures { OnOk result (self.new
            ≡ pushed self.old (row.Loop slot (map member_of group.items))) }
    {
        let members = self.add_members(group)?;
        let group = self.add_group(GroupRow::of(members))?;
        self.add_row(Instr::Loop { slot, group })
    }

    /// Appends the expressions of a dimension, and gives it by their numbers.
    fn add_part(&mut self, part: FlatPart) -> Result<DimRow, AllocError>
        ensures part { IfOk result (λ row. row
            ≡ part_coded (length self.old.tables.exprs) (part_of part)) }
        ensures added { OnOk result (self.new ≡ with_exprs self.old (part_words (part_of part))) }
    {
        match part {
            FlatPart::Span(low, high) => {
                let low = self.add_expr(low)?;
                let high = self.add_expr(high)?;
                Ok(DimRow::Span(low, high))
            }
            FlatPart::Star => Ok(DimRow::Star),
            FlatPart::Copied(slot) => Ok(DimRow::Copied(slot)),
        }
    }

    /// Appends the expressions of members, and gives these by their numbers.
    fn add_members(&mut self, group: Vec<FlatMember>) -> Result<Vec<Member>, AllocError>
        ensures members { IfOk result (λ members. members.items
            ≡ group_coded (length self.old.tables.exprs) (map member_of group.items)) }
        ensures added { OnOk result (self.new
            ≡ with_exprs self.old (flat_map member_words (map member_of group.items))) }
    {
        let mut members = Vec::new(self.alloc);
        for member in group {
            let member = self.add_member(member)?;
            members.push(member)?;
        }
        Ok(members)
    }

    /// Appends the expressions of a member, and gives it by their numbers.
    fn add_member(&mut self, member: FlatMember) -> Result<Member, AllocError>
        ensures member { IfOk result (λ row. row
            ≡ member_coded (length self.old.tables.exprs) (member_of member)) }
        ensures added { OnOk result (self.new
            ≡ with_exprs self.old (member_words (member_of member))) }
    {
        match member {
            FlatMember::Put {
                array,
                expr,
                mask,
                line,
            } => {
                let (expr, mask) = self.add_masked(expr, mask)?;
                Ok(Member::Put {
                    array,
                    expr,
                    mask,
                    line,
                })
            }
            FlatMember::Acc {
                scalar,
                fold,
                expr,
                mask,
                line,
            } => {
                let (expr, mask) = self.add_masked(expr, mask)?;
                Ok(Member::Acc {
                    scalar,
                    fold,
                    expr,
                    mask,
                    line,
                })
            }
            FlatMember::OpenIf { expr, mask, line } => {
                let (expr, mask) = self.add_masked(expr, mask)?;
                Ok(Member::OpenIf { expr, mask, line })
            }
            FlatMember::Otherwise => Ok(Member::Otherwise),
            FlatMember::CloseIf => Ok(Member::CloseIf),
            FlatMember::OpenWhile { expr, mask, line } => {
                let (expr, mask) = self.add_masked(expr, mask)?;
                Ok(Member::OpenWhile { expr, mask, line })
            }
            FlatMember::CloseWhile => Ok(Member::CloseWhile),
            FlatMember::OpenRepeat { mask, line } => {
                let mask = self.add_mask(mask)?;
                Ok(Member::OpenRepeat { mask, line })
            }
            FlatMember::Until { expr } => {
                let expr = self.add_expr(expr)?;
                Ok(Member::Until { expr })
            }
        }
    }

    /// Appends an expression and the mask behind it, if there is one, and gives their numbers.
    fn add_masked(
        &mut self,
        expr: ExprRow,
        mask: Option<ExprRow>,
    ) -> Result<(u32, Option<u32>), AllocError>
        ensures expr { IfOk result (λ numbers. numbers.0 ≡ length self.old.tables.exprs) }
        ensures mask { IfOk result (λ numbers. numbers.1
            ≡ numbered (length self.old.tables.exprs + 1) mask) }
        ensures added { OnOk result (self.new
            ≡ with_exprs self.old (expr ∷ mask_words mask)) }
    {
        let expr = self.add_expr(expr)?;
        let mask = self.add_mask(mask)?;
        Ok((expr, mask))
    }

    /// Appends a mask, if there is one, and gives its number.
    fn add_mask(&mut self, mask: Option<ExprRow>) -> Result<Option<u32>, AllocError>
        ensures mask { IfOk result (λ number. number
            ≡ numbered (length self.old.tables.exprs) mask) }
        ensures added { OnOk result (self.new ≡ with_exprs self.old (mask_words mask)) }
    {
        match mask {
            Some(mask) => {
                let number = self.add_expr(mask)?;
                Ok(Some(number))
            }
            None => Ok(None),
        }
    }
}

/// Three dimensions, taken out of a list.
#[tactic(auto, using(crate::proofs::PushLemmas::three_of))]
fn three_of(rows: &[DimRow]) -> [DimRow; 3]
    requires { length rows.now ≡ 3 }
    ensures { result ≡ rows.now }
{
    [rows[0], rows[1], rows[2]]
}
