//! Members that are collected one by one.
ghost use Rattle.std.specs.Prelude.{◌≡◌, ◌∷◌, ◌++◌, ◌+◌, [], List, OnOk, length};
ghost use Rattle.flat_form.specs.Row as row;
ghost use Rattle.flat_form.specs.Row.{Member};
ghost use Rattle.zpl_lowering.specs.Statement as plain;
ghost use Rattle.zpl_lowering.specs.Statement.{otherwise_members};
ghost use Rattle.lower_operators.specs.of_lower_draft.Inline.{member_of};
ghost use Rattle.lower_points.specs.Inside.{members_in};

use lower_operators::lower_draft::FlatMember;
use std::alloc::AllocError;

/// Appends a member.
pub fn push(members: &mut Vec<FlatMember>, member: FlatMember) -> Result<(), AllocError>
    ensures { OnOk result (members_in members.new.items
        ≡ members_in members.old.items ++ member_of member ∷ []) }
{
    members.push(member)?;
    Ok(())
}

/// Closes an `OpenIf` whose other branch begins behind so many members. An empty one is left out.
pub fn close_if(members: &mut Vec<FlatMember>, behind: usize) -> Result<(), AllocError>
    ensures { (opened last : List Member) → behind ≡ length opened + 1
        → members_in members.old.items ≡ opened ++ row.Otherwise ∷ last
        → OnOk result (members_in members.new.items
        ≡ opened ++ (otherwise_members last ++ row.CloseIf ∷ [])) }
{
    if members.len() == behind {
        members.truncate(behind.saturating_sub(1));
        push(members, FlatMember::CloseIf)?;
        Ok(())
    } else {
        push(members, FlatMember::CloseIf)?;
        Ok(())
    }
}

/// Whether a member puts an array.
pub fn has_put(members: &[FlatMember]) -> bool
    ensures { result ≡ plain.has_put (members_in members.now) }
{
    for member in members {
        if let FlatMember::Put { .. } = member {
            return true;
        }
    }
    false
}
