//! The processors of a program as a machine.
ghost use Rattle.grid_links.specs.declared.messages.Message.{Message as OneMessage};
ghost use Rattle.grid_meaning.specs.Action.{StuckKind};
ghost use Rattle.grid_meaning.specs.Local.{Local as State};
ghost use Rattle.grid_meaning.specs.Turn.{act as act_of, fed as fed_of};

use grid_links::Machine;
use node_form::NodeProgram;
use std::marker::Model;

/// The processors that run a program, which is lent: deterministic processes, for which the laws of
/// every order hold.
pub struct Processors<'a> {
    code: &'a NodeProgram,
}

impl<'a> Model for Processors<'a> {
    ghost use Rattle.node_form.specs.declared.tables.Tables.{Tables};

    ghost Value = { Tables };

    ghost view = { λ processors. processors.code.now };
}

impl Machine for Processors<'_> {
    ghost Local = { State };

    ghost Message = { OneMessage };

    ghost Kind = { StuckKind };

    ghost act = { act_of };

    ghost fed = { fed_of };
}
