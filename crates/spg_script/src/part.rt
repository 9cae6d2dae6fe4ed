ghost use Rattle.std.specs.Prelude.{◌≡◌};
ghost use Rattle.spg_script.specs.Blocks.{alone_part, block_part};
ghost use Rattle.spg_script.specs.Parts.{lent_part};

use crate::command::Command;
use spg_base::List;
use std::marker::Model;

/// A block: lanes that run beside each other, lane i with seat i, or one command outside lanes.
#[derive(Debug, Drop)]
pub struct Part {
    form: Form,
}

/// What a block is made of. A command outside `together` needs no list.
#[derive(Debug, Drop)]
enum Form {
    Alone(Command),
    Together(List<List<Command>>),
}

impl Model for Part {
    ghost use Rattle.spg_script.specs.Blocks.{Part as Block};
    ghost use Rattle.spg_script.specs.Parts.{part_of};

    ghost Value = { Block };

    ghost view = { λ p. part_of p.form };
}

/// A block, read where it stands.
#[derive(Clone, Copy, Debug)]
pub enum PartRef<'a> {
    /// A command outside `together`.
    Alone(&'a Command),
    /// The lanes of a block that was written with `together`. Lane i has seat i.
    Together(&'a [List<Command>]),
}

impl Part {
    /// The block of a command outside `together`.
    pub(crate) fn alone(command: Command) -> Part
        ensures { result ≡ alone_part command }
    {
        Part {
            form: Form::Alone(command),
        }
    }

    /// The block that was written with `together`.
    pub(crate) fn together(lanes: List<List<Command>>) -> Part
        ensures { result ≡ block_part lanes }
    {
        Part {
            form: Form::Together(lanes),
        }
    }

    /// The command, or the lanes.
    pub fn lent(&self) -> PartRef<'_>
        ensures { lent_part result ≡ self.now }
    {
        match &self.form {
            Form::Alone(command) => PartRef::Alone(command),
            Form::Together(lanes) => PartRef::Together(lanes.as_slice()),
        }
    }
}
