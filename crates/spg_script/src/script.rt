ghost use Rattle.std.specs.Prelude.{◌≡◌};
ghost use Rattle.spg_script.specs.Spelling.{class_of, has_values};
ghost use Rattle.spg_script.specs.Script.{IsWritten};

use crate::class_line::ClassLine;
use crate::class_name::ClassName;
use crate::part::Part;
use spg_base::List;
use std::marker::Model;

/// A class, and blocks in order: the script of some bytes, at most 2^32 - 2 of them.
#[derive(Debug, Drop)]
pub struct Script {
    class: ClassLine,
    parts: List<Part>,
}

impl Model for Script {
    ghost use Rattle.spg_script.specs.Blocks.{Script as Blocks};
    ghost use Rattle.spg_script.specs.Script.{IsWritten};

    ghost Value = { Blocks };

    ghost view = { λ s. record { class = s.class; parts = s.parts } };

    ghost invariant = { λ s. IsWritten (record { class = s.class; parts = s.parts }) };
}

impl Script {
    /// The script of this class with these blocks, which some bytes spell.
    pub(crate) fn new(class: ClassLine, parts: List<Part>) -> Script
        requires { IsWritten (record { class = class; parts = parts }) }
        ensures { result ≡ record { class = class; parts = parts } }
    {
        Script { class, parts }
    }

    /// What its class line names.
    pub fn line(&self) -> ClassLine
        ensures class { result ≡ self.now.class }
        ensures written { IsWritten self.now }
    {
        self.class
    }

    /// Its class, apart from numbers beside keys.
    pub fn class(&self) -> ClassName
        ensures { result ≡ class_of self.now.class }
    {
        self.class.class()
    }

    /// Whether a number stands beside each of its keys.
    pub fn valued(&self) -> bool
        ensures { result ≡ has_values self.now.class }
    {
        self.class.valued()
    }

    /// Its blocks, in order.
    pub fn parts(&self) -> &[Part]
        ensures parts { result.now ≡ self.now.parts }
        ensures written { IsWritten self.now }
    {
        self.parts.as_slice()
    }
}
