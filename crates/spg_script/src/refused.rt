ghost use Rattle.std.specs.Prelude.{◌≡◌};
ghost use Rattle.spg_script.specs.declared.refused.ScriptRefused.TheVariants as refused;

use spg_base::Memory;

/// Why bytes were not read as a script.
#[derive(Clone, Copy, Debug, PartialEq, Eq, thiserror::Error)]
pub enum ScriptRefused {
    /// They are no script. This line, counted from 1, is the first at which no script can go on;
    /// where more is needed behind the last line, it is the line after that.
    #[error("bad line {0}")]
    BadLine(u32),
    /// There was no memory.
    #[error("out of memory")]
    Memory,
}

impl From<Memory> for ScriptRefused {
    ghost from_gives = { λ _ e. e ≡ refused.Memory };

    fn from(_: Memory) -> ScriptRefused {
        ScriptRefused::Memory
    }
}
