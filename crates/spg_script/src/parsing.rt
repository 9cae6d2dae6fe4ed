ghost use Rattle.std.specs.Prelude.{◌<◌, ◌-◌, ◌^◌, IfOk, IfErr, length};
ghost use Rattle.spg_script.specs.Script.{IsScript};
ghost use Rattle.spg_script.specs.Refusal.{IsCause};

use crate::lines::first_line;
use crate::reader::Reader;
use crate::refused::ScriptRefused;
use crate::script::Script;
use std::alloc::Global;

/// The script that the bytes spell, which are at most 2^32 - 2. `BadLine` exactly where they spell
/// none; its number is that of the first bad line.
pub fn parse(alloc: Global, bytes: &[u8]) -> Result<Script, ScriptRefused>
    requires { length bytes.now < 2 ^ 32 - 1 }
    ensures found { IfOk result (λ script. IsScript bytes.now script) }
    ensures bad { IfErr result (λ why. IsCause bytes.now why) }
{
    let mut reader = Reader::Start;
    let mut rest = bytes;
    let mut number = 0u32;
    while !rest.is_empty() {
        let (line, after) = first_line(rest);
        number += 1;
        if !reader.read(alloc, line)? {
            return Err(ScriptRefused::BadLine(number));
        }
        rest = after;
    }
    match reader.end() {
        Some((class, parts)) => Ok(Script::new(class, parts)),
        None => Err(ScriptRefused::BadLine(number + 1)),
    }
}
