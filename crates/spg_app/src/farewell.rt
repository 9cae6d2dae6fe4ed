ghost use Rattle.std.specs.Prelude.{◌≡◌, Some};
ghost use Rattle.spg_histories.specs.Ending.{code_of};
ghost use Rattle.spg_app.specs.Farewell.{last_status, words_of, number_of, reason_of, line_of, line_with};

use spg_histories::Status;
use spg_io::IoRefused;
use spg_verify::reason_name;
use std::fmt;

/// What the process tells at its end.
#[derive(Clone, Copy, Debug, PartialEq, Eq)]
pub struct Farewell {
    /// The words on standard error; empty where there are none.
    pub words: &'static str,
    /// The number that stands behind the words, where one does.
    pub number: Option<u32>,
    /// The name of the clause that an image fails, which stands behind the number; empty where there is none.
    pub reason: &'static str,
    /// The exit status.
    pub code: u8,
}

/// The line on standard error; empty where there is none.
impl fmt::Display for Farewell {
    ghost output = { λ f. Some (line_with f.words.now f.number f.reason.now) };

    fn fmt<W: fmt::Write>(&self, f: &mut fmt::Formatter<W>) -> fmt::Result {
        let words = self.words;
        let reason = self.reason;
        match self.number {
            Some(number) if reason.is_empty() => write!(f, "{words} {number}"),
            Some(number) => write!(f, "{words} {number} {reason}"),
            None => write!(f, "{words}"),
        }
    }
}

/// The words of a status.
fn words_of(status: Status) -> &'static str
    ensures { result.now ≡ words_of status }
{
    match status {
        Status::Done => "",
        Status::Usage => "usage",
        Status::BadScript(_) => "bad script line",
        Status::ReadFault => "read fault",
        Status::WriteFault => "write fault",
        Status::ImageFault => "image fault",
        Status::BadImage { .. } => "bad image",
        Status::Memory => "memory",
        Status::Full => "full",
    }
}

/// The number behind the words of a status.
fn number_of(status: Status) -> Option<u32>
    ensures { result ≡ number_of status }
{
    match status {
        Status::BadScript(line) => Some(line),
        Status::BadImage { block, .. } => Some(block),
        _ => None,
    }
}

/// The name of the clause behind the number.
fn reason_of(status: Status) -> &'static str
    ensures { result.now ≡ reason_of status }
{
    match status {
        Status::BadImage { reason, .. } => reason_name(reason),
        _ => "",
    }
}

/// What a process tells whose run answered so, and whose sink finished so. A sink that could not hand on
/// what it held is a write fault, whatever the run answered.
pub fn last_words(status: Status, finished: Result<(), IoRefused>) -> Farewell
    ensures words { result.words.now ≡ words_of (last_status status finished) }
    ensures number { result.number ≡ number_of (last_status status finished) }
    ensures reason { result.reason.now ≡ reason_of (last_status status finished) }
    ensures line { line_with result.words.now result.number result.reason.now ≡ line_of (last_status status finished) }
    ensures code { result.code ≡ code_of (last_status status finished) }
{
    let last = match finished {
        Ok(()) => status,
        Err(_) => Status::WriteFault,
    };
    Farewell {
        words: words_of(last),
        number: number_of(last),
        reason: reason_of(last),
        code: last.code(),
    }
}
