ghost use Rattle.spg_words.specs.Exact.{LinesAreExact};

// Nothing runs here: the law is proved where its contract names it.

/// Each reader of a command's words gives what they ask for, exactly where they are its line.
pub fn lines_are_exact()
    ensures { LinesAreExact }
{}
