ghost use Rattle.spg_script.specs.Script.{ScriptsAreExact};
ghost use Rattle.spg_script.specs.Refusal.{PrintsReadBack};
ghost use Rattle.spg_script.specs.Reader.{ReadersFind, ReadersGoOn};

// Laws of scripts. Nothing runs here: a law is proved where a contract names it.

/// What is printed spells the script, and bytes are one script at most.
pub fn scripts_are_exact()
    ensures { ScriptsAreExact }
{}

/// What a reader of lines rests on.
pub fn readers_find()
    ensures { ReadersFind }
{}

/// How a reader of lines goes on.
pub fn readers_go_on()
    ensures { ReadersGoOn }
{}

/// What `parse` answers for what `print` writes of a script is that script, or want of memory.
pub fn prints_read_back()
    ensures { PrintsReadBack }
{}
