//! Laws of the lines: contracts of functions with an empty body.
ghost use Rattle.command_line.specs.Laws.{AskForOneLine, AskedIsInRange, ConvertIsExact, JobIsExact};

/// The words ask for one line at most.
pub fn asks_for_one_line()
    ensures { AskForOneLine }
{}

/// The number of a line that words ask for is one that its command takes.
pub fn asked_is_in_range()
    ensures { AskedIsInRange }
{}

/// The words that ask for `Line::Convert`, written out: `convert`, alone or with one `--` behind it.
pub fn convert_is_exact()
    ensures { ConvertIsExact }
{}

/// The words that ask for `Line::Job`, by the same rule: `job`, alone or with one `--` behind it.
pub fn job_is_exact()
    ensures { JobIsExact }
{}
