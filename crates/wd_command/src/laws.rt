//! Laws over the definitions alone.

ghost use Rattle.wd_command.specs.Laws.{PlainLinesAreTaken, PlainTasksAreJudged, PlainWordsAreLines};

/// Plain words ask only for what they say.
pub fn plain_words_are_lines()
    ensures { PlainWordsAreLines }
{}

/// Plain words that say what is asked ask for it.
pub fn plain_lines_are_taken()
    ensures { PlainLinesAreTaken }
{}

/// The words of a plain task are never the reason of a failure.
pub fn plain_tasks_are_judged()
    ensures { PlainTasksAreJudged }
{}
