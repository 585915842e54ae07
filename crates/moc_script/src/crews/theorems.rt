//! A theorem on every text that a crew may write.
ghost use Rattle.moc_script.specs.Crews.{CrewsAnswerEachLine};

/// States that a crew's text has one answer for each line that is not blank, in whatever order the lines were applied.
pub fn crews_answer_each_line()
    ensures { CrewsAnswerEachLine }
{}
